use mat_path::{Items, Path, Rel};

/// Where the bytes of a copied row came from, if its source can't be read.
#[derive(Debug, Drop)]
pub enum Origin {
    /// The row holds them.
    Inline(Items<u8>),
    /// The store has them.
    Store,
}

/// Where the bytes of a row's files come from.
#[derive(Debug, Drop)]
pub enum Method {
    /// The row holds them.
    Write(Items<u8>),
    /// The store has them.
    Fetch,
    /// The row was copied from what another one has at a rel.
    Copy {
        source: Path,
        rest: Rel,
        stamp: u64,
        origin: Origin,
    },
}
