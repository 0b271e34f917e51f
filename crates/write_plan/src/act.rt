use mat_digest::Digest;
use mat_path::{Rel, Target};

/// Where the bytes of a file come from.
#[derive(Debug, Drop)]
pub enum Supply {
    /// Nowhere: it has none.
    Empty,
    /// The row holds them.
    Held,
    /// The store has them.
    Store,
    /// They are read at this rel of the part that is lent.
    Loan(Rel),
}

/// One act of a make: at most one call on the part.
#[derive(Debug, Drop)]
pub enum Act {
    /// Leave no node.
    Wipe,
    /// Put a directory.
    Dir(Rel),
    /// Put a symbolic link.
    Link(Rel, Target),
    /// Put the file of this digest.
    File {
        rel: Rel,
        digest: Digest,
        exec: bool,
        from: Supply,
    },
    /// Make all of it last.
    Sync,
}
