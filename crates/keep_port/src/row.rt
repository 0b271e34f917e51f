use mat_path::{Items, Path};

/// A row as it is kept: the text of its path, its bytes and its last use.
#[derive(Debug, Drop)]
pub struct RawRow {
    pub path: Items<u8>,
    pub body: Items<u8>,
    pub last: u64,
}

/// A new last use of the row at a path.
#[derive(Debug, Drop)]
pub struct Touch {
    pub path: Path,
    pub last: u64,
}

/// What the rows are.
#[derive(Debug, Drop)]
pub enum All {
    /// These, ascending by the bytes of their paths.
    Rows(Items<RawRow>),
    /// The keeper failed, and its count of faults rose.
    Failed,
    /// Memory was refused.
    NoMemory,
}
