use mat_path::Path;

/// A row that the state store has: its path, its last use there in microseconds, and whether it is in the version that is written now.
#[derive(Debug, Drop)]
pub struct Mark {
    pub path: Path,
    pub last: u64,
    pub new: bool,
}
