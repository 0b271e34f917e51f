use mat_path::Path;
use mat_tree::Tree;

/// What a kept row says of its path.
#[derive(Debug, Drop)]
pub(crate) struct Body {
    pub(crate) tree: Tree,
    pub(crate) last: u64,
    /// Whether its bytes are of the version that is written now.
    pub(crate) new: bool,
}

/// A kept row that was read.
#[derive(Debug, Drop)]
pub(crate) struct Kept {
    pub(crate) path: Path,
    pub(crate) tree: Tree,
    pub(crate) last: u64,
    /// Whether its bytes are of the version that is written now.
    pub(crate) new: bool,
}
