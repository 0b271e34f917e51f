use mat_model::Card;
use mat_path::Path;
use mat_tree::Tree;
use std::snapshot::Snapshot;

/// The tree of a row whose part is lent.
#[derive(Drop)]
pub struct LentTree {
    pub tree: Tree,
}

/// A row's part that a job reads, by the row's path and stamp, with the tree that the row had when the job began, and whether a clean
/// has removed the row since.
#[derive(Drop)]
pub struct LentPart {
    pub path: Path,
    pub stamp: u64,
    pub tree: Snapshot<LentTree>,
    pub cleaned: bool,
}

/// The row that is stored when a make ends well, as the state store keeps it: the text of its path, and its bytes.
#[derive(Drop)]
pub struct KeptBytes {
    pub path: Vec<u8>,
    pub body: Vec<u8>,
}

/// A job that runs: its number and task, who began it, the part that it reads, if it reads one, and the row that is stored when it ends
/// well: none for a wipe.
#[derive(Drop)]
pub struct Running {
    pub card: Card,
    pub caller: u32,
    pub lent: Option<LentPart>,
    pub kept: Option<KeptBytes>,
}
