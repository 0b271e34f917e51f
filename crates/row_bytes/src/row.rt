use mat_tree::Tree;

/// A tree that was kept, and the folder that it belongs to, which rows of version 1 don't say.
#[derive(Debug, Drop)]
pub struct KeptTree {
    pub tree: Tree,
    /// The number of the folder, by which it is told from others: None for a row of version 1.
    pub identity: Option<u64>,
}
