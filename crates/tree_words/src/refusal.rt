use mat_tree::TreeRefusal;

/// Why a text spells no tree. A word's number counts from 0.
#[derive(Clone, Copy, Debug, PartialEq, Eq)]
pub enum WordsRefusal {
    /// The first word that is missing, or that doesn't fit its place, has this number.
    Word(usize),
    /// All words fit, but the nodes that they spell are no tree.
    Tree(TreeRefusal),
    /// Want of memory.
    NoMemory,
}
