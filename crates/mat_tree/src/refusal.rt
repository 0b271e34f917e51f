/// Why a flat list is no tree. A place counts the nodes of the list from 0.
#[derive(Clone, Copy, Debug, PartialEq, Eq)]
pub enum TreeRefusal {
    /// The list is empty, or its first node doesn't stand at the root.
    NoRoot,
    /// The node at the root is a link.
    RootLink,
    /// The list has more than 10,000 nodes.
    TooMany,
    /// The rel of the node at this place isn't greater than the one before.
    Order(usize),
    /// The node at this place stands in no directory of the list.
    Under(usize),
    /// Want of memory.
    NoMemory,
}
