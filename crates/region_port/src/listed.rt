use mat_path::{Items, Rel, Target};

/// What a node is, without the bytes of a file.
#[derive(Debug, Drop)]
pub enum Form {
    /// A file: whether it is executable, and how many bytes it has.
    File { exec: bool, size: u64 },
    /// A directory.
    Dir,
    /// A symbolic link.
    Link(Target),
    /// What is none of these. A disk in memory has none.
    Strange,
}

/// A node, and its rel from the path of its part.
#[derive(Debug, Drop)]
pub struct Seen {
    pub rel: Rel,
    pub what: Form,
}

/// What the nodes of a part are.
#[derive(Debug, Drop)]
pub enum Listed {
    /// These, in order of rel.
    Nodes(Items<Seen>),
    /// There are more than 10,000.
    Many,
    /// The device failed.
    Failed,
    /// Want of memory.
    NoMemory,
}
