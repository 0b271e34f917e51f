ghost use Rattle.std.specs.Prelude.{◌≡◌};
ghost use Rattle.std.specs.List.{list_all};
ghost use Rattle.mat_tree.specs.Trees.{is_small};

use mat_digest::Digest;
use mat_path::{Rel, Target};

/// What a node of a tree is.
#[derive(Debug, Drop)]
pub enum What {
    /// A file, by its digest, and whether it is executable.
    File { digest: Digest, exec: bool },
    /// A directory.
    Dir,
    /// A symbolic link, by its target.
    Link(Target),
}

/// One node of a flat list: where it stands below the root of its tree, and what it is.
#[derive(Debug, Drop)]
pub struct Flat {
    pub rel: Rel,
    pub what: What,
}

/// The most bytes that a file of a tree has: 64 MiB.
pub const GREATEST_FILE: u64 = 67_108_864;

impl Flat {
    /// Whether the node is within the limit of a file's size, 67,108,864 bytes. Takes no memory.
    pub fn is_small(&self) -> bool
        ensures { result ≡ is_small self.now }
    {
        match &self.what {
            What::File { digest, .. } => digest.size <= GREATEST_FILE,
            What::Dir => true,
            What::Link(_) => true,
        }
    }

    /// Whether each node of a list is within that limit. Takes no memory.
    pub fn are_small(nodes: &[Flat]) -> bool
        ensures { result ≡ list_all is_small nodes.now }
    {
        nodes.iter().all(|node| node.is_small())
    }
}
