ghost use Rattle.std.specs.Prelude.{◌≡◌};
ghost use Rattle.mat_tree.specs.Nodes.{children_list, what_node};
ghost use Rattle.mat_tree.specs.Trees.{is_link, kind_of};
ghost use Rattle.mat_tree.specs.declared.node.Children.{out-Children};

use crate::sum::Kind;
use mat_digest::Digest;
use mat_path::{Items, Name, Target};

/// What stands at one place of a tree.
#[cycle(tree)]
#[derive(Debug, Drop)]
pub enum Node {
    /// A file, by its digest, and whether it is executable.
    File { digest: Digest, exec: bool },
    /// A directory, with its children.
    Dir(Children),
    /// A symbolic link, by its target.
    Link(Target),
}

/// The children of a directory, in strict order of name.
#[cycle(tree)]
#[derive(Debug, Drop)]
pub struct Children {
    list: Items<Child>,
}

/// A child of a directory: its name, and what stands there.
#[cycle(tree)]
#[derive(Debug, Drop)]
pub struct Child {
    pub name: Name,
    pub node: Node,
}

impl Children {
    /// The children in strict order of name. Takes no memory.
    pub fn list(&self) -> &[Child]
        ensures { result.now ≡ children_list self.now }
    {
        self.list.as_slice()
    }

    // The directory of these children.
    pub(crate) fn of(list: Vec<Child>) -> Children
        ensures { list.items ≡ (out-Children result).list }
    {
        Children {
            list: Items::of(list),
        }
    }

    // Gives the children.
    pub(crate) fn into_list(self) -> Vec<Child>
        ensures { result.items ≡ (out-Children self).list }
    {
        let Children { list } = self;
        list.into_vec()
    }
}

impl Node {
    /// Whether the node is a link. Takes no memory.
    pub fn is_link(&self) -> bool
        ensures { result ≡ is_link (what_node self.now) }
    {
        match self {
            Node::File { .. } => false,
            Node::Dir(_) => false,
            Node::Link(_) => true,
        }
    }

    /// What kind of artifact the node is: None for a link. Takes no memory.
    pub fn kind(&self) -> Option<Kind>
        ensures { result ≡ kind_of (what_node self.now) }
    {
        match self {
            Node::File { exec, .. } => Some(if *exec { Kind::Exec } else { Kind::File }),
            Node::Dir(_) => Some(Kind::Dir),
            Node::Link(_) => None,
        }
    }
}
