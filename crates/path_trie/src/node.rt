ghost use Rattle.std.specs.Prelude.{◌≡◌, [], true, not, length};
ghost use Rattle.path_trie.specs.Nodes.{below_node, has_some, is_well};

use mat_path::Name;
use std::alloc::Global;

// A node of a trie: what stands there, its children in strict order of name, and how many entries are at and below it.
#[cycle(trie)]
#[derive(Debug, Drop)]
pub(crate) struct Node<T> {
    pub(crate) value: Option<T>,
    pub(crate) edges: Vec<Edge<T>>,
    pub(crate) count: usize,
}

// A child of a node, under its name. Something stands at or below it.
#[cycle(trie)]
#[derive(Debug, Drop)]
pub(crate) struct Edge<T> {
    pub(crate) name: Name,
    pub(crate) node: Node<T>,
}

impl<T> Node<T> {
    // The node with nothing at and below it.
    pub(crate) fn bare(alloc: Global) -> Node<T>
        ensures list { below_node result ≡ [] }
        ensures well { is_well result ≡ true }
    {
        Node {
            value: None,
            edges: Vec::new(alloc),
            count: 0,
        }
    }

    // How many entries are at and below the node.
    pub(crate) fn len(&self) -> usize
        requires { is_well self.now ≡ true }
        ensures { result ≡ length (below_node self.now) }
    {
        self.count
    }

    // Whether nothing stands at and below the node.
    pub(crate) fn is_bare(&self) -> bool
        requires { is_well self.now ≡ true }
        ensures { result ≡ not (has_some (below_node self.now)) }
    {
        self.count == 0
    }
}
