// The node at some names below a node.
ghost use Rattle.std.specs.Prelude.{◌≡◌, true};
ghost use Rattle.std.specs.List.{find};
ghost use Rattle.std.specs.Option.{option_copied};
ghost use Rattle.mat_tree.specs.Nodes.{are_in_order, below_node, child_cmp, found, is_named};
ghost use Rattle.mat_tree.specs.Trees.{ascends, sub_tree};

use crate::node::{Child, Node};
use mat_path::Name;
use std::cmp::Ordering;

// The node at these names below a node, if one stands there.
pub(crate) fn node_at<'a>(node: &'a Node, names: &[Name]) -> Option<&'a Node>
    requires { ascends (below_node node.now) ≡ true }
    ensures { found (option_copied result) ≡ sub_tree (below_node node.now) names.now }
{
    match names {
        [] => Some(node),
        [name, more @ ..] => match node {
            Node::File { .. } => None,
            Node::Dir(children) => match find_child(children.list(), name) {
                None => None,
                Some(child) => node_at(&child.node, more),
            },
            Node::Link(_) => None,
        },
    }
}

// The child of this name, by halves.
fn find_child<'a>(children: &'a [Child], name: &Name) -> Option<&'a Child>
    requires { are_in_order children.now ≡ true }
    ensures { option_copied result ≡ find (is_named name.now) children.now }
{
    match children.binary_search_by(|child| child.name.cmp(name)) {
        Ok(place) => Some(&children[place]),
        Err(_) => None,
    }
}
