// Whether two nodes have the same list.
ghost use Rattle.std.specs.Prelude.{◌≡◌, ◌∷◌, []};
ghost use Rattle.mat_tree.specs.Nodes.{at_root, below_node, below_all, below_child};
ghost use Rattle.mat_tree.specs.Trees.{same_tree};
ghost use Rattle.mat_tree.specs.declared.flat.What.TheVariants as what;

use crate::node::{Child, Node};
use mat_digest::Digest;
use mat_path::Target;

// Whether two nodes have the same list.
#[cycle(same)]
pub(crate) fn same_node(a: &Node, b: &Node) -> bool
    ensures { result ≡ same_tree (below_node a.now) (below_node b.now) }
{
    match a {
        Node::File { digest, exec } => is_file(b, digest, *exec),
        Node::Dir(children) => match b {
            Node::File { .. } => false,
            Node::Dir(others) => same_children(children.list(), others.list()),
            Node::Link(_) => false,
        },
        Node::Link(target) => is_link(b, target),
    }
}

// Whether children have the same list.
#[cycle(same)]
fn same_children(a: &[Child], b: &[Child]) -> bool
    ensures { result ≡ same_tree (below_all a.now) (below_all b.now) }
{
    if a.len() != b.len() {
        return false;
    }
    for (place, child) in a.iter().enumerate() {
        if !same_child(child, &b[place]) {
            return false;
        }
    }
    true
}

// Whether two children have the same list.
#[cycle(same)]
fn same_child(a: &Child, b: &Child) -> bool
    ensures { result ≡ same_tree (below_child a.now) (below_child b.now) }
{
    a.name == b.name && same_node(&a.node, &b.node)
}

// Whether a node is this file.
fn is_file(node: &Node, digest: &Digest, exec: bool) -> bool
    ensures { result ≡ same_tree (at_root (what.File digest.now exec) ∷ []) (below_node node.now) }
{
    match node {
        Node::File {
            digest: other,
            exec: flag,
        } => *digest == *other && exec == *flag,
        Node::Dir(_) => false,
        Node::Link(_) => false,
    }
}

// Whether a node is a link with this target.
fn is_link(node: &Node, target: &Target) -> bool
    ensures { result ≡ same_tree (at_root (what.Link target.now) ∷ []) (below_node node.now) }
{
    match node {
        Node::File { .. } => false,
        Node::Dir(_) => false,
        Node::Link(other) => target.bytes() == other.bytes(),
    }
}
