// How many nodes stand at and below a node.
ghost use Rattle.std.specs.Prelude.{◌≡◌, ◌≤◌, ◌<◌, ◌^◌, length};
ghost use Rattle.mat_tree.specs.Nodes.{below_node, below_all};
ghost use Rattle.mat_tree.specs.Trees.{bytes_of};

use crate::node::{Child, Node};

// How many nodes stand at and below a node.
#[cycle(count)]
pub(crate) fn count_node(node: &Node) -> u64
    requires { length (below_node node.now) ≤ 10000 }
    ensures { result ≡ length (below_node node.now) }
{
    match node {
        Node::File { .. } => 1,
        Node::Dir(children) => 1 + count_children(children.list()),
        Node::Link(_) => 1,
    }
}

// How many nodes stand at and below some children.
#[cycle(count)]
fn count_children(children: &[Child]) -> u64
    requires { length (below_all children.now) ≤ 10000 }
    ensures { result ≡ length (below_all children.now) }
{
    let mut count = 0;
    for child in children {
        count += count_node(&child.node);
    }
    count
}

// How many bytes the files at and below a node have.
#[cycle(weigh)]
pub(crate) fn weigh_node(node: &Node) -> u64
    requires { bytes_of (below_node node.now) < 2 ^ 64 }
    ensures { result ≡ bytes_of (below_node node.now) }
{
    match node {
        Node::File { digest, .. } => digest.size,
        Node::Dir(children) => weigh_children(children.list()),
        Node::Link(_) => 0,
    }
}

// How many bytes the files at and below some children have.
#[cycle(weigh)]
fn weigh_children(children: &[Child]) -> u64
    requires { bytes_of (below_all children.now) < 2 ^ 64 }
    ensures { result ≡ bytes_of (below_all children.now) }
{
    let mut sum = 0;
    for child in children {
        sum += weigh_node(&child.node);
    }
    sum
}
