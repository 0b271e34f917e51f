// Nodes from a flat list.
ghost use Rattle.std.specs.Prelude.{◌≡◌, ◌≤◌, ◌++◌, ◌∷◌, [], true, false, length, None, IfOk, IsOk};
ghost use Rattle.mat_tree.specs.Nodes.{below_node, below_all, at_root};
ghost use Rattle.mat_tree.specs.Trees.{follows_all, is_link, is_linked, tree_refusal};
ghost use Rattle.mat_tree.specs.declared.flat.What.TheVariants as what;

use crate::flat::{Flat, What};
use crate::node::{Child, Children, Node};
use mat_path::{Memory, Name};
use std::alloc::Global;

// The node of a list that nothing refuses. A list of one node takes no memory.
pub(crate) fn node_of(alloc: Global, nodes: &[Flat]) -> Result<Node, Memory>
    requires { tree_refusal nodes.now ≡ None }
    ensures ok { IfOk result (λ node. below_node node ≡ nodes.now) }
    ensures lone { length nodes.now ≡ 1 → IsOk result }
{
    match nodes {
        [] => unreachable!(),
        [root, rest @ ..] => build(alloc, root, rest),
    }
}

// The node of a list, from its root and the nodes behind it.
fn build(alloc: Global, root: &Flat, rest: &[Flat]) -> Result<Node, Memory>
    requires linked { is_linked root.now rest.now ≡ true }
    requires root { root.now.rel ≡ [] }
    ensures ok { IfOk result (λ node. below_node node ≡ root.now ∷ rest.now) }
    ensures lone { length rest.now ≡ 0 → is_link root.now.what ≡ false → IsOk result }
{
    let mut node = bare_node(alloc, &root.what)?;
    for next in rest {
        node = with_last(alloc, node, next.rel.names(), &next.what)?;
    }
    Ok(node)
}

// A node with nothing below it.
fn bare_node(alloc: Global, leaf: &What) -> Result<Node, Memory>
    ensures ok { IfOk result (λ node. below_node node ≡ at_root leaf.now ∷ []) }
    ensures total { is_link leaf.now ≡ false → IsOk result }
{
    match leaf {
        What::File { digest, exec } => Ok(Node::File {
            digest: *digest,
            exec: *exec,
        }),
        What::Dir => Ok(Node::Dir(Children::of(Vec::new(alloc)))),
        What::Link(target) => Ok(Node::Link(target.copy()?)),
    }
}

// A node with one more at the end of its list.
#[cycle(build)]
fn with_last(alloc: Global, node: Node, names: &[Name], leaf: &What) -> Result<Node, Memory>
    requires below { 1 ≤ length names.now }
    requires follows { follows_all names.now (below_node node) ≡ true }
    ensures { IfOk result (λ grown. below_node grown ≡ below_node node ++ (record { rel = names.now; what = leaf.now } ∷ [])) }
{
    match node {
        Node::File { .. } => unreachable!(),
        Node::Dir(children) => {
            let list = with_last_child(alloc, children.into_list(), names, leaf)?;
            Ok(Node::Dir(Children::of(list)))
        }
        Node::Link(_) => unreachable!(),
    }
}

// Children with one more node at the end of their list.
#[cycle(build)]
fn with_last_child(
    alloc: Global,
    mut list: Vec<Child>,
    names: &[Name],
    leaf: &What,
) -> Result<Vec<Child>, Memory>
    requires below { 1 ≤ length names.now }
    requires follows { follows_all names.now (at_root what.Dir ∷ below_all list.items) ≡ true }
    ensures { IfOk result (λ grown. below_all grown.items ≡ below_all list.items ++ (record { rel = names.now; what = leaf.now } ∷ [])) }
{
    match names {
        [] => unreachable!(),
        [name] => {
            let node = bare_node(alloc, leaf)?;
            let name = name.copy()?;
            list.push(Child { name, node })?;
            Ok(list)
        }
        [_, more @ ..] => match list.pop() {
            None => unreachable!(),
            Some(Child { name, node }) => {
                let node = with_last(alloc, node, more, leaf)?;
                list.push(Child { name, node })?;
                Ok(list)
            }
        },
    }
}
