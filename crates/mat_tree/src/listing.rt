// The flat list of a node.
ghost use Rattle.std.specs.Prelude.{◌≡◌, ◌++◌, ◌∷◌, [], true, OnOk};
ghost use Rattle.std.specs.List.{list_all};
ghost use Rattle.mat_path.specs.Names.{is_rel};
ghost use Rattle.mat_tree.specs.Nodes.{below_node, below_all, below_child, placed, what_node};
ghost use Rattle.mat_tree.specs.Trees.{has_rel};

use crate::copy::what_of;
use crate::flat::Flat;
use crate::node::{Child, Node};
use mat_path::{Memory, Name, Rel};

// Appends the nodes at and below a node that stands at these names.
#[cycle(listing)]
pub(crate) fn list_node(
    node: &Node,
    names: &mut Vec<Name>,
    nodes: &mut Vec<Flat>,
) -> Result<(), Memory>
    requires { list_all has_rel (placed names.old.items (below_node node.now)) ≡ true }
    ensures names { OnOk result (names.new.items ≡ names.old.items) }
    ensures nodes { OnOk result (nodes.new.items ≡ nodes.old.items ++ placed names.old.items (below_node node.now)) }
{
    list_one(node, names, nodes)?;
    match node {
        Node::File { .. } => Ok(()),
        Node::Dir(children) => list_children(children.list(), names, nodes),
        Node::Link(_) => Ok(()),
    }
}

// Appends a node that stands at these names, without those below it.
fn list_one(node: &Node, names: &[Name], nodes: &mut Vec<Flat>) -> Result<(), Memory>
    requires { is_rel names.now ≡ true }
    ensures { OnOk result (nodes.new.items ≡ nodes.old.items ++ (record { rel = names.now; what = what_node node.now } ∷ [])) }
{
    let rel = Rel::of(*nodes.allocator(), names)?;
    let what = what_of(node)?;
    nodes.push(Flat { rel, what })?;
    Ok(())
}

// Appends the nodes at and below some children of a directory that stands at these names.
#[cycle(listing)]
fn list_children(
    children: &[Child],
    names: &mut Vec<Name>,
    nodes: &mut Vec<Flat>,
) -> Result<(), Memory>
    requires { list_all has_rel (placed names.old.items (below_all children.now)) ≡ true }
    ensures names { OnOk result (names.new.items ≡ names.old.items) }
    ensures nodes { OnOk result (nodes.new.items ≡ nodes.old.items ++ placed names.old.items (below_all children.now)) }
{
    for child in children {
        list_child(child, names, nodes)?;
    }
    Ok(())
}

// Appends the nodes at and below a child of a directory that stands at these names.
#[cycle(listing)]
fn list_child(child: &Child, names: &mut Vec<Name>, nodes: &mut Vec<Flat>) -> Result<(), Memory>
    requires { list_all has_rel (placed names.old.items (below_child child.now)) ≡ true }
    ensures names { OnOk result (names.new.items ≡ names.old.items) }
    ensures nodes { OnOk result (nodes.new.items ≡ nodes.old.items ++ placed names.old.items (below_child child.now)) }
{
    names.push(child.name.copy()?)?;
    list_node(&child.node, names, nodes)?;
    names.pop();
    Ok(())
}
