// Copies of nodes.
ghost use Rattle.std.specs.Prelude.{◌≡◌, IfOk};
ghost use Rattle.mat_tree.specs.Nodes.{below_node, below_all, what_node};

use crate::flat::What;
use crate::node::{Child, Children, Node};
use mat_path::{Memory, Target};
use std::alloc::Global;

// What a node is.
pub(crate) fn what_of(node: &Node) -> Result<What, Memory>
    ensures { IfOk result (λ w. w ≡ what_node node.now) }
{
    match node {
        Node::File { digest, exec } => Ok(What::File {
            digest: *digest,
            exec: *exec,
        }),
        Node::Dir(_) => Ok(What::Dir),
        Node::Link(target) => Ok(What::Link(target.copy()?)),
    }
}

// A node with the same list.
#[cycle(copy)]
pub(crate) fn copy_node(alloc: Global, node: &Node) -> Result<Node, Memory>
    ensures { IfOk result (λ copy. below_node copy ≡ below_node node.now) }
{
    match node {
        Node::File { digest, exec } => Ok(Node::File {
            digest: *digest,
            exec: *exec,
        }),
        Node::Dir(children) => {
            let copies = copy_children(alloc, children.list())?;
            Ok(Node::Dir(Children::of(copies)))
        }
        Node::Link(target) => Ok(Node::Link(target.copy()?)),
    }
}

// Children with the same list.
#[cycle(copy)]
fn copy_children(alloc: Global, children: &[Child]) -> Result<Vec<Child>, Memory>
    ensures { IfOk result (λ copies. below_all copies.items ≡ below_all children.now) }
{
    let mut copies = Vec::new(alloc);
    for child in children {
        let name = child.name.copy()?;
        let node = copy_node(alloc, &child.node)?;
        copies.push(Child { name, node })?;
    }
    Ok(copies)
}
