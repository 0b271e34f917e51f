// The sum of a tree.
ghost use Rattle.std.specs.Prelude.{◌≡◌, ◌++◌, true, Bool, IfOk, IsOk, OnOk};
ghost use Rattle.std.specs.List.{flat_map};
ghost use Rattle.mat_digest.specs.Digests.{digest_of};
ghost use Rattle.mat_digest.specs.declared.digest.Digest.{Digest as TheDigest};
ghost use Rattle.mat_tree.specs.Nodes.{below_all, below_child};
ghost use Rattle.mat_tree.specs.Sums.{sum_of};
ghost use Rattle.mat_tree.specs.Trees.{ascends, file_kind, file_tree};
ghost use Rattle.reapi_dir.specs.Children.{children_message, dir_child, file_child, link_child};

use crate::fields::{push_dir, push_file, push_link};
use mat_digest::Digest;
use mat_path::Memory;
use mat_tree::{Child, Kind, Node, Sum, Tree};
use std::alloc::Global;

/// The sum of a tree: its kind, and the digest of its file or of its directory's message (Remote Execution API v2, `Directory`), whose
/// directories carry the digests of their own messages.
///
/// It is refused for want of memory alone. The sum of a file takes no memory.
pub fn sum_of(alloc: Global, tree: &Tree) -> Result<Sum, Memory>
    ensures ok { IfOk result (λ sum. sum ≡ sum_of tree.now) }
    ensures only { (digest : TheDigest) (exec : Bool) → tree.now ≡ file_tree digest exec → IsOk result }
{
    match tree.root() {
        Node::File { digest, exec } => Ok(Sum {
            kind: file_kind(*exec),
            digest: *digest,
        }),
        Node::Dir(children) => {
            let digest = digest_dir(alloc, children.list())?;
            Ok(Sum {
                kind: Kind::Dir,
                digest,
            })
        }
        Node::Link(_) => unreachable!(),
    }
}

// The kind of a file.
fn file_kind(exec: bool) -> Kind
    ensures { result ≡ file_kind exec }
{
    if exec { Kind::Exec } else { Kind::File }
}

// The digest of the message of a directory of these children. It is within itself at most once for each name of a rel.
#[cycle(sum)]
fn digest_dir(alloc: Global, children: &[Child]) -> Result<Digest, Memory>
    requires { ascends (below_all children.now) ≡ true }
    ensures { IfOk result (λ digest. digest ≡ digest_of (children_message children.now)) }
{
    let mut message = Vec::new(alloc);
    push_file_children(&mut message, children)?;
    push_dir_children(&mut message, children)?;
    push_link_children(&mut message, children)?;
    Ok(Digest::of(&message))
}

// Appends the fields of the directories among some children.
#[cycle(sum)]
fn push_dir_children(message: &mut Vec<u8>, children: &[Child]) -> Result<(), Memory>
    requires { ascends (below_all children.now) ≡ true }
    ensures { OnOk result (message.new.items ≡ message.old.items ++ flat_map dir_child children.now) }
{
    for child in children {
        push_dir_child(message, child)?;
    }
    Ok(())
}

// Appends the field of a child that is a directory, and nothing for another.
#[cycle(sum)]
fn push_dir_child(message: &mut Vec<u8>, child: &Child) -> Result<(), Memory>
    requires { ascends (below_child child.now) ≡ true }
    ensures { OnOk result (message.new.items ≡ message.old.items ++ dir_child child.now) }
{
    match &child.node {
        Node::File { .. } => Ok(()),
        Node::Dir(children) => {
            let digest = digest_dir(*message.allocator(), children.list())?;
            push_dir(message, &child.name, &digest)
        }
        Node::Link(_) => Ok(()),
    }
}

// Appends the fields of the files among some children.
fn push_file_children(message: &mut Vec<u8>, children: &[Child]) -> Result<(), Memory>
    ensures { OnOk result (message.new.items ≡ message.old.items ++ flat_map file_child children.now) }
{
    for child in children {
        push_file_child(message, child)?;
    }
    Ok(())
}

// Appends the field of a child that is a file, and nothing for another.
fn push_file_child(message: &mut Vec<u8>, child: &Child) -> Result<(), Memory>
    ensures { OnOk result (message.new.items ≡ message.old.items ++ file_child child.now) }
{
    match &child.node {
        Node::File { digest, exec } => push_file(message, &child.name, digest, *exec),
        Node::Dir(_) => Ok(()),
        Node::Link(_) => Ok(()),
    }
}

// Appends the fields of the links among some children.
fn push_link_children(message: &mut Vec<u8>, children: &[Child]) -> Result<(), Memory>
    ensures { OnOk result (message.new.items ≡ message.old.items ++ flat_map link_child children.now) }
{
    for child in children {
        push_link_child(message, child)?;
    }
    Ok(())
}

// Appends the field of a child that is a link, and nothing for another.
fn push_link_child(message: &mut Vec<u8>, child: &Child) -> Result<(), Memory>
    ensures { OnOk result (message.new.items ≡ message.old.items ++ link_child child.now) }
{
    match &child.node {
        Node::File { .. } => Ok(()),
        Node::Dir(_) => Ok(()),
        Node::Link(target) => push_link(message, &child.name, target),
    }
}
