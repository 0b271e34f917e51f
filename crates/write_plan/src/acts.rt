// The acts of a make.
ghost use Rattle.std.specs.Prelude.{◌≡◌, ◌∷◌, ◌++◌, [], true, map, IfOk, OnOk};
ghost use Rattle.std.specs.List.{list_all};
ghost use Rattle.mat_path.specs.Names.{is_rel};
ghost use Rattle.mat_tree.specs.Parts.{HasTree, Part};
ghost use Rattle.mat_tree.specs.Trees.{IsTree};
ghost use Rattle.write_plan.specs.Carried.{AreRightAt, BytesAt, carry_at};
ghost use Rattle.write_plan.specs.Plans.{act_of, is_empty, lends_at, lends_node, may_lend, method_supply, origin_supply, plan_of, supply_of};

use crate::act::{Act, Supply};
use crate::method::{Method, Origin};
use mat_digest::Digest;
use mat_path::{JoinRefusal, Memory, Rel};
use mat_tree::{Flat, Tree, What};
use std::alloc::Global;

/// The acts that make a part of a disk have a tree: a wipe, one act for each node, parents first, and a sync. Bytes of a
/// file come from the row, from the store or, where `lent` says that it is lent, from the part that the row was copied
/// from; an empty file needs none.
///
/// Carried out with bytes of the declared digests, which may be other ones for each file of a digest, they make a part have the
/// tree, whatever it had before.
pub fn plan(alloc: Global, tree: &Tree, method: &Method, lent: bool) -> Result<Vec<Act>, Memory>
    requires { may_lend method.now lent tree.now ≡ true }
    ensures ok { IfOk result (λ acts. acts.items ≡ plan_of tree.now method.now lent) }
    ensures holds { IfOk result (λ acts. (bytes : BytesAt) (part : Part) → AreRightAt bytes tree.now → HasTree (carry_at bytes acts.items part) tree.now) }
{
    acts_of(alloc, tree, method, lent)
}

// The acts of a make.
fn acts_of(alloc: Global, tree: &Tree, method: &Method, lent: bool) -> Result<Vec<Act>, Memory>
    requires { may_lend method.now lent tree.now ≡ true }
    ensures ok { IfOk result (λ acts. acts.items ≡ plan_of tree.now method.now lent) }
    ensures tree { IsTree tree.now }
{
    let nodes = tree.flat()?;
    let mut acts = Vec::new(alloc);
    acts.push(Act::Wipe)?;
    push_nodes(&mut acts, nodes.as_slice(), method, lent)?;
    acts.push(Act::Sync)?;
    Ok(acts)
}

// Appends the acts that put some nodes.
fn push_nodes(
    acts: &mut Vec<Act>,
    nodes: &[Flat],
    method: &Method,
    lent: bool,
) -> Result<(), Memory>
    requires { may_lend method.now lent nodes.now ≡ true }
    ensures { OnOk result (acts.new.items ≡ acts.old.items ++ map (act_of method.now lent) nodes.now) }
{
    for node in nodes {
        acts.push(act_of(node, method, lent)?)?;
    }
    Ok(())
}

// The act that puts a node.
fn act_of(node: &Flat, method: &Method, lent: bool) -> Result<Act, Memory>
    requires { lends_node method.now lent node.now ≡ true }
    ensures { IfOk result (λ one. one ≡ act_of method.now lent node.now) }
{
    let rel = node.rel.copy()?;
    match &node.what {
        What::File { digest, exec } => {
            let from = supply_of(&node.rel, digest, method, lent)?;
            Ok(Act::File {
                rel,
                digest: *digest,
                exec: *exec,
                from,
            })
        }
        What::Dir => Ok(Act::Dir(rel)),
        What::Link(target) => Ok(Act::Link(rel, target.copy()?)),
    }
}

// Where the bytes of a file come from.
fn supply_of(rel: &Rel, digest: &Digest, method: &Method, lent: bool) -> Result<Supply, Memory>
    requires { lends_at method.now lent rel.now ≡ true }
    ensures { IfOk result (λ from. from ≡ supply_of method.now lent rel.now digest.now) }
{
    if is_empty(digest) {
        return Ok(Supply::Empty);
    }
    method_supply(rel, method, lent)
}

// Whether a digest is that of no bytes.
fn is_empty(digest: &Digest) -> bool
    ensures { result ≡ is_empty digest.now }
{
    *digest == Digest::of(b"")
}

// Where the bytes at a rel come from, for a file that has some.
fn method_supply(rel: &Rel, method: &Method, lent: bool) -> Result<Supply, Memory>
    requires { lends_at method.now lent rel.now ≡ true }
    ensures { IfOk result (λ from. from ≡ method_supply method.now lent rel.now) }
{
    match method {
        Method::Write(_) => Ok(Supply::Held),
        Method::Fetch => Ok(Supply::Store),
        Method::Copy { rest, origin, .. } => {
            if lent {
                return loan(rest, rel);
            }
            Ok(origin_supply(origin))
        }
    }
}

// A rel of the part that is lent.
fn loan(rest: &Rel, rel: &Rel) -> Result<Supply, Memory>
    requires { is_rel (rest.now ++ rel.now) ≡ true }
    ensures { IfOk result (λ from. from ≡ Supply.Loan (rest.now ++ rel.now)) }
{
    match rest.join(rel) {
        Ok(whole) => Ok(Supply::Loan(whole)),
        Err(JoinRefusal::Long) => unreachable!(),
        Err(JoinRefusal::NoMemory) => Err(Memory),
    }
}

// Where a copied row's bytes come from, if nothing is lent.
fn origin_supply(origin: &Origin) -> Supply
    ensures { result ≡ origin_supply origin.now }
{
    match origin {
        Origin::Inline(_) => Supply::Held,
        Origin::Store => Supply::Store,
    }
}
