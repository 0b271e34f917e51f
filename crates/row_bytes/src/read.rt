// Reading a row.
ghost use Rattle.std.specs.Prelude.{◌≡◌, IfOk, MatchResult};
ghost use Rattle.row_bytes.specs.Reading as Spec;
ghost use Rattle.row_bytes.specs.Rows.{IsRow};
ghost use Rattle.row_bytes.specs.declared.row.KeptTree.{KeptTree as TheRow};
ghost use Rattle.row_bytes.specs.declared.refusal.RowRefusal.TheVariants as refusal;

use crate::fields::{cut, place, read_end, read_u64};
use crate::nodes::read_tree;
use crate::refusal::RowRefusal;
use crate::row::KeptTree;
use mat_tree::Tree;
use std::alloc::Global;

/// Reads a row of either version.
///
/// It refuses with the offset at which the first field begins that is cut short or wrong. The magic and the version are one field, a text is one
/// behind its length, bytes behind the last field are a field, and a wrong sum of sizes is refused only where all else is right. `NoMemory` may come
/// in place of each answer.
pub fn read_row(alloc: Global, body: &[u8]) -> Result<KeptTree, RowRefusal>
    ensures ok { IfOk result (λ row. IsRow body.now row) }
    ensures whole { (row : TheRow) → IsRow body.now row → MatchResult result (λ read. read ≡ row) (λ why. why ≡ refusal.NoMemory) }
    ensures exact { Spec.Gives (λ row. row) result (Spec.row_read body.now) }
{
    read_version(alloc, body)
}

// A row of either version.
#[tactic(auto, unfolding(crate::specs::Reading::row_read))]
fn read_version(alloc: Global, body: &[u8]) -> Result<KeptTree, RowRefusal>
    ensures { Spec.Gives (λ row. row) result (Spec.row_read body.now) }
{
    let end = body.len();
    let (front, rest) = cut(3, body, end)?;
    if front == b"KR\x01".as_slice() {
        read_one(alloc, rest, end)
    } else if front == b"KR\x02".as_slice() {
        read_two(alloc, rest, end)
    } else {
        Err(RowRefusal::Bad(0))
    }
}

// A tree that ends the row.
#[tactic(auto, unfolding(crate::specs::Reading::last_tree))]
fn read_last(alloc: Global, bytes: &[u8], end: usize) -> Result<Tree, RowRefusal>
    ensures { Spec.Gives (λ tree. tree) result (Spec.last_tree end bytes.now) }
{
    let (tree, rest) = read_tree(alloc, bytes, end)?;
    read_end(rest, end)?;
    Ok(tree)
}

// Version 1, behind its magic.
#[tactic(auto, unfolding(crate::specs::Reading::row_one))]
fn read_one(alloc: Global, bytes: &[u8], end: usize) -> Result<KeptTree, RowRefusal>
    ensures { Spec.Gives (λ row. row) result (Spec.row_one end bytes.now) }
{
    let tree = read_last(alloc, bytes, end)?;
    Ok(KeptTree {
        tree,
        identity: None,
    })
}

// A row whose sum of sizes stands at an offset.
fn summed(at: usize, sum: u64, identity: u64, tree: Tree) -> Result<KeptTree, RowRefusal>
    ensures { Spec.Gives (λ row. row) result (Spec.summed at sum identity tree) }
{
    if sum == tree.bytes() {
        Ok(KeptTree {
            tree,
            identity: Some(identity),
        })
    } else {
        Err(RowRefusal::Bad(at))
    }
}

// Version 2, behind its magic.
#[tactic(auto, unfolding(crate::specs::Reading::row_two))]
fn read_two(alloc: Global, bytes: &[u8], end: usize) -> Result<KeptTree, RowRefusal>
    ensures { Spec.Gives (λ row. row) result (Spec.row_two end bytes.now) }
{
    let (identity, rest) = read_u64(bytes, end)?;
    let at = place(rest, end);
    let (sum, rest) = read_u64(rest, end)?;
    let tree = read_last(alloc, rest, end)?;
    summed(at, sum, identity, tree)
}
