//! Laws of sums: the sum of a directory is that of a message, which is read again.
ghost use Rattle.std.specs.Prelude.{◌≡◌, ◌⊎◌, List, [], Some, None, IfOk, MatchResult};
ghost use Rattle.std.specs.List.{All};
ghost use Rattle.mat_digest.specs.Digests.{digest_of};
ghost use Rattle.mat_tree.specs.declared.flat.Flat.{Flat};
ghost use Rattle.mat_tree.specs.declared.flat.What.TheVariants as what;
ghost use Rattle.mat_tree.specs.Sums.{dir_digest, message_by, sum_of};
ghost use Rattle.mat_tree.specs.Trees.{IsNode, IsTree, what_at};
ghost use Rattle.reapi_dir.specs.declared.message.DirMessage.{DirMessage};
ghost use Rattle.reapi_dir.specs.Grammar.{Spells};
ghost use Rattle.reapi_dir.specs.Reading.{dir_refusal};
ghost use Rattle.reapi_dir.specs.SumMessage.{children_message_of};

use crate::message::DirMessage;
use crate::read::read_dir;
use crate::refusal::DirRefusal;
use std::alloc::Global;

/// The digest of the sum of a tree whose root is a directory is that of bytes which spell a message, and this message has exactly the
/// tree's children. The function does nothing.
pub fn sum_is_of_message()
    ensures digest { (nodes : List Flat) → IsTree nodes → what_at nodes [] ≡ Some what.Dir
        → (sum_of nodes).digest ≡ digest_of (message_by dir_digest nodes) }
    ensures spelled { (nodes : List Flat) → IsTree nodes → All IsNode nodes → what_at nodes [] ≡ Some what.Dir
        → Spells (message_by dir_digest nodes) (children_message_of nodes) }
{}

/// Reads a directory from these bytes, with the answers of `read_dir`: the message that they spell, the first fault from the left, or
/// `NoMemory`. Those of a tree's message are read as its children, or memory is wanting.
pub fn read_children(alloc: Global, bytes: &[u8]) -> Result<DirMessage, DirRefusal>
    ensures ok { IfOk result (λ message. Spells bytes.now message) }
    ensures whole { (message : DirMessage) → Spells bytes.now message
        → MatchResult result (λ read. read ≡ message) (λ refusal. refusal ≡ DirRefusal.NoMemory) }
    ensures exact { MatchResult result (λ message. dir_refusal bytes.now ≡ None)
        (λ refusal. (refusal ≡ DirRefusal.NoMemory) ⊎ (dir_refusal bytes.now ≡ Some refusal)) }
    ensures children { (nodes : List Flat) → IsTree nodes → All IsNode nodes → what_at nodes [] ≡ Some what.Dir → bytes.now ≡ message_by dir_digest nodes
        → MatchResult result (λ read. read ≡ children_message_of nodes) (λ refusal. refusal ≡ DirRefusal.NoMemory) }
{
    read_dir(alloc, bytes)
}
