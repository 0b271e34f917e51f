// The fields of a row, each read from the front of the bytes that are left before the offset `end`. Each reader gives what is behind its field too.
ghost use Rattle.std.specs.Prelude.{◌≡◌};
ghost use Rattle.std.specs.Int.{w16, w32, w64};
ghost use Rattle.mat_tree.specs.Trees.{greatest_file};
ghost use Rattle.row_bytes.specs.Reading as Spec;

use crate::mark::{Mark, mark_of};
use crate::refusal::RowRefusal;
use mat_digest::Digest;
use mat_tree::GREATEST_FILE;

// The most nodes below the root.
const MOST_OTHERS: u32 = 9_999;

// Where the bytes begin that are left before `end`.
pub(crate) fn place(bytes: &[u8], end: usize) -> usize
    ensures { result ≡ Spec.place end bytes.now }
{
    end.saturating_sub(bytes.len())
}

// A number of 8 bytes.
pub(crate) fn read_u64(bytes: &[u8], end: usize) -> Result<(u64, &[u8]), RowRefusal>
    ensures { Spec.Gives (λ x. (x.0, x.1.now)) result (Spec.number_at w64 end bytes.now) }
{
    match bytes.split_first_chunk::<8>() {
        Some((front, rest)) => Ok((u64::from_be_bytes(*front), rest)),
        None => Err(RowRefusal::Bad(place(bytes, end))),
    }
}

// A number of 4 bytes.
fn read_u32(bytes: &[u8], end: usize) -> Result<(u32, &[u8]), RowRefusal>
    ensures { Spec.Gives (λ x. (x.0, x.1.now)) result (Spec.number_at w32 end bytes.now) }
{
    match bytes.split_first_chunk::<4>() {
        Some((front, rest)) => Ok((u32::from_be_bytes(*front), rest)),
        None => Err(RowRefusal::Bad(place(bytes, end))),
    }
}

// A number of 2 bytes.
fn read_u16(bytes: &[u8], end: usize) -> Result<(u16, &[u8]), RowRefusal>
    ensures { Spec.Gives (λ x. (x.0, x.1.now)) result (Spec.number_at w16 end bytes.now) }
{
    match bytes.split_first_chunk::<2>() {
        Some((front, rest)) => Ok((u16::from_be_bytes(*front), rest)),
        None => Err(RowRefusal::Bad(place(bytes, end))),
    }
}

// The size of a file.
#[tactic(auto, unfolding(crate::specs::Reading::number_within))]
fn read_size(bytes: &[u8], end: usize) -> Result<(u64, &[u8]), RowRefusal>
    ensures { Spec.Gives (λ x. (x.0, x.1.now)) result (Spec.number_within greatest_file w64 end bytes.now) }
{
    let (size, rest) = read_u64(bytes, end)?;
    if size <= GREATEST_FILE {
        Ok((size, rest))
    } else {
        Err(RowRefusal::Bad(place(bytes, end)))
    }
}

// How many nodes stand below the root.
#[tactic(auto, unfolding(crate::specs::Reading::number_within))]
pub(crate) fn read_count(bytes: &[u8], end: usize) -> Result<(u32, &[u8]), RowRefusal>
    ensures { Spec.Gives (λ x. (x.0, x.1.now)) result (Spec.number_within 9999 w32 end bytes.now) }
{
    let (count, rest) = read_u32(bytes, end)?;
    if count <= MOST_OTHERS {
        Ok((count, rest))
    } else {
        Err(RowRefusal::Bad(place(bytes, end)))
    }
}

// This many bytes.
pub(crate) fn cut(len: usize, bytes: &[u8], end: usize) -> Result<(&[u8], &[u8]), RowRefusal>
    ensures { Spec.Gives (λ x. (x.0.now, x.1.now)) result (Spec.cut_at len end bytes.now) }
{
    if bytes.len() < len {
        return Err(RowRefusal::Bad(place(bytes, end)));
    }
    Ok(bytes.split_at(len))
}

// A text behind its length.
#[tactic(auto, unfolding(crate::specs::Reading::text_at))]
pub(crate) fn read_text(bytes: &[u8], end: usize) -> Result<(&[u8], &[u8]), RowRefusal>
    ensures { Spec.Gives (λ x. (x.0.now, x.1.now)) result (Spec.text_at end bytes.now) }
{
    let (len, rest) = read_u16(bytes, end)?;
    cut(usize::from(len), rest, end)
}

// A hash.
fn read_hash(bytes: &[u8], end: usize) -> Result<([u8; 32], &[u8]), RowRefusal>
    ensures { Spec.Gives (λ x. (x.0, x.1.now)) result (Spec.cut_at 32 end bytes.now) }
{
    match bytes.split_first_chunk::<32>() {
        Some((front, rest)) => Ok((*front, rest)),
        None => Err(RowRefusal::Bad(place(bytes, end))),
    }
}

// A file.
#[tactic(auto, unfolding(crate::specs::Reading::digest_at))]
pub(crate) fn read_digest(bytes: &[u8], end: usize) -> Result<(Digest, &[u8]), RowRefusal>
    ensures { Spec.Gives (λ x. (x.0, x.1.now)) result (Spec.digest_at end bytes.now) }
{
    let (hash, rest) = read_hash(bytes, end)?;
    let (size, rest) = read_size(rest, end)?;
    Ok((Digest { hash, size }, rest))
}

// What a node is.
#[tactic(auto, unfolding(crate::specs::Reading::mark_at))]
pub(crate) fn read_mark(bytes: &[u8], end: usize) -> Result<(Mark, &[u8]), RowRefusal>
    ensures { Spec.Gives (λ x. (x.0, x.1.now)) result (Spec.mark_at end bytes.now) }
{
    let Some((byte, rest)) = bytes.split_first() else {
        return Err(RowRefusal::Bad(end));
    };
    match mark_of(*byte) {
        Some(mark) => Ok((mark, rest)),
        None => Err(RowRefusal::Bad(place(bytes, end))),
    }
}

// That nothing follows.
pub(crate) fn read_end(bytes: &[u8], end: usize) -> Result<(), RowRefusal>
    ensures { Spec.Gives (λ _. tt) result (Spec.end_at end bytes.now) }
{
    if bytes.is_empty() {
        Ok(())
    } else {
        Err(RowRefusal::Bad(place(bytes, end)))
    }
}
