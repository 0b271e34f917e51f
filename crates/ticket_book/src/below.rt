ghost use Rattle.std.specs.Prelude.{◌≡◌, ◌+◌, ◌≤◌, ◌++◌, ℕ, List, None, is_ok, length, nat_le, if◌then◌else◌, IfOk};
ghost use Rattle.std.specs.List.{filter, find};
ghost use Rattle.std.specs.Option.{option_map};
ghost use Rattle.std.specs.Vec.{vec_capacity};
ghost use Rattle.mat_path.specs.Names.{is_prefix, same_names};
ghost use Rattle.ticket_book.specs.Below.{is_start, numbers_at};
ghost use Rattle.ticket_book.specs.ByPath.{is_bare, is_other, list_or_empty, numbers_less, numbers_with};

use crate::numbers::Numbers;
use mat_path::{Memory, Name};
use std::alloc::Global;
use std::collections::BTreeMap;

// The same names once more.
fn copied(alloc: Global, names: &[Name]) -> Result<Vec<Name>, Memory>
    ensures { IfOk result (λ copies. copies.items ≡ names.now) }
{
    let mut copies = Vec::new(alloc);
    for name in names {
        copies.push(name.copy()?)?;
    }
    Ok(copies)
}

// Puts the first number at a list of names. For want of memory nothing changes.
fn add_first(
    below: &mut BTreeMap<Vec<Name>, Numbers>,
    alloc: Global,
    names: &[Name],
    number: u64,
) -> Result<(), Memory>
    ensures { (at : List (List ℕ)) → numbers_at at below.new ≡ (if is_ok result then (if same_names names.now at then numbers_with number None else numbers_at at below.old) else numbers_at at below.old) }
{
    let key = copied(alloc, names)?;
    let mut numbers = Numbers::new(alloc);
    numbers.add(number)?;
    below.insert(key, numbers)?;
    Ok(())
}

// Puts a number at a list of names. For want of memory no numbers change.
fn add(
    below: &mut BTreeMap<Vec<Name>, Numbers>,
    alloc: Global,
    names: &[Name],
    number: u64,
) -> Result<(), Memory>
    ensures { (at : List (List ℕ)) → numbers_at at below.new ≡ (if is_ok result then (if same_names names.now at then numbers_with number (numbers_at at below.old) else numbers_at at below.old) else numbers_at at below.old) }
{
    let Some(numbers) = below.get_mut(names) else {
        return add_first(below, alloc, names, number);
    };
    numbers.add(number)
}

// Puts a number at the prefixes of a list of names, from the empty one on, and says at how many: all of them, or those before memory
// ran out.
pub(crate) fn add_some(
    below: &mut BTreeMap<Vec<Name>, Numbers>,
    alloc: Global,
    names: &[Name],
    number: u64,
) -> usize
    ensures count { result ≤ length names.now + 1 }
    ensures numbers { (at : List (List ℕ)) → numbers_at at below.new ≡ (if is_start result names.now at then numbers_with number (numbers_at at below.old) else numbers_at at below.old) }
{
    for count in 0..names.len() + 1 {
        if add(below, alloc, &names[..count], number).is_err() {
            return count;
        }
    }
    names.len() + 1
}

// Takes a number away at a list of names, and says whether none is left there. Takes no memory, as the calls below.
fn drop_from(below: &mut BTreeMap<Vec<Name>, Numbers>, names: &[Name], number: u64) -> bool
    ensures numbers { (at : List (List ℕ)) → numbers_at at below.new ≡ (if same_names names.now at then option_map (filter (is_other number)) (numbers_at at below.old) else numbers_at at below.old) }
    ensures bare { result ≡ is_bare (numbers_at names.now below.new) }
{
    match below.get_mut(names) {
        Some(numbers) => {
            numbers.drop(number);
            numbers.is_empty()
        }
        None => false,
    }
}

// Takes a number away at a list of names.
fn drop_number(below: &mut BTreeMap<Vec<Name>, Numbers>, names: &[Name], number: u64)
    ensures { (at : List (List ℕ)) → numbers_at at below.new ≡ (if same_names names.now at then numbers_less number (numbers_at at below.old) else numbers_at at below.old) }
{
    if drop_from(below, names, number) {
        below.remove(names);
    }
}

// Takes a number away at the first prefixes of a list of names, so many of them.
pub(crate) fn drop_some(
    below: &mut BTreeMap<Vec<Name>, Numbers>,
    names: &[Name],
    number: u64,
    count: usize,
)
    requires { count ≤ length names.now + 1 }
    ensures { (at : List (List ℕ)) → numbers_at at below.new ≡ (if is_start count names.now at then numbers_less number (numbers_at at below.old) else numbers_at at below.old) }
{
    for k in 0..count {
        drop_number(below, &names[..k], number);
    }
}

// Takes a number away at all prefixes of a list of names.
pub(crate) fn drop_all(below: &mut BTreeMap<Vec<Name>, Numbers>, names: &[Name], number: u64)
    ensures { (at : List (List ℕ)) → numbers_at at below.new ≡ (if is_prefix at names.now then numbers_less number (numbers_at at below.old) else numbers_at at below.old) }
{
    drop_some(below, names, number, names.len() + 1);
}

// The first number that isn't below one, of those at a list of names.
pub(crate) fn next_at(
    below: &BTreeMap<Vec<Name>, Numbers>,
    names: &[Name],
    from: u64,
) -> Option<u64>
    ensures { result ≡ find (nat_le from) (list_or_empty (numbers_at names.now below.now)) }
{
    match below.get(names) {
        Some(numbers) => numbers.next(from),
        None => None,
    }
}

// Puts the numbers at a list of names behind others, for which there is room.
pub(crate) fn list_at(below: &BTreeMap<Vec<Name>, Numbers>, names: &[Name], numbers: &mut Vec<u64>)
    requires { length numbers.old.items + length (list_or_empty (numbers_at names.now below.now)) ≤ vec_capacity numbers.old }
    ensures list { numbers.new.items ≡ numbers.old.items ++ list_or_empty (numbers_at names.now below.now) }
    ensures capacity { vec_capacity numbers.new ≡ vec_capacity numbers.old }
{
    if let Some(found) = below.get(names) {
        found.push_to(numbers);
    }
}
