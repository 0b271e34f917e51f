ghost use Rattle.std.specs.Prelude.{◌≡◌, ◌+◌, ◌≤◌, ◌++◌, ℕ, List, None, false, true, is_ok, is_some, length, if◌then◌else◌};
ghost use Rattle.std.specs.List.{filter};
ghost use Rattle.std.specs.Vec.{vec_capacity};
ghost use Rattle.mat_path.specs.Names.{same_names};
ghost use Rattle.path_trie.specs.Entries.{is_above, put, value_at};
ghost use Rattle.ticket_book.specs.ByPath.{all_numbers, is_inside, numbers_less, numbers_with};

use crate::numbers::Numbers;
use mat_path::{Memory, Path};
use path_trie::Trie;
use std::alloc::Global;

// Takes the numbers at a path out, if an entry is there, which stays.
fn lift(entries: &mut Trie<Numbers>, alloc: Global, path: &Path) -> Option<Numbers>
    ensures value { result ≡ value_at path.now entries.old }
    ensures there { is_some (value_at path.now entries.new) ≡ is_some (value_at path.now entries.old) }
    ensures others { (at : List (List ℕ)) → same_names at path.now ≡ false → value_at at entries.new ≡ value_at at entries.old }
{
    match entries.replace(path, Numbers::new(alloc)) {
        Ok(numbers) => Some(numbers),
        Err(_) => None,
    }
}

// Other numbers in the place of those that stand at a path.
fn put_back(entries: &mut Trie<Numbers>, path: &Path, numbers: Numbers)
    requires { is_some (value_at path.now entries.old) ≡ true }
    ensures { entries.new ≡ put path.now numbers entries.old }
{
    let _old = entries.replace(path, numbers);
}

// Puts the first number at a path. For want of memory nothing changes.
fn add_first(
    entries: &mut Trie<Numbers>,
    alloc: Global,
    path: &Path,
    number: u64,
) -> Result<(), Memory>
    ensures { (at : List (List ℕ)) → value_at at entries.new ≡ (if is_ok result then (if same_names at path.now then numbers_with number None else value_at at entries.old) else value_at at entries.old) }
{
    let mut numbers = Numbers::new(alloc);
    numbers.add(number)?;
    match entries.insert(path, numbers) {
        Ok(_) => Ok(()),
        Err(_) => Err(Memory),
    }
}

// Puts a number at a path. For want of memory no numbers change.
pub(crate) fn add(
    entries: &mut Trie<Numbers>,
    alloc: Global,
    path: &Path,
    number: u64,
) -> Result<(), Memory>
    ensures { (at : List (List ℕ)) → value_at at entries.new ≡ (if is_ok result then (if same_names at path.now then numbers_with number (value_at at entries.old) else value_at at entries.old) else value_at at entries.old) }
{
    let Some(mut numbers) = lift(entries, alloc, path) else {
        return add_first(entries, alloc, path, number);
    };
    let added = numbers.add(number);
    put_back(entries, path, numbers);
    added
}

// Takes a number away at a path. Takes no memory, as the calls below.
pub(crate) fn drop_number(entries: &mut Trie<Numbers>, alloc: Global, path: &Path, number: u64)
    ensures { (at : List (List ℕ)) → value_at at entries.new ≡ (if same_names at path.now then numbers_less number (value_at at entries.old) else value_at at entries.old) }
{
    let Some(mut numbers) = lift(entries, alloc, path) else {
        return;
    };
    numbers.drop(number);
    if numbers.is_empty() {
        entries.remove(path);
        return;
    }
    put_back(entries, path, numbers);
}

// Puts the numbers at the prefixes of a path, and at it, behind others, for which there is room.
pub(crate) fn list_above(entries: &Trie<Numbers>, path: &Path, numbers: &mut Vec<u64>)
    requires { length numbers.old.items + length (all_numbers (filter (is_above path.now) entries.now)) ≤ vec_capacity numbers.old }
    ensures list { numbers.new.items ≡ numbers.old.items ++ all_numbers (filter (is_above path.now) entries.now) }
    ensures capacity { vec_capacity numbers.new ≡ vec_capacity numbers.old }
{
    entries.is_in_order();
    let mut shortest = 0;
    'entries: while let Some((at, found)) = entries.above_from(path, shortest) {
        found.push_to(numbers);
        shortest = at.names().len() + 1;
    }
}

// The same of the numbers below a path.
pub(crate) fn list_inside(entries: &Trie<Numbers>, path: &Path, numbers: &mut Vec<u64>)
    requires { length numbers.old.items + length (all_numbers (filter (is_inside path.now) entries.now)) ≤ vec_capacity numbers.old }
    ensures list { numbers.new.items ≡ numbers.old.items ++ all_numbers (filter (is_inside path.now) entries.now) }
    ensures capacity { vec_capacity numbers.new ≡ vec_capacity numbers.old }
{
    entries.is_in_order();
    let mut last = path;
    'entries: while let Some((at, found)) = entries.next_under(path, last) {
        found.push_to(numbers);
        last = at;
    }
}
