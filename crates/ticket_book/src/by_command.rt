ghost use Rattle.std.specs.Prelude.{◌≡◌, ◌==◌, ◌+◌, ◌≤◌, ◌++◌, ℕ, None, is_ok, length, if◌then◌else◌};
ghost use Rattle.std.specs.BTreeMap.{get};
ghost use Rattle.std.specs.List.{filter};
ghost use Rattle.std.specs.Option.{option_map};
ghost use Rattle.std.specs.Ordering.{nat_cmp};
ghost use Rattle.std.specs.Vec.{vec_capacity};
ghost use Rattle.ticket_book.specs.ByPath.{is_bare, is_other, list_or_empty, numbers_less, numbers_with};

use crate::numbers::Numbers;
use mat_path::Memory;
use std::alloc::Global;
use std::collections::BTreeMap;

// Puts the first number at a command. For want of memory nothing changes.
fn add_first(
    commands: &mut BTreeMap<u32, Numbers>,
    alloc: Global,
    command: u32,
    number: u64,
) -> Result<(), Memory>
    ensures { (at : ℕ) → get nat_cmp commands.new at ≡ (if is_ok result then (if command == at then numbers_with number None else get nat_cmp commands.old at) else get nat_cmp commands.old at) }
{
    let mut numbers = Numbers::new(alloc);
    numbers.add(number)?;
    commands.insert(command, numbers)?;
    Ok(())
}

// Puts a number at a command. For want of memory no numbers change.
pub(crate) fn add(
    commands: &mut BTreeMap<u32, Numbers>,
    alloc: Global,
    command: u32,
    number: u64,
) -> Result<(), Memory>
    ensures { (at : ℕ) → get nat_cmp commands.new at ≡ (if is_ok result then (if command == at then numbers_with number (get nat_cmp commands.old at) else get nat_cmp commands.old at) else get nat_cmp commands.old at) }
{
    let Some(numbers) = commands.get_mut(&command) else {
        return add_first(commands, alloc, command, number);
    };
    numbers.add(number)
}

// Takes a number away at a command, and says whether none is left there. Takes no memory, as the calls below.
fn drop_from(commands: &mut BTreeMap<u32, Numbers>, command: u32, number: u64) -> bool
    ensures numbers { (at : ℕ) → get nat_cmp commands.new at ≡ (if command == at then option_map (filter (is_other number)) (get nat_cmp commands.old at) else get nat_cmp commands.old at) }
    ensures bare { result ≡ is_bare (get nat_cmp commands.new command) }
{
    match commands.get_mut(&command) {
        Some(numbers) => {
            numbers.drop(number);
            numbers.is_empty()
        }
        None => false,
    }
}

// Takes a number away at a command.
pub(crate) fn drop_number(commands: &mut BTreeMap<u32, Numbers>, command: u32, number: u64)
    ensures { (at : ℕ) → get nat_cmp commands.new at ≡ (if command == at then numbers_less number (get nat_cmp commands.old at) else get nat_cmp commands.old at) }
{
    if drop_from(commands, command, number) {
        commands.remove(&command);
    }
}

// How many numbers stand at a command.
pub(crate) fn count_of(commands: &BTreeMap<u32, Numbers>, command: u32) -> usize
    ensures { result ≡ length (list_or_empty (get nat_cmp commands.now command)) }
{
    match commands.get(&command) {
        Some(numbers) => numbers.len(),
        None => 0,
    }
}

// Puts the numbers at a command behind others, for which there is room.
pub(crate) fn list_of(commands: &BTreeMap<u32, Numbers>, command: u32, numbers: &mut Vec<u64>)
    requires { length numbers.old.items + length (list_or_empty (get nat_cmp commands.now command)) ≤ vec_capacity numbers.old }
    ensures list { numbers.new.items ≡ numbers.old.items ++ list_or_empty (get nat_cmp commands.now command) }
    ensures capacity { vec_capacity numbers.new ≡ vec_capacity numbers.old }
{
    if let Some(found) = commands.get(&command) {
        found.push_to(numbers);
    }
}
