ghost use Rattle.std.specs.Prelude.{◌≡◌, ◌==◌, ◌&&◌, ◌+◌, ◌≤◌, ◌++◌, ℕ, List, [], ◌∷◌, true, is_ok, length, nat_le, if◌then◌else◌};
ghost use Rattle.std.specs.BTreeMap.{get};
ghost use Rattle.std.specs.List.{find, list_all};
ghost use Rattle.std.specs.Ordering.{nat_cmp};
ghost use Rattle.std.specs.Vec.{vec_capacity};
ghost use Rattle.mat_path.specs.Names.{is_prefix, same_names};
ghost use Rattle.mat_model.specs.declared.book.Ticket.{Ticket as TheTicket};
ghost use Rattle.mat_model.specs.Tickets.{is_open};
ghost use Rattle.path_trie.specs.Entries.{ascends, value_at};
ghost use Rattle.ticket_book.specs.Asked.{answered_if, has_number, is_due, is_earlier};
ghost use Rattle.ticket_book.specs.Below.{IsGathered, numbers_at};
ghost use Rattle.ticket_book.specs.ByPath.{IsFiled, IsIndexed, list_or_empty, numbers_less};
ghost use Rattle.ticket_book.specs.Index.{IsIndex, overlap_numbers};

use crate::numbers::Numbers;
use crate::{below, by_command, by_path};
use mat_model::{Answer, Given, Ticket};
use mat_path::{Memory, Name, Path};
use path_trie::Trie;
use std::alloc::Global;
use std::collections::BTreeMap;

// The numbers of the open tickets by the path that they ask for, by each prefix of it, and by command.
#[derive(Debug, Drop)]
pub(crate) struct Index {
    paths: Trie<Numbers>,
    below: BTreeMap<Vec<Name>, Numbers>,
    commands: BTreeMap<u32, Numbers>,
    alloc: Global,
}

impl Index {
    // That of no tickets. Takes no memory.
    pub(crate) fn new(alloc: Global) -> Index
        ensures { IsIndex [] result.paths result.below result.commands }
    {
        Index {
            paths: Trie::new(alloc),
            below: BTreeMap::new(alloc),
            commands: BTreeMap::new(alloc),
            alloc,
        }
    }

    // Puts the number of an open ticket there, behind the others. For want of memory no numbers change.
    pub(crate) fn add(&mut self, ticket: &Ticket) -> Result<(), Memory>
        ensures { (tickets : List TheTicket) → IsIndex tickets self.old.paths self.old.below self.old.commands → list_all (is_earlier ticket.now.number) tickets ≡ true → is_open ticket.now ≡ true → IsIndex (if is_ok result then tickets ++ ticket.now ∷ [] else tickets) self.new.paths self.new.below self.new.commands }
    {
        add_below(&mut self.below, self.alloc, ticket)?;
        if let Err(memory) = add_whole(&mut self.paths, &mut self.commands, self.alloc, ticket) {
            below::drop_all(&mut self.below, ticket.asked.names(), ticket.number);
            return Err(memory);
        }
        Ok(())
    }

    // Takes the number of a ticket away. Takes no memory, as the calls below.
    fn drop(&mut self, ticket: &Ticket)
        ensures paths { (path : List (List ℕ)) → value_at path self.new.paths ≡ (if same_names path ticket.now.asked then numbers_less ticket.now.number (value_at path self.old.paths) else value_at path self.old.paths) }
        ensures below { (path : List (List ℕ)) → numbers_at path self.new.below ≡ (if is_prefix path ticket.now.asked then numbers_less ticket.now.number (numbers_at path self.old.below) else numbers_at path self.old.below) }
        ensures commands { (command : ℕ) → get nat_cmp self.new.commands command ≡ (if ticket.now.command == command then numbers_less ticket.now.number (get nat_cmp self.old.commands command) else get nat_cmp self.old.commands command) }
    {
        by_path::drop_number(&mut self.paths, self.alloc, &ticket.asked, ticket.number);
        below::drop_all(&mut self.below, ticket.asked.names(), ticket.number);
        by_command::drop_number(&mut self.commands, ticket.command, ticket.number);
    }

    // Gives an answer to a ticket, if it is open and has a number, and takes that away.
    pub(crate) fn answer(&mut self, ticket: &mut Ticket, number: u64, at: u64, answer: Answer)
        ensures ticket { ticket.new ≡ answered_if (has_number number) at answer ticket.old }
        ensures paths { (path : List (List ℕ)) → value_at path self.new.paths ≡ (if is_due (has_number number) ticket.old && same_names path ticket.old.asked then numbers_less number (value_at path self.old.paths) else value_at path self.old.paths) }
        ensures below { (path : List (List ℕ)) → numbers_at path self.new.below ≡ (if is_due (has_number number) ticket.old && is_prefix path ticket.old.asked then numbers_less number (numbers_at path self.old.below) else numbers_at path self.old.below) }
        ensures commands { (command : ℕ) → get nat_cmp self.new.commands command ≡ (if is_due (has_number number) ticket.old && (ticket.old.command == command) then numbers_less number (get nat_cmp self.old.commands command) else get nat_cmp self.old.commands command) }
    {
        if is_due(ticket, number) {
            self.drop(ticket);
            ticket.answered = Some(Given { at, answer });
        }
    }

    // How many tickets of a command are open.
    pub(crate) fn count_of(&self, command: u32) -> usize
        ensures { result ≡ length (list_or_empty (get nat_cmp self.now.commands command)) }
    {
        by_command::count_of(&self.commands, command)
    }

    // Puts the numbers of a command behind others, for which there is room.
    pub(crate) fn list_of(&self, command: u32, numbers: &mut Vec<u64>)
        requires { length numbers.old.items + length (list_or_empty (get nat_cmp self.now.commands command)) ≤ vec_capacity numbers.old }
        ensures list { numbers.new.items ≡ numbers.old.items ++ list_or_empty (get nat_cmp self.now.commands command) }
        ensures capacity { vec_capacity numbers.new ≡ vec_capacity numbers.old }
    {
        by_command::list_of(&self.commands, command, numbers);
    }

    // The same of the numbers at and below a path.
    pub(crate) fn list_row(&self, path: &Path, numbers: &mut Vec<u64>)
        requires { length numbers.old.items + length (list_or_empty (numbers_at path.now self.now.below)) ≤ vec_capacity numbers.old }
        ensures list { numbers.new.items ≡ numbers.old.items ++ list_or_empty (numbers_at path.now self.now.below) }
        ensures capacity { vec_capacity numbers.new ≡ vec_capacity numbers.old }
    {
        below::list_at(&self.below, path.names(), numbers);
    }

    // The same of the numbers at the paths that overlap a path.
    pub(crate) fn list_overlap(&self, path: &Path, numbers: &mut Vec<u64>)
        requires { length numbers.old.items + length (overlap_numbers path.now self.now.paths) ≤ vec_capacity numbers.old }
        ensures list { numbers.new.items ≡ numbers.old.items ++ overlap_numbers path.now self.now.paths }
        ensures capacity { vec_capacity numbers.new ≡ vec_capacity numbers.old }
    {
        by_path::list_above(&self.paths, path, numbers);
        by_path::list_inside(&self.paths, path, numbers);
    }

    // The first number that isn't below one, of those at and below a path.
    pub(crate) fn next_under(&self, path: &Path, from: u64) -> Option<u64>
        ensures { result ≡ find (nat_le from) (list_or_empty (numbers_at path.now self.now.below)) }
    {
        below::next_at(&self.below, path.names(), from)
    }

    // The law of the paths' table. It does nothing.
    pub(crate) fn is_in_order(&self)
        ensures { ascends self.now.paths ≡ true }
    {
        self.paths.is_in_order();
    }
}

// Puts the number of an open ticket at each prefix of the path that it asks for. For want of memory no numbers change.
fn add_below(
    below: &mut BTreeMap<Vec<Name>, Numbers>,
    alloc: Global,
    ticket: &Ticket,
) -> Result<(), Memory>
    ensures { (tickets : List TheTicket) → IsGathered tickets below.old → list_all (is_earlier ticket.now.number) tickets ≡ true → is_open ticket.now ≡ true → IsGathered (if is_ok result then tickets ++ ticket.now ∷ [] else tickets) below.new }
{
    let names = ticket.asked.names();
    let count = below::add_some(below, alloc, names, ticket.number);
    if count <= names.len() {
        below::drop_some(below, names, ticket.number, count);
        return Err(Memory);
    }
    Ok(())
}

// Puts it at the path itself, and at the command. For want of memory no numbers change.
fn add_whole(
    paths: &mut Trie<Numbers>,
    commands: &mut BTreeMap<u32, Numbers>,
    alloc: Global,
    ticket: &Ticket,
) -> Result<(), Memory>
    ensures paths { (tickets : List TheTicket) → IsIndexed tickets paths.old → list_all (is_earlier ticket.now.number) tickets ≡ true → is_open ticket.now ≡ true → IsIndexed (if is_ok result then tickets ++ ticket.now ∷ [] else tickets) paths.new }
    ensures commands { (tickets : List TheTicket) → IsFiled tickets commands.old → list_all (is_earlier ticket.now.number) tickets ≡ true → is_open ticket.now ≡ true → IsFiled (if is_ok result then tickets ++ ticket.now ∷ [] else tickets) commands.new }
{
    by_path::add(paths, alloc, &ticket.asked, ticket.number)?;
    if let Err(memory) = by_command::add(commands, alloc, ticket.command, ticket.number) {
        by_path::drop_number(paths, alloc, &ticket.asked, ticket.number);
        return Err(memory);
    }
    Ok(())
}

// Whether a ticket has no answer yet.
pub(crate) fn is_open(ticket: &Ticket) -> bool
    ensures { result ≡ is_open ticket.now }
{
    ticket.answered.is_none()
}

// Whether a ticket is open and has a number.
fn is_due(ticket: &Ticket, number: u64) -> bool
    ensures { result ≡ is_due (has_number number) ticket.now }
{
    is_open(ticket) && ticket.number == number
}
