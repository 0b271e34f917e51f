ghost use Rattle.std.specs.Prelude.{◌≡◌, ◌≤◌, ◌++◌, true, Bool, drop, length, map, take, vec_capacity};
ghost use Rattle.std.specs.List.{list_all};
ghost use Rattle.std.specs.List.Sorted.{IsPermutation, IsSorted};
ghost use Rattle.std.specs.Option.{option_copied};
ghost use Rattle.std.specs.Ordering.{nat_cmp};
ghost use Rattle.mat_model.specs.declared.book.Ticket.{Ticket as TheTicket};
ghost use Rattle.mat_model.specs.Books.{are_ascending, number_of};
ghost use Rattle.mat_model.specs.Tickets.{is_open};
ghost use Rattle.ticket_book.specs.Asked.{answered_if, has_number, is_due, is_earlier, is_from, lowest, ticket_at};
ghost use Rattle.ticket_book.specs.ByPath.{AreAsOften, due_numbers, is_among};
ghost use Rattle.ticket_book.specs.Found.{first_if, is_past};
ghost use Rattle.ticket_book.specs.Done.{IsDone};
ghost use Rattle.ticket_book.specs.Index.{IsIndex};

use crate::index::{Index, is_open};
use mat_model::{Answer, Ticket};

// A list from a place on.
fn rest<X>(list: &[X], place: usize) -> &[X]
    requires { place ≤ length list.now }
    ensures { result.now ≡ drop place list.now }
{
    &list[place..]
}

// Gives an answer to the ticket of a number, if it is open. It is found by halves.
fn answer_number(tickets: &mut [Ticket], index: &mut Index, number: u64, at: u64, answer: Answer)
    requires ascending { are_ascending (map number_of tickets.old) ≡ true }
    requires indexed { IsIndex tickets.old index.old.paths index.old.below index.old.commands }
    ensures tickets { tickets.new ≡ map (answered_if (has_number number) at answer) tickets.old }
    ensures indexed { IsIndex tickets.new index.new.paths index.new.below index.new.commands }
{
    let place = place_from(tickets, number);
    if place < tickets.len() {
        index.answer(&mut tickets[place], number, at, answer);
    }
}

// Gives an answer to the open tickets of some numbers.
fn answer_numbered(
    tickets: &mut [Ticket],
    index: &mut Index,
    numbers: &[u64],
    at: u64,
    answer: Answer,
)
    requires ascending { are_ascending (map number_of tickets.old) ≡ true }
    requires indexed { IsIndex tickets.old index.old.paths index.old.below index.old.commands }
    ensures tickets { tickets.new ≡ map (answered_if (is_among numbers.now) at answer) tickets.old }
    ensures indexed { IsIndex tickets.new index.new.paths index.new.below index.new.commands }
{
    for number in numbers {
        answer_number(tickets, index, *number, at, answer);
    }
}

// The same in a list.
fn answer_numbers(
    tickets: &mut Vec<Ticket>,
    index: &mut Index,
    numbers: &[u64],
    at: u64,
    answer: Answer,
)
    requires ascending { are_ascending (map number_of tickets.old.items) ≡ true }
    requires indexed { IsIndex tickets.old.items index.old.paths index.old.below index.old.commands }
    ensures tickets { tickets.new.items ≡ map (answered_if (is_among numbers.now) at answer) tickets.old.items }
    ensures indexed { IsIndex tickets.new.items index.new.paths index.new.below index.new.commands }
{
    answer_numbered(tickets.as_mut_slice(), index, numbers, at, answer);
}

// Puts the numbers from a place on in order.
fn sort_tail(numbers: &mut [u64], known: usize)
    requires { known ≤ length numbers.old }
    ensures front { take known numbers.new ≡ take known numbers.old }
    ensures same { IsPermutation (drop known numbers.old) (drop known numbers.new) }
    ensures sorted { IsSorted nat_cmp (drop known numbers.new) }
{
    numbers[known..].sort_unstable();
}

// The same in a list.
fn sort_from(numbers: &mut Vec<u64>, known: usize)
    requires { known ≤ length numbers.old.items }
    ensures front { take known numbers.new.items ≡ take known numbers.old.items }
    ensures same { IsPermutation (drop known numbers.old.items) (drop known numbers.new.items) }
    ensures sorted { IsSorted nat_cmp (drop known numbers.new.items) }
    ensures capacity { vec_capacity numbers.new ≡ vec_capacity numbers.old }
{
    sort_tail(numbers.as_mut_slice(), known);
}

// Puts the numbers from a place on in order, and gives an answer to the open tickets of them; then it moves the place of the first open
// ticket on. Where the numbers are those of the open tickets that pass a test, these are answered.
pub(crate) fn answer_from(
    tickets: &mut Vec<Ticket>,
    index: &mut Index,
    numbers: &mut Vec<u64>,
    done: &mut usize,
    known: usize,
    at: u64,
    answer: Answer,
)
    requires place { known ≤ length numbers.old.items }
    requires ascending { are_ascending (map number_of tickets.old.items) ≡ true }
    requires indexed { IsIndex tickets.old.items index.old.paths index.old.below index.old.commands }
    requires done { IsDone done.old tickets.old.items }
    ensures answered { (test : TheTicket → Bool) → AreAsOften (drop known numbers.old.items) (due_numbers test tickets.old.items) → (tickets.new.items ≡ map (answered_if test at answer) tickets.old.items) × (numbers.new.items ≡ take known numbers.old.items ++ due_numbers test tickets.old.items) }
    ensures indexed { IsIndex tickets.new.items index.new.paths index.new.below index.new.commands }
    ensures done { IsDone done.new tickets.new.items }
    ensures capacity { vec_capacity numbers.new ≡ vec_capacity numbers.old }
{
    sort_from(numbers, known);
    answer_numbers(tickets, index, rest(numbers.as_slice(), known), at, answer);
    *done = first_open(tickets.as_slice(), *done);
}

// Whether a ticket is open and its number isn't below one.
fn is_open_from(ticket: &Ticket, from: u64) -> bool
    ensures { result ≡ is_due (is_from from) ticket.now }
{
    is_open(ticket) && from <= ticket.number
}

// The lowest number of an open ticket that isn't below one.
pub(crate) fn lowest_from(tickets: &[Ticket], done: usize, from: u64) -> Option<u64>
    requires done { IsDone done tickets.now }
    requires ascending { are_ascending (map number_of tickets.now) ≡ true }
    ensures { result ≡ lowest (is_from from) tickets.now }
{
    let place = place_from(tickets, from);
    if place < done {
        return lowest_from_in(rest(tickets, done), from);
    }
    lowest_from_in(rest(tickets, place), from)
}

// The same of tickets that are all looked at.
fn lowest_from_in(tickets: &[Ticket], from: u64) -> Option<u64>
    ensures { result ≡ lowest (is_from from) tickets.now }
{
    match tickets.iter().find(|ticket| is_open_from(ticket, from)) {
        Some(ticket) => Some(ticket.number),
        None => None,
    }
}

// The place of the first ticket whose number isn't below one, found by halves.
fn place_from(tickets: &[Ticket], number: u64) -> usize
    requires { are_ascending (map number_of tickets.now) ≡ true }
    ensures within { result ≤ length tickets.now }
    ensures front { list_all (is_earlier number) (take result tickets.now) ≡ true }
    ensures back { list_all (is_past number) (drop result tickets.now) ≡ true }
{
    tickets.partition_point(|ticket| ticket.number < number)
}

// The first ticket, if it has a number.
fn first_if(tickets: &[Ticket], number: u64) -> Option<&Ticket>
    ensures { option_copied result ≡ first_if number tickets.now }
{
    match tickets {
        [] => None,
        [ticket, ..] => {
            if ticket.number == number {
                return Some(ticket);
            }
            None
        }
    }
}

// The ticket of a number, found by halves.
pub(crate) fn ticket_at(tickets: &[Ticket], number: u64) -> Option<&Ticket>
    requires { are_ascending (map number_of tickets.now) ≡ true }
    ensures { option_copied result ≡ ticket_at tickets.now number }
{
    first_if(rest(tickets, place_from(tickets, number)), number)
}

// The place of the first open ticket, or that behind the last ticket, from a place before which none is open.
fn first_open(tickets: &[Ticket], done: usize) -> usize
    requires { IsDone done tickets.now }
    ensures { IsDone result tickets.now }
{
    let mut place = done;
    while place < tickets.len() && !is_open(&tickets[place]) {
        place += 1;
    }
    place
}
