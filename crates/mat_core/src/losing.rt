// Tickets that lose their row.
ghost use Rattle.std.specs.Prelude.{◌≡◌, map, true};
ghost use Rattle.std.specs.List.{list_all, list_any};
ghost use Rattle.mat_model.specs.Rows.{covers};
ghost use Rattle.ticket_book.specs.Asked.{has_number, is_due, is_earlier};
ghost use Rattle.model_laws.specs.TicketRules.{lost_below};
ghost use Rattle.mat_core.specs.Losing.{is_lost_to, lost_at};

use mat_model::{Answer, Row};
use mat_path::Path;
use ticket_book::TicketBook;

// Whether a row covers a path.
fn covers(row: &Row, path: &Path) -> bool
    ensures { result ≡ covers path.now row.now }
{
    match row.path.below(path) {
        Some(rest) => row.tree.has(rest).is_some(),
        None => false,
    }
}

// Whether a path is at or below one, and a row doesn't cover it.
fn is_lost(top: &Path, row: &Row, asked: &Path) -> bool
    ensures { result ≡ is_lost_to top.now row.now asked.now }
{
    top.is_prefix(asked) && !covers(row, asked)
}

// Answers the open ticket of a number that nothing is declared, if it asks for a path at or below one that a row doesn't cover.
fn answer_if_lost(tickets: &mut TicketBook, top: &Path, row: &Row, number: u64, ticket: u64)
    requires { list_any (is_due (has_number ticket)) tickets.old.all ≡ true }
    ensures { tickets.new.all ≡ map (lost_at ticket top.now row.now number) tickets.old.all }
{
    tickets.are_tickets();
    let Some(found) = tickets.get(ticket) else {
        return;
    };
    if is_lost(top, row, &found.asked) {
        tickets.answer_one(ticket, number, Answer::Undeclared);
    }
}

/// Answers, at an entry, the open tickets that nothing is declared which ask for a path at or below one that a row doesn't cover. Takes no
/// memory. Of the open tickets only those that ask for a path at or below that one are looked at; the next one is found by a look-up of the
/// path and a logarithm, however many there are.
pub(crate) fn answer_lost(tickets: &mut TicketBook, top: &Path, row: &Row, number: u64)
    requires { list_all (is_earlier number) tickets.old.all ≡ true }
    ensures { tickets.new.all ≡ map (lost_below top.now row.now number) tickets.old.all }
{
    let mut from = 0;
    'tickets: while let Some(ticket) = tickets.next_below(top, from) {
        tickets.are_tickets();
        answer_if_lost(tickets, top, row, number, ticket);
        from = ticket + 1;
    }
}
