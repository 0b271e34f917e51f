// The tickets of the book, in order of number, and what answers them.
ghost use Rattle.std.specs.Prelude.{◌≡◌, false, count_by, map, IfSome, OnOk};
ghost use Rattle.std.specs.Option.{option_and_then, option_copied};
ghost use Rattle.std.specs.List.{list_any};
ghost use Rattle.mat_model.specs.Tickets.{answered_by, is_hold, is_open, waits_for, with_hold};
ghost use Rattle.mat_model.specs.WorkState.{first_make, make_of, task_of};
ghost use Rattle.buckd.specs.MakeAnswers.{answer_of, tickets_answered};
ghost use Rattle.buckd.specs.Run.{idle};

use crate::rows;
use mat_model::{Answer, Given, Hold, Outcome, Row, Ticket};
use mat_path::{Memory, Path};

/// Whether a ticket has no answer yet.
fn is_open(ticket: &Ticket) -> bool
    ensures { result ≡ is_open ticket.now }
{
    ticket.answered.is_none()
}

/// How many tickets have no answer yet.
pub fn open_count(tickets: &[Ticket]) -> usize
    ensures { result ≡ count_by is_open tickets.now }
{
    tickets.iter().filter(|ticket| is_open(ticket)).count()
}

/// The row that doesn't stand and that a ticket waits for.
fn waited_row<'a>(rows: &'a [Row], ticket: &Ticket) -> Option<&'a Row>
    ensures task { option_and_then (make_of idle rows.entry.now) (option_copied result) ≡ task_of idle rows.entry.now ticket.now }
    ensures waits { IfSome result (λ row. row.now.stands ≡ false) }
{
    if !is_open(ticket) {
        return None;
    }
    match rows::cover(rows, &ticket.asked) {
        Some(row) => { if row.stands { None } else { Some(row) } }
        None => None,
    }
}

/// The row that is made first: the one with the lowest open ticket.
pub fn first_row<'a>(rows: &'a [Row], tickets: &[Ticket]) -> Option<&'a Row>
    ensures task { option_and_then (make_of idle rows.entry.now) (option_copied result) ≡ first_make idle rows.entry.now tickets.now }
    ensures waits { IfSome result (λ row. row.now.stands ≡ false) }
{
    for ticket in tickets {
        if let Some(row) = waited_row(rows, ticket) {
            return Some(row);
        }
    }
    None
}

/// Gives an answer to a ticket, if it is open on the row.
fn answer_one(ticket: &mut Ticket, row: &Row, number: u64, answer: Answer)
    ensures { ticket.new ≡ answered_by row.now number answer ticket.old }
{
    if is_open(ticket) && rows::covers(row, &ticket.asked) {
        ticket.answered = Some(Given { at: number, answer });
    }
}

/// Gives an answer to each ticket that is open on the row.
pub fn answer_row(tickets: &mut [Ticket], row: &Row, number: u64, answer: Answer)
    ensures { tickets.new ≡ map (answered_by row.now number answer) tickets.old }
{
    for ticket in tickets.iter_mut() {
        answer_one(ticket, row, number, answer);
    }
}

/// The answer that the end of a row's make is to its tickets: a make doesn't end wiped.
fn answer_of(row: &Row, outcome: Outcome) -> Option<Answer>
    ensures { result ≡ answer_of row.now outcome }
{
    match outcome {
        Outcome::Made => Some(Answer::Ready {
            stamp: row.stamp,
            sum: row.sum,
        }),
        Outcome::Wiped => None,
        Outcome::Missing(digest) => Some(Answer::Missing(digest)),
        Outcome::Corrupt { wanted, found } => Some(Answer::Corrupt { wanted, found }),
        Outcome::Fault(note) => Some(Answer::Fault(note)),
        Outcome::NoMemory => Some(Answer::NoMemory),
    }
}

/// Gives the end of a row's make to each ticket that is open on it.
pub fn answer_outcome(tickets: &mut [Ticket], row: &Row, number: u64, outcome: Outcome)
    ensures { tickets.new ≡ tickets_answered row.now number tickets.old (answer_of row.now outcome) }
{
    match answer_of(row, outcome) {
        Some(answer) => answer_row(tickets, row, number, answer),
        None => {}
    }
}

/// Whether a hold is this command's on this path.
fn is_hold(hold: &Hold, command: u32, path: &Path) -> bool
    ensures { result ≡ is_hold command path.now hold.now }
{
    hold.command == command && hold.path == *path
}

/// Whether a command has the hold on a path.
fn has_hold(holds: &[Hold], command: u32, path: &Path) -> bool
    ensures { result ≡ list_any (is_hold command path.now) holds.now }
{
    holds.iter().any(|hold| is_hold(hold, command, path))
}

/// Gives a command the hold on a path, once.
pub fn hold(holds: &mut Vec<Hold>, command: u32, path: &Path) -> Result<(), Memory>
    ensures { OnOk result (holds.new.items ≡ with_hold command path.now holds.old.items) }
{
    if has_hold(holds.as_slice(), command, path) {
        return Ok(());
    }
    let path = path.copy()?;
    holds.push(Hold { command, path })?;
    Ok(())
}
