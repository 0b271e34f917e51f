ghost use Rattle.std.specs.Prelude.{◌≡◌, [], true, IfOk};
ghost use Rattle.mat_model.specs.Tickets.{is_open};

use crate::TicketBook;
use mat_model::{Answer, Ticket};
use mat_path::Path;
use std::alloc::Global;
use std::test::Fail;

/// An open ticket.
fn ticket(alloc: Global, number: u64, command: u32, path: &[u8]) -> Result<Ticket, Fail>
    ensures number { IfOk result (λ ticket. ticket.number ≡ number) }
    ensures lies { IfOk result (λ ticket. is_open ticket ≡ true) }
{
    let asked = Path::read(alloc, path)?;
    Ok(Ticket {
        number,
        command,
        asked,
        answered: None,
    })
}

/// Asks for paths, each for a command, with the numbers from 1 on.
fn ask_all(alloc: Global, book: &mut TicketBook, asks: &[(u32, &[u8])]) -> Result<(), Fail>
    requires { book.old.all ≡ [] }
{
    for k in 0..asks.len() {
        let (command, path) = asks[k];
        book.ask(ticket(alloc, k as u64 + 1, command, path)?)?;
    }
    Ok(())
}

/// What is answered.
#[derive(Drop)]
enum Step {
    Row(&'static [u8]),
    Overlap(&'static [u8]),
    Command(u32),
}

/// Gives the answer of a step.
fn carry_out(alloc: Global, book: &mut TicketBook, step: &Step) -> Result<(), Fail> {
    match step {
        Step::Row(path) => book.answer_row(&Path::read(alloc, path)?, 99, Answer::Undeclared),
        Step::Overlap(path) => {
            book.answer_overlap(&Path::read(alloc, path)?, 99, Answer::Undeclared);
        }
        Step::Command(command) => book.answer_command(*command, 99, Answer::Undeclared),
    }
    Ok(())
}

/// Sees the lowest number below a path, in all and from 5 on, and how many tickets of the commands 1, 2 and 3 are open.
fn see(alloc: Global, book: &TicketBook, path: &[u8]) -> Result<[Option<u64>; 5], Fail> {
    let path = Path::read(alloc, path)?;
    Ok([
        book.lowest_below(&path),
        book.next_below(&path, 5),
        Some(book.open_of(1)),
        Some(book.open_of(2)),
        Some(book.open_of(3)),
    ])
}

#[test]
fn tickets_are_asked_and_answered(rt: HostRuntime) -> Result<(), Fail> {
    let alloc = rt.alloc();
    let mut book = TicketBook::new(alloc);
    let asks = [
        (2, b"out/a/b/c".as_slice()),
        (1, b"out/a/b".as_slice()),
        (1, b"out".as_slice()),
        (1, b"out/a/bb".as_slice()),
        (2, b"out/a".as_slice()),
        (1, b"out/a/b".as_slice()),
        (2, b"out/b".as_slice()),
        (3, b"out/z".as_slice()),
        (3, b"lib".as_slice()),
    ];
    ask_all(alloc, &mut book, asks.as_slice())?;
    // what is answered, and what is seen below out then
    let table = [
        (
            Step::Row(b"out/b/x"),
            [Some(1), Some(5), Some(4), Some(3), Some(2)],
        ),
        (
            Step::Overlap(b"out/a/b"),
            [Some(4), Some(7), Some(1), Some(1), Some(2)],
        ),
        (
            Step::Overlap(b"out/c"),
            [Some(4), Some(7), Some(1), Some(1), Some(2)],
        ),
        (
            Step::Row(b"out/b"),
            [Some(4), Some(8), Some(1), Some(0), Some(2)],
        ),
        (Step::Command(3), [Some(4), None, Some(1), Some(0), Some(0)]),
        (
            Step::Overlap(b"out/a/bb/x/y"),
            [None, None, Some(0), Some(0), Some(0)],
        ),
    ];
    for (step, seen) in table.as_slice() {
        carry_out(alloc, &mut book, step)?;
        assert_eq!(rt; see(alloc, &book, b"out")?, *seen);
    }
    for (k, number) in [1, 2, 3, 5, 6, 7, 8, 9, 4].iter().enumerate() {
        assert_eq!(rt;
            book.answered(k as u64).map(|ticket| ticket.number),
            Some(*number)
        );
    }
    Ok(())
}
