// The text of what is told, put behind what a `Vec` holds. After want of memory a part of it may stand there.
ghost use Rattle.std.specs.Prelude.{◌≡◌, ◌+◌, ◌^◌, ◌<◌, ◌++◌, OnOk};
ghost use Rattle.std.specs.List.{flat_map};
ghost use Rattle.buckd.specs.Texts.{answer_line, answer_lines, given_line, said_line, ticket_line};

use mat_model::{Answer, Given, Ticket};
use mat_path::{Items, Memory};
use script_lang::{Said, Told, push_answer, push_numbered, push_told};
use tree_words::push_text;

// Puts the line of an answered ticket behind.
fn push_answer_line(out: &mut Vec<u8>, ticket: u64, answer: &Answer) -> Result<(), Memory>
    ensures ok { OnOk result (out.new.items ≡ out.old.items ++ answer_line ticket answer.now) }
{
    push_numbered(out, b"answer ", ticket)?;
    push_text(out, b" ")?;
    push_answer(out, answer)?;
    push_text(out, b"\n")
}

// Puts the line of a ticket behind, if the entry of this number gave its answer.
fn push_given_line(out: &mut Vec<u8>, number: u64, ticket: u64, given: &Given) -> Result<(), Memory>
    ensures ok { OnOk result (out.new.items ≡ out.old.items ++ given_line number ticket given.now) }
{
    if given.at != number {
        return Ok(());
    }
    push_answer_line(out, ticket, &given.answer)
}

// Puts the line of a ticket behind, if the entry of this number answered it.
fn push_ticket_line(out: &mut Vec<u8>, number: u64, ticket: &Ticket) -> Result<(), Memory>
    ensures ok { OnOk result (out.new.items ≡ out.old.items ++ ticket_line number ticket.now) }
{
    match &ticket.answered {
        Some(given) => push_given_line(out, number, ticket.number, given),
        None => Ok(()),
    }
}

// Puts the lines of the tickets behind that the entry of this number answered.
fn push_ticket_lines(out: &mut Vec<u8>, number: u64, tickets: &[Ticket]) -> Result<(), Memory>
    ensures ok { OnOk result (out.new.items ≡ out.old.items ++ flat_map (ticket_line number) tickets.now) }
{
    for ticket in tickets {
        push_ticket_line(out, number, ticket)?;
    }
    Ok(())
}

/// Puts the lines of the tickets behind that some entries answered: `count` of them, from a number on.
pub fn push_answer_lines(
    out: &mut Vec<u8>,
    number: u64,
    count: u64,
    tickets: &[Ticket],
) -> Result<(), Memory>
    requires { number + count < 2 ^ 64 }
    ensures ok { OnOk result (out.new.items ≡ out.old.items ++ answer_lines number count tickets.now) }
{
    for step in 0..count {
        push_ticket_lines(out, number + step, tickets)?;
    }
    Ok(())
}

/// Puts behind what is said of an item that answered no ticket.
pub fn push_said(out: &mut Vec<u8>, said: Said) -> Result<(), Memory>
    ensures ok { OnOk result (out.new.items ≡ out.old.items ++ said_line said) }
{
    let answers = Items::of(Vec::new(*out.allocator()));
    push_told(out, &Told { said, answers })
}

#[cfg(test)]
mod tests {
    use super::*;
    use mat_digest::Digest;
    use mat_path::Path;
    use mat_tree::{Kind, Sum};
    use std::alloc::Global;
    use std::test::Fail;

    const DIGEST: Digest = Digest {
        hash: [0xab; 32],
        size: 3,
    };

    const READY: Answer = Answer::Ready {
        stamp: 4,
        sum: Sum {
            kind: Kind::Exec,
            digest: DIGEST,
        },
    };

    fn ticket(alloc: Global, number: u64, answered: Option<Given>) -> Result<Ticket, Fail> {
        Ok(Ticket {
            number,
            command: 1,
            asked: Path::read(alloc, b"a")?,
            answered,
        })
    }

    #[test]
    fn answers_of_two_entries(rt: HostRuntime) -> Result<(), Fail> {
        let given = [
            (2, Some((5, READY))),
            (3, Some((7, Answer::Undeclared))),
            (5, Some((6, READY))),
            (8, None),
            (9, Some((8, Answer::Undeclared))),
        ];
        let mut tickets = Vec::new(rt.alloc());
        for (number, answered) in given.iter() {
            let answered = answered.map(|(at, answer)| Given { at, answer });
            tickets.push(ticket(rt.alloc(), *number, answered)?)?;
        }
        let mut out = Vec::new(rt.alloc());
        push_answer_lines(&mut out, 6, 2, tickets.as_slice())?;
        let text =
            b"answer 5 ready 4 x abababababababababababababababababababababababababababababababab:3\nanswer 3 undeclared\n";
        assert_eq!(rt; out.as_slice(), text.as_slice());
        Ok(())
    }
}
