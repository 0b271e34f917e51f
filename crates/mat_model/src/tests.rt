use crate::{
    Answer, Asked, Book, By, CleanMode, Entry, Event, Given, Gone, Hold, Outcome, Reply, Row, Task,
    Ticket, Waiter,
};
use mat_digest::Digest;
use mat_path::{Items, Path, Rel};
use mat_tree::{Flat, Kind, Sum, Tree, What};
use std::alloc::Global;
use std::test::Fail;

/// A list of one item.
fn one<X: Drop>(alloc: Global, item: X) -> Result<Items<X>, Fail> {
    let mut items = Vec::new(alloc);
    if items.push(item).is_err() {
        return Err(Fail::from(mat_path::Memory));
    }
    Ok(Items::of(items))
}

/// The tree of a file with the digest of no bytes.
fn tree(alloc: Global) -> Result<Tree, Fail> {
    let nodes = [Flat {
        rel: Rel::root(alloc),
        what: What::File {
            digest: Digest::of(b""),
            exec: true,
        },
    }];
    if !Flat::are_small(&nodes) {
        return Err(Fail::from(mat_path::Memory));
    }
    Ok(Tree::from_flat(alloc, &nodes)?)
}

/// A book with one of each.
fn book(alloc: Global) -> Result<Book, Fail> {
    let path = Path::read(alloc, b"a/b")?;
    let sum = Sum {
        kind: Kind::Exec,
        digest: Digest::of(b""),
    };
    let row = Row {
        path: path.copy()?,
        tree: tree(alloc)?,
        sum,
        stamp: 1,
        stands: true,
        last: 5,
    };
    let hold = Hold {
        command: 1,
        path: path.copy()?,
    };
    let given = Given {
        at: 4,
        answer: Answer::Ready { stamp: 1, sum },
    };
    let ticket = Ticket {
        number: 2,
        command: 1,
        asked: path,
        answered: Some(given),
    };
    let waiter = Waiter {
        command: 2,
        state: 8,
    };
    Ok(Book {
        first: 0,
        now: 5,
        state: Some(7),
        live: one(alloc, 1)?,
        waiting: one(alloc, waiter)?,
        soft: one(alloc, 1)?,
        rows: one(alloc, row)?,
        holds: one(alloc, hold)?,
        tickets: one(alloc, ticket)?,
    })
}

#[test]
fn a_book_is_had_once_more(rt: HostRuntime) -> Result<(), Fail> {
    let book = book(rt.alloc())?;
    let twin = book.copy(rt.alloc())?;
    assert_eq!(rt; twin.state, Some(7));
    assert_eq!(rt; twin.live.as_slice(), [1].as_slice());
    assert_eq!(rt; twin.soft.as_slice(), [1].as_slice());
    for (waiter, other) in twin
        .waiting
        .as_slice()
        .iter()
        .zip(book.waiting.as_slice().iter())
    {
        assert_eq!(rt; waiter, other);
    }
    for (row, other) in twin.rows.as_slice().iter().zip(book.rows.as_slice().iter()) {
        assert!(rt; row.path == other.path);
        assert!(rt; row.tree.same(&other.tree));
    }
    for (hold, other) in twin
        .holds
        .as_slice()
        .iter()
        .zip(book.holds.as_slice().iter())
    {
        assert_eq!(rt; hold.command, other.command);
    }
    for (ticket, other) in twin
        .tickets
        .as_slice()
        .iter()
        .zip(book.tickets.as_slice().iter())
    {
        assert_eq!(rt; ticket.answered, other.answered);
    }
    let lengths = [
        twin.waiting.as_slice().len(),
        twin.rows.as_slice().len(),
        twin.holds.as_slice().len(),
        twin.tickets.as_slice().len(),
    ];
    assert_eq!(rt; lengths, [1, 1, 1, 1]);
    Ok(())
}

#[test]
fn entries_are_had_once_more(rt: HostRuntime) -> Result<(), Fail> {
    let alloc = rt.alloc();
    let path = Path::read(alloc, b"a/b")?;
    let gone = Gone {
        path: path.copy()?,
        bytes: 3,
    };
    let cleaned = Reply::Cleaned {
        dry: false,
        rows: one(alloc, gone)?,
        strays: one(alloc, path.copy()?)?,
    };
    let clean = Asked::Clean {
        cutoff: 6,
        mode: CleanMode::All,
    };
    let make = Task::Make { path, stamp: 1 };
    let done = Event::Done {
        job: 3,
        outcome: Outcome::Made,
    };
    let table = [
        (Event::Asked(clean), cleaned),
        (Event::Begin(make), Reply::Started),
        (done, Reply::Stale),
    ];
    for (event, reply) in table {
        let entry = Entry {
            by: By {
                caller: 0,
                number: 9,
            },
            now: 5,
            event,
            reply,
        };
        let twin = entry.copy(alloc)?;
        assert_eq!(rt; twin.by, entry.by);
        let same = match (&twin.reply, &entry.reply) {
            (Reply::Cleaned { strays, .. }, Reply::Cleaned { strays: others, .. }) => {
                strays.as_slice().first() == others.as_slice().first()
            }
            (Reply::Started, Reply::Started) => true,
            (Reply::Stale, Reply::Stale) => true,
            _ => false,
        };
        assert!(rt; same);
    }
    Ok(())
}
