// Copies of what a history has.
ghost use Rattle.std.specs.Prelude.{◌≡◌, IfOk};

use crate::answers::{Gone, Reply};
use crate::book::{Book, Hold, Row, Ticket};
use crate::entries::{Entry, Event, Task};
use crate::requests::Asked;
use mat_path::{Items, Memory, Path};
use std::alloc::Global;

// What can be had once more, for memory.
trait Twin: Sized + Drop {
    fn twin(&self) -> Result<Self, Memory>
        ensures { IfOk result (λ twin. twin ≡ self.now) };
}

// The same items once more.
fn copy_all<X: Twin>(alloc: Global, items: &[X]) -> Result<Vec<X>, Memory>
    ensures { IfOk result (λ twins. twins.items ≡ items.now) }
{
    let mut twins = Vec::new(alloc);
    for item in items {
        twins.push(item.twin()?)?;
    }
    Ok(twins)
}

impl Twin for Path {
    fn twin(&self) -> Result<Path, Memory> {
        self.copy()
    }
}

impl Twin for Gone {
    fn twin(&self) -> Result<Gone, Memory> {
        self.copy()
    }
}

impl Twin for Row {
    fn twin(&self) -> Result<Row, Memory> {
        self.copy()
    }
}

impl Twin for Hold {
    fn twin(&self) -> Result<Hold, Memory> {
        self.copy()
    }
}

impl Twin for Ticket {
    fn twin(&self) -> Result<Ticket, Memory> {
        self.copy()
    }
}

impl Gone {
    /// The same once more.
    pub fn copy(&self) -> Result<Gone, Memory>
        ensures ok { IfOk result (λ copy. copy ≡ self.now) }
    {
        let path = self.path.copy()?;
        Ok(Gone {
            path,
            bytes: self.bytes,
        })
    }
}

impl Reply {
    /// The same reply once more.
    pub fn copy(&self, alloc: Global) -> Result<Reply, Memory>
        ensures ok { IfOk result (λ copy. copy ≡ self.now) }
    {
        Ok(match self {
            Reply::Entered => Reply::Entered,
            Reply::Took(count) => Reply::Took(*count),
            Reply::Left(count) => Reply::Left(*count),
            Reply::Declared(stamp) => Reply::Declared(*stamp),
            Reply::Kept(stamp) => Reply::Kept(*stamp),
            Reply::Same(stamp) => Reply::Same(*stamp),
            Reply::Other => Reply::Other,
            Reply::Nothing => Reply::Nothing,
            Reply::Stands(stamp) => Reply::Stands(*stamp),
            Reply::NotMade(stamp) => Reply::NotMade(*stamp),
            Reply::Ready { stamp, sum } => Reply::Ready {
                stamp: *stamp,
                sum: *sum,
            },
            Reply::Asked(ticket) => Reply::Asked(*ticket),
            Reply::Invalid(count) => Reply::Invalid(*count),
            Reply::Cleaned { dry, rows, strays } => Reply::Cleaned {
                dry: *dry,
                rows: Items::of(copy_all(alloc, rows.as_slice())?),
                strays: Items::of(copy_all(alloc, strays.as_slice())?),
            },
            Reply::Flushed(count) => Reply::Flushed(*count),
            Reply::NotLive => Reply::NotLive,
            Reply::Known => Reply::Known,
            Reply::Differs(state) => Reply::Differs(*state),
            Reply::Queued(place) => Reply::Queued(*place),
            Reply::Unknown => Reply::Unknown,
            Reply::Busy(count) => Reply::Busy(*count),
            Reply::NoSource => Reply::NoSource,
            Reply::TooLong => Reply::TooLong,
            Reply::Undeclared => Reply::Undeclared,
            Reply::Fault(note) => Reply::Fault(*note),
            Reply::Full(limit) => Reply::Full(*limit),
            Reply::NoMemory => Reply::NoMemory,
            Reply::Started => Reply::Started,
            Reply::Refused(note) => Reply::Refused(*note),
            Reply::Fresh(recorded) => Reply::Fresh(*recorded),
            Reply::Stale => Reply::Stale,
        })
    }
}

impl Row {
    /// The same row once more.
    pub fn copy(&self) -> Result<Row, Memory>
        ensures ok { IfOk result (λ copy. copy ≡ self.now) }
    {
        Ok(Row {
            path: self.path.copy()?,
            tree: self.tree.copy()?,
            sum: self.sum,
            stamp: self.stamp,
            stands: self.stands,
            last: self.last,
        })
    }
}

impl Hold {
    /// The same hold once more.
    pub fn copy(&self) -> Result<Hold, Memory>
        ensures ok { IfOk result (λ copy. copy ≡ self.now) }
    {
        Ok(Hold {
            command: self.command,
            path: self.path.copy()?,
        })
    }
}

impl Ticket {
    /// The same ticket once more.
    pub fn copy(&self) -> Result<Ticket, Memory>
        ensures ok { IfOk result (λ copy. copy ≡ self.now) }
    {
        Ok(Ticket {
            number: self.number,
            command: self.command,
            asked: self.asked.copy()?,
            answered: self.answered,
        })
    }
}

impl Task {
    /// The same task once more.
    pub fn copy(&self) -> Result<Task, Memory>
        ensures ok { IfOk result (λ copy. copy ≡ self.now) }
    {
        match self {
            Task::Make { path, stamp } => Ok(Task::Make {
                path: path.copy()?,
                stamp: *stamp,
            }),
            Task::Wipe { path } => Ok(Task::Wipe { path: path.copy()? }),
        }
    }
}

impl Asked {
    /// The same request once more.
    pub fn copy(&self) -> Result<Asked, Memory>
        ensures ok { IfOk result (λ copy. copy ≡ self.now) }
    {
        Ok(match self {
            Asked::Enter {
                command,
                state,
                soft,
                refuse,
            } => Asked::Enter {
                command: *command,
                state: *state,
                soft: *soft,
                refuse: *refuse,
            },
            Asked::Leave { command } => Asked::Leave { command: *command },
            Asked::Write { command, path, sum } => Asked::Write {
                command: *command,
                path: path.copy()?,
                sum: *sum,
            },
            Asked::Declare {
                command,
                path,
                tree,
            } => Asked::Declare {
                command: *command,
                path: path.copy()?,
                tree: tree.copy()?,
            },
            Asked::Copy {
                command,
                path,
                source,
            } => Asked::Copy {
                command: *command,
                path: path.copy()?,
                source: source.copy()?,
            },
            Asked::Matches { command, path, sum } => Asked::Matches {
                command: *command,
                path: path.copy()?,
                sum: *sum,
            },
            Asked::Has { command, path } => Asked::Has {
                command: *command,
                path: path.copy()?,
            },
            Asked::Ensure { command, path } => Asked::Ensure {
                command: *command,
                path: path.copy()?,
            },
            Asked::Invalidate { command, path } => Asked::Invalidate {
                command: *command,
                path: path.copy()?,
            },
            Asked::Clean { cutoff, mode } => Asked::Clean {
                cutoff: *cutoff,
                mode: *mode,
            },
            Asked::Flush => Asked::Flush,
        })
    }
}

impl Event {
    /// The same event once more.
    pub fn copy(&self) -> Result<Event, Memory>
        ensures ok { IfOk result (λ copy. copy ≡ self.now) }
    {
        match self {
            Event::Asked(asked) => Ok(Event::Asked(asked.copy()?)),
            Event::Begin(task) => Ok(Event::Begin(task.copy()?)),
            Event::Done { job, outcome } => Ok(Event::Done {
                job: *job,
                outcome: *outcome,
            }),
        }
    }
}

impl Entry {
    /// The same entry once more.
    pub fn copy(&self, alloc: Global) -> Result<Entry, Memory>
        ensures ok { IfOk result (λ copy. copy ≡ self.entry.now) }
    {
        Ok(Entry {
            by: self.by,
            now: self.now,
            event: self.event.copy()?,
            reply: self.reply.copy(alloc)?,
        })
    }
}

impl Book {
    /// The same book once more.
    pub fn copy(&self, alloc: Global) -> Result<Book, Memory>
        ensures ok { IfOk result (λ copy. copy ≡ self.entry.now) }
    {
        let live = Vec::from_slice(alloc, self.live.as_slice())?;
        let waiting = Vec::from_slice(alloc, self.waiting.as_slice())?;
        let soft = Vec::from_slice(alloc, self.soft.as_slice())?;
        Ok(Book {
            first: self.first,
            now: self.now,
            state: self.state,
            live: Items::of(live),
            waiting: Items::of(waiting),
            soft: Items::of(soft),
            rows: Items::of(copy_all(alloc, self.rows.as_slice())?),
            holds: Items::of(copy_all(alloc, self.holds.as_slice())?),
            tickets: Items::of(copy_all(alloc, self.tickets.as_slice())?),
        })
    }
}
