// The rows that are due are stored.
ghost use Rattle.std.specs.Prelude.{◌≡◌, ◌≤◌, ◌+◌, ◌<◌, ◌^◌, ◌++◌, ◌∷◌, [], max, true, length, IfOk, OnOk};
ghost use Rattle.std.specs.Vec.{vec_capacity};
ghost use Rattle.mat_model.specs.declared.requests.Asked.TheVariants as asked;
ghost use Rattle.mat_model.specs.History.{Point};
ghost use Rattle.model_laws.specs.PointRules.{IsPoint};
ghost use Rattle.model_laws.specs.RoomRules.{IsRoomy};
ghost use Rattle.core_laws.specs.Stored.{IsReadable, raw_of, touch_of};
ghost use Rattle.mat_model.specs.Kept.{kept_row};
ghost use Rattle.row_book.specs.Stocks.{rows_of};
ghost use Rattle.core_devices.specs.Told.{told_store};
ghost use Rattle.mat_core.specs.Books.{StandFor};
ghost use Rattle.mat_core.specs.Flushing.{AreDue, HasStoredAll, HaveAllPlaces, IsLookedAt, KeepsOthers, is_due_for, is_idle, is_new_use, is_same_use, marks_with, places_with, places_without, use_at};
ghost use Rattle.mat_core.specs.Keeping.{AsksSo, asked_entry};
ghost use Rattle.mat_core.specs.Replacing.{AreRuled};
ghost use Rattle.mat_core.specs.Rooms.{HasReserves, spent_in};

use crate::parts::Parts;
use crate::room::has_place;
use hall_lock::By;
use keep_port::{Keeper, RawRow, Touch};
use kept_book::KeptBook;
use mat_io::Did;
use mat_model::{Asked, Device, Entry, Event, FaultNote, Limit, Reply, Row};
use mat_path::{Items, Memory, Path};
use row_book::{RowBook, Stock};
use row_bytes::write_row;
use std::alloc::Global;
use std::collections::VecDeque;

/// What is stored of the rows that are due, in order of path.
#[derive(Drop)]
pub struct Due {
    /// The path of each, and its last use.
    pub uses: Vec<Touch>,
    /// Those whose bytes the state store lacks.
    pub puts: Vec<RawRow>,
    /// The new last uses of the others.
    pub touches: Vec<Touch>,
}

/// What became of a storing of rows.
#[derive(Clone, Copy, Debug)]
pub enum Storing {
    /// They are stored.
    Done,
    /// The state store failed, and has what it had.
    Failed(FaultNote),
    /// Memory was wanting, and it has what it had.
    NoMemory,
}

// Whether a mark has this last use, and its row is in the version that is written now.
fn is_same_use(last: u64, used: Option<(u64, bool)>) -> bool
    ensures { result ≡ is_same_use last used }
{
    match used {
        None => false,
        Some((was, new)) => was == last && new,
    }
}

// Whether there is a mark, and its row is in the version that is written now.
fn is_new_use(used: Option<(u64, bool)>) -> bool
    ensures { result ≡ is_new_use used }
{
    match used {
        None => false,
        Some((_was, new)) => new,
    }
}

// Whether a row is due, where this is told of the mark at its path.
fn is_due(row: &Row, used: Option<(u64, bool)>) -> bool
    ensures { result ≡ is_due_for row.now used }
{
    row.stands && !is_same_use(row.last, used)
}

// The last use of a row.
fn touch_of(row: &Row) -> Result<Touch, Memory>
    ensures { IfOk result (λ touch. touch ≡ touch_of row.now) }
{
    let path = row.path.copy()?;
    Ok(Touch {
        path,
        last: row.last,
    })
}

// A row as the state store keeps it, by a core with an identity.
fn raw_of(alloc: Global, row: &Row, identity: u64) -> Result<RawRow, Memory>
    ensures raw { IfOk result (λ raw. raw ≡ raw_of identity row.now) }
    ensures readable { IfOk result (λ raw. IsReadable (kept_row row.now)) }
{
    let _names = row.path.names();
    let path = row.path.write()?;
    let body = write_row(alloc, &row.tree, identity)?;
    Ok(RawRow {
        path: Items::of(path),
        body: Items::of(body),
        last: row.last,
    })
}

// Looks at a row, where this is told of the mark at its path.
fn look_at(
    alloc: Global,
    due: &mut Due,
    row: &Row,
    used: Option<(u64, bool)>,
    identity: u64,
) -> Result<(), Memory>
    ensures { OnOk result (IsLookedAt identity row.now used due.old due.new) }
{
    if !is_due(row, used) {
        return Ok(());
    }
    due.uses.push(touch_of(row)?)?;
    if is_new_use(used) {
        due.touches.push(touch_of(row)?)?;
        return Ok(());
    }
    due.puts.push(raw_of(alloc, row, identity)?)?;
    Ok(())
}

// The path of a stock's row.
fn path_of(stock: &Stock) -> &Path
    ensures { result.now ≡ stock.now.row.path }
{
    &stock.row.path
}

// The rows that are due.
fn due_rows(alloc: Global, rows: &RowBook, kept: &KeptBook, identity: u64) -> Result<Due, Memory>
    ensures { IfOk result (λ due. AreDue identity kept.now.marks (rows_of rows.now) due) }
{
    rows.is_in_order();
    let mut due = Due {
        uses: Vec::new(alloc),
        puts: Vec::new(alloc),
        touches: Vec::new(alloc),
    };
    let mut last: Option<&Path> = None;
    'rows: while let Some(stock) = rows.first_behind(last) {
        let used = kept.get(path_of(stock));
        look_at(alloc, &mut due, &stock.row, used, identity)?;
        last = Some(path_of(stock));
    }
    Ok(due)
}

// Reserves a place for each mark to come. For want of memory some may be reserved, and the marks are as they were.
fn reserve_all(kept: &mut KeptBook, uses: &[Touch]) -> Result<(), Memory>
    ensures marks { kept.new.marks ≡ kept.old.marks }
    ensures places { OnOk result (kept.new.reserved ≡ places_with uses.now kept.old.reserved) }
    ensures others { KeepsOthers uses.now kept.old.reserved kept.new.reserved }
{
    for one in uses {
        kept.reserve(&one.path)?;
    }
    Ok(())
}

// Gives these places up. Takes no memory, as the function below.
fn release_all(kept: &mut KeptBook, uses: Vec<Touch>)
    ensures marks { kept.new.marks ≡ kept.old.marks }
    ensures places { kept.new.reserved ≡ places_without uses.items kept.old.reserved }
{
    let mut rest = VecDeque::from_vec(uses);
    'uses: while let Some(one) = rest.pop_front() {
        kept.release(&one.path);
    }
}

// The marks come into their places.
fn settle_all(kept: &mut KeptBook, uses: Vec<Touch>)
    requires { HaveAllPlaces uses.items kept.old.reserved }
    ensures marks { kept.new.marks ≡ marks_with uses.items kept.old.marks }
    ensures places { kept.new.reserved ≡ places_without uses.items kept.old.reserved }
{
    let mut rest = VecDeque::from_vec(uses);
    'uses: while let Some(one) = rest.pop_front() {
        kept.settle(&one.path, one.last, true);
    }
}

// Puts rows and touches others in one call of the state store; where there are none, in no call.
fn store_due<K: Keeper>(keeper: &mut K, puts: &[RawRow], touches: &[Touch]) -> Storing
    ensures stored { HasStoredAll puts.now touches.now result (told_store ⟦<K as Keeper>⟧ keeper.old) (told_store ⟦<K as Keeper>⟧ keeper.new) }
    ensures none { is_idle puts.now touches.now ≡ true → result ≡ Storing.Done }
    ensures same { is_idle puts.now touches.now ≡ true → keeper.new ≡ keeper.old }
{
    if puts.is_empty() && touches.is_empty() {
        return Storing::Done;
    }
    let before = keeper.faults();
    match keeper.store_rows(puts, touches) {
        Did::Done => Storing::Done,
        Did::Failed => Storing::Failed(FaultNote {
            device: Device::Keeper,
            before,
            after: keeper.faults(),
        }),
        Did::NoMemory => Storing::NoMemory,
    }
}

impl<D, K> Parts<D, K> {
    // A flush is entered with a reply.
    fn enter_flush(&mut self, by: By, now: u64, reply: Reply)
        requires room { length self.old.history.items + 1 ≤ vec_capacity self.old.history }
        ensures only { self.new ≡ record self.old { moment = self.new.moment; history = self.new.history } }
        ensures moment { self.new.moment ≡ max self.old.moment now }
        ensures items { self.new.history.items ≡ self.old.history.items ++ asked_entry by (max self.old.moment now) (asked.Flush) reply ∷ [] }
        ensures capacity { vec_capacity self.new.history ≡ vec_capacity self.old.history }
    {
        self.moment = self.moment.max(now);
        self.history.push_reserved(Entry {
            by,
            now: self.moment,
            event: Event::Asked(Asked::Flush),
            reply,
        });
    }
}

impl<D, K: Keeper> Parts<D, K> {
    /// Stores the rows that stand and are due.
    pub(crate) fn flush(&mut self, by: By, now: u64) -> Reply
        requires bound { self.old.first + spent_in self.old + 2 < 2 ^ 64 }
        requires rules { AreRuled (self.old.first + length self.old.history.items) self.old }
        requires reserves { HasReserves self.old }
        ensures { (point : Point) → StandFor self.old point → IsPoint point → IsRoomy self.old.base.limits point → AsksSo point by now (asked.Flush) self.old self.new (told_store ⟦<K as Keeper>⟧ self.old.keeper) (told_store ⟦<K as Keeper>⟧ self.new.keeper) result }
    {
        let entries = self.owed() + 2;
        if !has_place(&mut self.history, true, entries) {
            return Reply::NoMemory;
        }
        if self.lacks_entries(1) {
            return Reply::Full(Limit::History);
        }
        let alloc = *self.history.allocator();
        let Ok(due) = due_rows(alloc, &self.rows, &self.kept, self.base.identity) else {
            return Reply::NoMemory;
        };
        let Due {
            uses,
            puts,
            touches,
        } = due;
        let Ok(()) = reserve_all(&mut self.kept, uses.as_slice()) else {
            release_all(&mut self.kept, uses);
            return Reply::NoMemory;
        };
        match store_due(&mut self.keeper, puts.as_slice(), touches.as_slice()) {
            Storing::Done => {
                let count = uses.len() as u64;
                settle_all(&mut self.kept, uses);
                self.enter_flush(by, now, Reply::Flushed(count));
                Reply::Flushed(count)
            }
            Storing::Failed(note) => {
                release_all(&mut self.kept, uses);
                self.enter_flush(by, now, Reply::Fault(note));
                Reply::Fault(note)
            }
            Storing::NoMemory => {
                release_all(&mut self.kept, uses);
                Reply::NoMemory
            }
        }
    }
}
