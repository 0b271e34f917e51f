// A job comes back.
ghost use Rattle.std.specs.Prelude.{◌≡◌, ◌+◌, ◌<◌, ◌^◌, false, true, find, length};
ghost use Rattle.std.specs.Option.{is_some, option_map_or};
ghost use Rattle.mat_model.specs.History.{Point};
ghost use Rattle.mat_model.specs.Legal.{note_of_outcome};
ghost use Rattle.mat_model.specs.WorkState.{is_job};
ghost use Rattle.model_laws.specs.PointRules.{IsPoint};
ghost use Rattle.region_port.specs.States.{state_region};
ghost use Rattle.row_book.specs.Stocks.{rows_of};
ghost use Rattle.job_book.specs.Jobs.{jobs_of};
ghost use Rattle.core_laws.specs.Loans.{AreLoans};
ghost use Rattle.core_devices.specs.Told.{told_disk, told_store};
ghost use Rattle.mat_core.specs.Books.{StandFor};
ghost use Rattle.mat_core.specs.Ends.{AreCounts, EndsSo, IsLeftBy};
ghost use Rattle.mat_core.specs.Ending.{end_of};
ghost use Rattle.mat_core.specs.Fitting.{back_of, fits_job};
ghost use Rattle.mat_core.specs.Orders.{AreReady};
ghost use Rattle.mat_core.specs.Recording.{HasBytesFor, HasRecorded, IsRecordedEnd};
ghost use Rattle.mat_core.specs.Replacing.{AreRuled};
ghost use Rattle.mat_core.specs.Rooms.{HasReserves, spent_in};

use crate::begun::region_of;
use crate::ending::{End, end_of};
use crate::parts::Parts;
use core_devices::{give_parts, store_row};
use hall_lock::By;
use job_book::KeptBytes;
use job_run::Done;
use keep_port::{Keeper, RawRow};
use mat_model::{Outcome, Recorded, Task};
use mat_path::Items;
use region_port::{Disk, Part, Region};

/// What became of a job that came back.
#[derive(Drop)]
pub enum Finished<R: Region> {
    /// Its end counts. Where it made its row, this says whether the state store took that.
    Fresh(Recorded),
    /// The row that it made, or was to make, is gone.
    Stale,
    /// It isn't the job that runs under its number, or what came back with it isn't that job's. Nothing changed.
    Strange {
        /// Who began the job that runs under its number, if one does.
        kept: Option<u32>,
        back: Done<R>,
    },
}

// The region of a part in any state.
fn part_region<R: Region>(part: Part<R>) -> R
    ensures region { result ≡ state_region part }
    ensures left { IsLeftBy part (R.part result) (R.rough result) }
{
    match part {
        Part::Rough(part) => part.into_region(),
        Part::Settled(part) => part.into_region(),
        Part::Bare(part) => part.into_region(),
    }
}

// The counts around a call are numbers of 64 bits. It does nothing, as the next.
fn counts_fit(before: u64, after: u64)
    ensures before { before < 2 ^ 64 }
    ensures after { after < 2 ^ 64 }
{}

// So are those of the note of a fault with which a job ended, if it did.
fn note_fits(outcome: Outcome)
    ensures { AreCounts (note_of_outcome outcome) }
{
    match outcome {
        Outcome::Made => {}
        Outcome::Wiped => {}
        Outcome::Missing(_) => {}
        Outcome::Corrupt { .. } => {}
        Outcome::Fault(note) => counts_fit(note.before, note.after),
        Outcome::NoMemory => {}
    }
}

// Stores the bytes of a row with its last use.
fn store<K: Keeper>(keeper: &mut K, kept: Option<KeptBytes>, last: u64) -> Recorded
    requires { is_some kept ≡ true }
    ensures { HasRecorded kept last result (told_store ⟦<K as Keeper>⟧ keeper.old) (told_store ⟦<K as Keeper>⟧ keeper.new) }
{
    match kept {
        None => unreachable!(),
        Some(KeptBytes { path, body }) => {
            let path = Items::of(path);
            let body = Items::of(body);
            store_row(keeper, RawRow { path, body, last })
        }
    }
}

impl<D, K: Keeper> Parts<D, K> {
    // Stores the row that a task made, if it made one that is there.
    fn record(&mut self, task: &Task, outcome: Outcome, kept: Option<KeptBytes>) -> Recorded
        requires { HasBytesFor (end_of self.old.rows task.now outcome) kept }
        ensures told { IsRecordedEnd (end_of self.old.rows task.now outcome) kept result (told_store ⟦<K as Keeper>⟧ self.old.keeper) (told_store ⟦<K as Keeper>⟧ self.new.keeper) }
        ensures only { self.new ≡ record self.old { keeper = self.new.keeper } }
    {
        match end_of(&self.rows, task, outcome) {
            End::Stands { last, .. } => store(&mut self.keeper, kept, last),
            End::Failed(_) => Recorded::Nothing,
            End::Gone => Recorded::Nothing,
            End::Wiped => Recorded::Nothing,
            End::Unwiped(_) => Recorded::Nothing,
        }
    }
}

impl<D: Disk, K: Keeper> Parts<D, K> {
    // The job that runs under a number ends: its parts go back, and it is no longer among the jobs; then its row is stored, if it made one that is
    // there, and its end is entered.
    fn end(&mut self, by: By, done: Done<D::R>) -> Finished<D::R>
        requires bound { self.old.first + spent_in self.old + 2 < 2 ^ 64 }
        requires rules { AreRuled (self.old.first + length self.old.history.items) self.old }
        requires reserves { HasReserves self.old }
        requires loans { AreLoans (jobs_of self.old.jobs) (D.lent self.old.disk) }
        requires ready { AreReady self.old }
        requires fits { option_map_or (fits_job (rows_of self.old.rows) by.caller (back_of done)) (find (is_job done.card.job) (jobs_of self.old.jobs)) false ≡ true }
        ensures { (point : Point) → StandFor self.old point → IsPoint point → EndsSo ⟦<D::R as Region>⟧ point by done self.old self.new (told_disk ⟦<D as Disk>⟧ self.old.disk) (told_disk ⟦<D as Disk>⟧ self.new.disk) (told_store ⟦<K as Keeper>⟧ self.old.keeper) (told_store ⟦<K as Keeper>⟧ self.new.keeper) result }
    {
        let Done {
            card,
            outcome,
            part,
            loan,
        } = done;
        let Some(mut running) = self.jobs.take(card.job) else {
            unreachable!();
        };
        note_fits(outcome);
        give_parts(&mut self.disk, part_region(part), region_of(loan));
        let kept = running.kept.take();
        let how = self.record(&running.card.task, outcome, kept);
        if self.enter_end(by, running, outcome, how) {
            return Finished::Fresh(how);
        }
        Finished::Stale
    }

    /// A job comes back: its end is entered, or it comes back once more where it isn't the one that runs. Takes no memory.
    pub fn done(&mut self, by: By, done: Done<D::R>) -> Finished<D::R>
        requires bound { self.old.first + spent_in self.old + 2 < 2 ^ 64 }
        requires rules { AreRuled (self.old.first + length self.old.history.items) self.old }
        requires reserves { HasReserves self.old }
        requires loans { AreLoans (jobs_of self.old.jobs) (D.lent self.old.disk) }
        requires ready { AreReady self.old }
        ensures { (point : Point) → StandFor self.old point → IsPoint point → EndsSo ⟦<D::R as Region>⟧ point by done self.old self.new (told_disk ⟦<D as Disk>⟧ self.old.disk) (told_disk ⟦<D as Disk>⟧ self.new.disk) (told_store ⟦<K as Keeper>⟧ self.old.keeper) (told_store ⟦<K as Keeper>⟧ self.new.keeper) result }
    {
        if self.fits(by.caller, &done) {
            return self.end(by, done);
        }
        Finished::Strange {
            kept: self.caller_of(done.card.job),
            back: done,
        }
    }
}
