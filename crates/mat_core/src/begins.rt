// A job begins.
ghost use Rattle.std.specs.Prelude.{◌≡◌, ◌+◌, ◌<◌, ◌^◌, Some, false, length, nat_lt};
ghost use Rattle.mat_model.specs.History.{Point};
ghost use Rattle.mat_model.specs.WorkState.{first_task};
ghost use Rattle.model_laws.specs.PointRules.{IsPoint};
ghost use Rattle.job_book.specs.Jobs.{jobs_of};
ghost use Rattle.core_laws.specs.Loans.{AreLoans};
ghost use Rattle.core_devices.specs.Told.{told_disk, told_store};
ghost use Rattle.mat_core.specs.Begins.{AreStampsGone, BeginsSo};
ghost use Rattle.mat_core.specs.Books.{StandFor};
ghost use Rattle.mat_core.specs.Replacing.{AreRuled};
ghost use Rattle.mat_core.specs.Rooms.{HasReserves, spent_in};

use crate::beginning::release_place;
use crate::begun::job_of;
use crate::parts::Parts;
use core_devices::{Removal, remove_rows};
use hall_lock::By;
use job_run::Job;
use keep_port::Keeper;
use mat_model::{FaultNote, Task};
use mat_path::Memory;
use region_port::{Disk, Region};

/// What became of a begin.
#[derive(Drop)]
pub enum Begun<R: Region> {
    /// This job began.
    Started(Job<R>),
    /// No task may begin.
    Idle,
    /// The state store failed to remove kept rows that overlap the task's path: its count of faults around that call.
    Refused(FaultNote),
    /// The entries of a begin and of its end would pass the limit.
    Full,
    /// Memory is wanting.
    NoMemory,
}

impl<D: Disk, K: Keeper> Parts<D, K> {
    // A job begins with a task, or is refused. For want of memory all is as it was.
    fn begin_task(&mut self, by: By, task: Task) -> Begun<D::R>
        requires bound { self.old.first + spent_in self.old + 2 < 2 ^ 64 }
        requires rules { AreRuled (self.old.first + length self.old.history.items) self.old }
        requires reserves { HasReserves self.old }
        requires loans { AreLoans (jobs_of self.old.jobs) (D.lent self.old.disk) }
        requires room { nat_lt self.old.base.limits.history (spent_in self.old + 2) ≡ false }
        requires first { (point : Point) → StandFor self.old point → IsPoint point → first_task point.work point.book ≡ Some task }
        ensures { (point : Point) → StandFor self.old point → IsPoint point → AreStampsGone point → BeginsSo ⟦<D::R as Region>⟧ point by self.old self.new (told_disk ⟦<D as Disk>⟧ self.old.disk) (told_disk ⟦<D as Disk>⟧ self.new.disk) (told_store ⟦<K as Keeper>⟧ self.old.keeper) (told_store ⟦<K as Keeper>⟧ self.new.keeper) result }
    {
        let number = self.first + self.history.len() as u64;
        let Ok(order) = self.order(number, &task) else {
            return Begun::NoMemory;
        };
        let Ok(()) = self.make_room(&task) else {
            return Begun::NoMemory;
        };
        let Ok(out) = self.put_down(by.caller, &task, order) else {
            release_place(&mut self.kept, &task);
            return Begun::NoMemory;
        };
        match remove_rows(&mut self.keeper, out.gone.as_slice()) {
            Removal::Done => {
                self.enter_begin(by, task, out.gone.as_slice());
                Begun::Started(job_of(out))
            }
            Removal::Failed(note) => {
                self.take_up(&task, out);
                self.enter_refusal(by, task, note);
                Begun::Refused(note)
            }
            Removal::NoMemory => {
                self.take_up(&task, out);
                Begun::NoMemory
            }
        }
    }

    /// The task that comes first begins, if one may.
    pub fn begin(&mut self, by: By) -> Begun<D::R>
        requires bound { self.old.first + spent_in self.old + 2 < 2 ^ 64 }
        requires rules { AreRuled (self.old.first + length self.old.history.items) self.old }
        requires reserves { HasReserves self.old }
        requires loans { AreLoans (jobs_of self.old.jobs) (D.lent self.old.disk) }
        ensures { (point : Point) → StandFor self.old point → IsPoint point → AreStampsGone point → BeginsSo ⟦<D::R as Region>⟧ point by self.old self.new (told_disk ⟦<D as Disk>⟧ self.old.disk) (told_disk ⟦<D as Disk>⟧ self.new.disk) (told_store ⟦<K as Keeper>⟧ self.old.keeper) (told_store ⟦<K as Keeper>⟧ self.new.keeper) result }
    {
        let task = match self.first_task() {
            Ok(Some(task)) => task,
            Ok(None) => return Begun::Idle,
            Err(Memory) => return Begun::NoMemory,
        };
        if self.lacks_entries(2) {
            return Begun::Full;
        }
        self.begin_task(by, task)
    }
}
