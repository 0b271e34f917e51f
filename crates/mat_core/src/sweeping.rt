// Stale rows are removed by a clean.
ghost use Rattle.std.specs.Prelude.{◌≡◌, ◌≤◌, ◌+◌, ◌*◌, ◌<◌, ◌^◌, [], true, false, count_by, filter, length, map, nat_lt, if◌then◌else◌, IfOk};
ghost use Rattle.std.specs.Vec.{vec_capacity};
ghost use Rattle.mat_model.specs.declared.requests.Asked.TheVariants as asked;
ghost use Rattle.mat_model.specs.History.{Point};
ghost use Rattle.model_laws.specs.PointRules.{IsPoint};
ghost use Rattle.model_laws.specs.RoomRules.{IsRoomy};
ghost use Rattle.job_book.specs.Jobs.{jobs_of};
ghost use Rattle.kept_book.specs.Marks.{gone_path, is_mark_unlisted};
ghost use Rattle.core_devices.specs.Told.{told_store};
ghost use Rattle.mat_core.specs.Beginning.{HaveOnlyRoom};
ghost use Rattle.mat_core.specs.Books.{StandFor};
ghost use Rattle.mat_core.specs.Falling.{MayAllRemain, is_unkept};
ghost use Rattle.mat_core.specs.Keeping.{AsksSo};
ghost use Rattle.mat_core.specs.Removing.{taken_at};
ghost use Rattle.mat_core.specs.Replacing.{AreRuled};
ghost use Rattle.mat_core.specs.Rooms.{HasReserves, spent_in};
ghost use Rattle.mat_core.specs.Sweeping.{AreSwept, IsSweep, condemned_by, is_stale_stock, mode_of, strays_by};

use crate::cleaning::{condemn_strays, kept_among, list_stale, list_strays};
use crate::parts::Parts;
use crate::removing::turn;
use core_devices::{Removal, remove_rows};
use debris_list::DebrisList;
use hall_lock::By;
use holder_book::HolderBook;
use job_book::JobBook;
use keep_port::Keeper;
use kept_book::KeptBook;
use mat_model::{Asked, CleanMode, Gone, Reply};
use mat_path::{Items, Memory, Path};
use row_book::{RowBook, Stock};
use std::alloc::Global;

/// What a clean removes: its answer, and the same for its entry, the debris that it condemns, the paths of the kept rows and of the rows that go, these the
/// last first, and a list with room for them.
#[derive(Drop)]
pub struct Sweep {
    pub said: Reply,
    pub told: Reply,
    pub strays: Vec<Path>,
    pub kept: Vec<Path>,
    pub rows: Vec<Path>,
    pub room: Vec<Stock>,
}

// The mode of a clean that removes rows: of all, or not.
fn mode_of(all: bool) -> CleanMode
    ensures { result ≡ mode_of all }
{
    if all {
        return CleanMode::All;
    }
    CleanMode::Real
}

// The paths of rows that are listed.
fn paths_of(alloc: Global, gone: &[Gone]) -> Result<Vec<Path>, Memory>
    ensures { IfOk result (λ paths. paths.items ≡ map gone_path gone.now) }
{
    let mut paths: Vec<Path> = Vec::new(alloc);
    for one in gone {
        paths.push(one.path.copy()?)?;
    }
    Ok(paths)
}

// The paths of the debris that a clean condemns.
fn strays_by(
    alloc: Global,
    debris: &DebrisList,
    jobs: &JobBook,
    all: bool,
) -> Result<Vec<Path>, Memory>
    ensures { IfOk result (λ paths. paths.items ≡ strays_by all (jobs_of jobs.now) debris.now.list) }
{
    if all {
        return list_strays(alloc, debris, jobs);
    }
    Ok(Vec::new(alloc))
}

// It condemns them. Takes no memory.
fn condemn_by(debris: &mut DebrisList, jobs: &JobBook, strays: &[Path], all: bool)
    requires { strays.now ≡ strays_by all (jobs_of jobs.now) debris.old.list }
    ensures list { debris.new.list ≡ condemned_by all (jobs_of jobs.now) debris.old.list }
    ensures spare { debris.new.spare ≡ debris.old.spare }
{
    if all {
        condemn_strays(debris, jobs, strays);
    }
}

// Lists what a clean removes.
fn list_sweep(
    alloc: Global,
    rows: &RowBook,
    holds: &HolderBook,
    kept: &KeptBook,
    debris: &DebrisList,
    jobs: &JobBook,
    cutoff: u64,
    all: bool,
) -> Result<Sweep, Memory>
    ensures { IfOk result (λ sweep. IsSweep all cutoff holds.now rows.now kept.now.marks (jobs_of jobs.now) debris.now.list sweep) }
{
    let gone = list_stale(alloc, rows, holds, cutoff)?;
    let kept = kept_among(alloc, kept, gone.as_slice())?;
    let mut rows = paths_of(alloc, gone.as_slice())?;
    turn(&mut rows);
    let mut room: Vec<Stock> = Vec::new(alloc);
    room.reserve(rows.len())?;
    let strays = strays_by(alloc, debris, jobs, all)?;
    let said = Reply::Cleaned {
        dry: false,
        rows: gone,
        strays: Items::of(strays_by(alloc, debris, jobs, all)?),
    };
    let told = said.copy(alloc)?;
    Ok(Sweep {
        said,
        told,
        strays,
        kept,
        rows,
        room,
    })
}

impl<D, K> Parts<D, K> {
    // Lists what a clean removes, and makes room for what may remain of it. For want of memory there is only more room than before.
    fn order_sweep(&mut self, cutoff: u64, all: bool) -> Result<Sweep, Memory>
        requires few { 2 * length self.old.jobs + length self.old.rows < 2 ^ 64 }
        ensures sweep { IfOk result (λ sweep. IsSweep all cutoff self.old.holds self.old.rows self.old.kept.marks (jobs_of self.old.jobs) self.old.debris.list sweep) }
        ensures spare { IfOk result (λ sweep. 2 * length self.old.jobs + length (filter (is_stale_stock cutoff self.old.holds) self.old.rows) ≤ self.new.debris.spare) }
        ensures room { HaveOnlyRoom self.old self.new }
    {
        let alloc = *self.history.allocator();
        let Ok(sweep) = list_sweep(
            alloc,
            &self.rows,
            &self.holds,
            &self.kept,
            &self.debris,
            &self.jobs,
            cutoff,
            all,
        ) else {
            return Err(Memory);
        };
        let pieces = 2 * self.jobs.len() as u64 + sweep.rows.len() as u64;
        match self.debris.reserve(pieces) {
            Ok(()) => Ok(sweep),
            Err(Memory) => Err(Memory),
        }
    }

    // The kept rows and the rows at some paths go by a clean, the rows listed the last first, and its strays are condemned. Takes no memory.
    fn sweep(&mut self, all: bool, strays: &[Path], kept: &[Path], rows: &[Path], room: Vec<Stock>)
        requires none { room.items ≡ [] }
        requires fits { length rows.now ≤ vec_capacity room }
        requires debris { length rows.now ≤ self.old.debris.spare }
        requires strays { strays.now ≡ strays_by all (jobs_of self.old.jobs) self.old.debris.list }
        requires apart { MayAllRemain true (jobs_of self.old.jobs) (taken_at rows.now self.old.rows) (condemned_by all (jobs_of self.old.jobs) self.old.debris.list) }
        requires counted { count_by (is_unkept (filter (is_mark_unlisted kept.now) self.old.kept.marks)) (taken_at rows.now self.old.rows) ≤ self.old.paths }
        ensures { AreSwept all kept.now rows.now self.old self.new }
    {
        self.kept.remove_all(kept);
        condemn_by(&mut self.debris, &self.jobs, strays, all);
        self.remove_rows(rows, room, true);
    }
}

impl<D, K: Keeper> Parts<D, K> {
    // Removes the stale rows, where there is room for the entry, and condemns the strays in a clean of all.
    pub(crate) fn clean_rows(&mut self, by: By, now: u64, cutoff: u64, all: bool) -> Reply
        requires bound { self.old.first + spent_in self.old + 2 < 2 ^ 64 }
        requires rules { AreRuled (self.old.first + length self.old.history.items) self.old }
        requires reserves { HasReserves self.old }
        requires room { nat_lt self.old.base.limits.history (spent_in self.old + 1) ≡ false }
        requires place { spent_in self.old + 2 ≤ vec_capacity self.old.history }
        ensures { (point : Point) → StandFor self.old point → IsPoint point → IsRoomy self.old.base.limits point → AsksSo point by now (asked.Clean cutoff (mode_of all)) self.old self.new (told_store ⟦<K as Keeper>⟧ self.old.keeper) (told_store ⟦<K as Keeper>⟧ self.new.keeper) result }
    {
        let Ok(order) = self.order_sweep(cutoff, all) else {
            return Reply::NoMemory;
        };
        let mode = mode_of(all);
        match remove_rows(&mut self.keeper, order.kept.as_slice()) {
            Removal::Done => {
                let Sweep {
                    said,
                    told,
                    strays,
                    kept,
                    rows,
                    room,
                } = order;
                self.sweep(
                    all,
                    strays.as_slice(),
                    kept.as_slice(),
                    rows.as_slice(),
                    room,
                );
                self.enter_asked(by, now, Asked::Clean { cutoff, mode }, told);
                said
            }
            Removal::Failed(note) => {
                self.enter_asked(by, now, Asked::Clean { cutoff, mode }, Reply::Fault(note));
                Reply::Fault(note)
            }
            Removal::NoMemory => Reply::NoMemory,
        }
    }
}
