// Stale rows are cleaned.
ghost use Rattle.std.specs.Prelude.{◌≡◌, ◌≤◌, ◌+◌, ◌++◌, ◌∷◌, [], ◌<◌, ◌^◌, true, false, length, map, nat_lt, if◌then◌else◌, IfOk};
ghost use Rattle.std.specs.Vec.{vec_capacity};
ghost use Rattle.mat_model.specs.declared.answers.Reply.TheVariants as reply;
ghost use Rattle.mat_model.specs.declared.requests.Asked.TheVariants as asked;
ghost use Rattle.mat_model.specs.declared.requests.CleanMode.TheVariants as mode;
ghost use Rattle.mat_model.specs.History.{Point};
ghost use Rattle.mat_model.specs.WorkState.{condemn, is_stray};
ghost use Rattle.model_laws.specs.PointRules.{IsPoint};
ghost use Rattle.model_laws.specs.RoomRules.{IsRoomy};
ghost use Rattle.job_book.specs.Jobs.{jobs_of};
ghost use Rattle.core_devices.specs.Told.{told_store};
ghost use Rattle.mat_core.specs.Books.{StandFor};
ghost use Rattle.mat_core.specs.Cleans.{gone_in, has_mark, kept_among, strays_in};
ghost use Rattle.mat_core.specs.Keeping.{AsksSo};
ghost use Rattle.mat_core.specs.Replacing.{AreRuled};
ghost use Rattle.mat_core.specs.Rooms.{HasReserves, spent_in};

use crate::falling::path_of;
use crate::parts::Parts;
use crate::room::has_place;
use debris_list::DebrisList;
use hall_lock::By;
use holder_book::HolderBook;
use job_book::JobBook;
use keep_port::Keeper;
use kept_book::KeptBook;
use mat_model::{Asked, CleanMode, Gone, Limit, Reply};
use mat_path::{Items, Memory, Path};
use row_book::RowBook;
use stale_pick::{Picked, Picker};
use std::alloc::Global;

// What a pick takes.
fn gone_of(picker: Picker) -> Items<Gone>
    ensures { result ≡ picker.gone }
{
    let Picked { gone, .. } = picker.done();
    gone
}

// The rows that a clean at a cutoff lists. Of a row its path alone is copied.
pub(crate) fn list_stale(
    alloc: Global,
    rows: &RowBook,
    holds: &HolderBook,
    cutoff: u64,
) -> Result<Items<Gone>, Memory>
    ensures { IfOk result (λ gone. gone ≡ gone_in cutoff holds.now rows.now) }
{
    rows.is_in_order();
    let mut picker = Picker::new(alloc, cutoff);
    let mut last: Option<&Path> = None;
    'rows: while let Some(stock) = rows.first_behind(last) {
        picker.feed(&stock.row, holds)?;
        last = Some(path_of(stock));
    }
    Ok(gone_of(picker))
}

// Whether debris would be condemned by a clean of all.
fn is_stray(jobs: &JobBook, path: &Path, condemned: bool) -> bool
    ensures { result ≡ is_stray (jobs_of jobs.now) (record { path = path.now; condemned = condemned }) }
{
    !condemned && !jobs.is_lent(path)
}

// A path behind others, if it is wanted there. For want of memory nothing changes.
fn push_if(paths: &mut Vec<Path>, path: &Path, wanted: bool) -> Result<(), Memory>
    ensures { IfOk result (λ done. paths.new.items ≡ (if wanted then paths.old.items ++ path.now ∷ [] else paths.old.items)) }
{
    if wanted {
        paths.push(path.copy()?)?;
    }
    Ok(())
}

// The paths of the debris that a clean of all would condemn.
pub(crate) fn list_strays(
    alloc: Global,
    debris: &DebrisList,
    jobs: &JobBook,
) -> Result<Vec<Path>, Memory>
    ensures { IfOk result (λ paths. paths.items ≡ strays_in (jobs_of jobs.now) debris.now.list) }
{
    let _most = debris.len();
    let mut paths: Vec<Path> = Vec::new(alloc);
    let mut place = 0;
    'debris: while let Some((path, condemned)) = debris.at(place) {
        push_if(&mut paths, path, is_stray(jobs, path, condemned))?;
        place += 1;
    }
    Ok(paths)
}

// A clean of all condemns its strays, which are listed. Takes no memory.
pub(crate) fn condemn_strays(debris: &mut DebrisList, jobs: &JobBook, strays: &[Path])
    requires { strays.now ≡ strays_in (jobs_of jobs.now) debris.old.list }
    ensures list { debris.new.list ≡ map (condemn (jobs_of jobs.now)) debris.old.list }
    ensures spare { debris.new.spare ≡ debris.old.spare }
{
    debris.is_in_order();
    for path in strays {
        debris.condemn(path, true);
    }
}

// Whether the state store has a row at the path of one that is listed.
fn has_mark(kept: &KeptBook, gone: &Gone) -> bool
    ensures { result ≡ has_mark kept.now.marks gone.now }
{
    kept.get(&gone.path).is_some()
}

// The paths of the rows that are listed at which the state store has a row.
pub(crate) fn kept_among(alloc: Global, kept: &KeptBook, gone: &[Gone]) -> Result<Vec<Path>, Memory>
    ensures { IfOk result (λ paths. paths.items ≡ kept_among kept.now.marks gone.now) }
{
    let mut paths: Vec<Path> = Vec::new(alloc);
    for one in gone {
        push_if(&mut paths, &one.path, has_mark(kept, one))?;
    }
    Ok(paths)
}

// What a dry clean tells.
fn dry_reply(
    alloc: Global,
    rows: &RowBook,
    holds: &HolderBook,
    cutoff: u64,
) -> Result<Reply, Memory>
    ensures { IfOk result (λ said. said ≡ reply.Cleaned true (gone_in cutoff holds.now rows.now) []) }
{
    let rows = list_stale(alloc, rows, holds, cutoff)?;
    Ok(Reply::Cleaned {
        dry: true,
        rows,
        strays: Items::of(Vec::new(alloc)),
    })
}

impl<D, K: Keeper> Parts<D, K> {
    // Tells what a clean would remove, where there is room for the entry.
    fn clean_dry(&mut self, by: By, now: u64, cutoff: u64) -> Reply
        requires reserves { HasReserves self.old }
        requires room { nat_lt self.old.base.limits.history (spent_in self.old + 1) ≡ false }
        requires place { spent_in self.old + 2 ≤ vec_capacity self.old.history }
        ensures { (point : Point) → StandFor self.old point → IsPoint point → IsRoomy self.old.base.limits point → AsksSo point by now (asked.Clean cutoff mode.Dry) self.old self.new (told_store ⟦<K as Keeper>⟧ self.old.keeper) (told_store ⟦<K as Keeper>⟧ self.new.keeper) result }
    {
        let alloc = *self.history.allocator();
        let Ok(reply) = dry_reply(alloc, &self.rows, &self.holds, cutoff) else {
            return Reply::NoMemory;
        };
        let Ok(told) = reply.copy(alloc) else {
            return Reply::NoMemory;
        };
        let mode = CleanMode::Dry;
        self.enter_asked(by, now, Asked::Clean { cutoff, mode }, told);
        reply
    }

    /// Lists the stale rows at a cutoff, and removes them by the mode.
    pub(crate) fn clean(&mut self, by: By, now: u64, cutoff: u64, mode: CleanMode) -> Reply
        requires bound { self.old.first + spent_in self.old + 2 < 2 ^ 64 }
        requires rules { AreRuled (self.old.first + length self.old.history.items) self.old }
        requires reserves { HasReserves self.old }
        ensures { (point : Point) → StandFor self.old point → IsPoint point → IsRoomy self.old.base.limits point → AsksSo point by now (asked.Clean cutoff mode) self.old self.new (told_store ⟦<K as Keeper>⟧ self.old.keeper) (told_store ⟦<K as Keeper>⟧ self.new.keeper) result }
    {
        let entries = self.owed() + 2;
        if !has_place(&mut self.history, true, entries) {
            return Reply::NoMemory;
        }
        if self.lacks_entries(1) {
            return Reply::Full(Limit::History);
        }
        match mode {
            CleanMode::Dry => self.clean_dry(by, now, cutoff),
            CleanMode::Real => self.clean_rows(by, now, cutoff, false),
            CleanMode::All => self.clean_rows(by, now, cutoff, true),
        }
    }
}
