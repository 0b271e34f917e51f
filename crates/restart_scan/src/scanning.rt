// The calls of an opening: one on the state store, and one on the disk.
ghost use Rattle.std.specs.Prelude.{◌≡◌, ◌≤◌, ℕ, [], List, length, true, false, map, IfOk, IfErr};
ghost use Rattle.std.specs.Option.{option_map};
ghost use Rattle.mat_io.specs.Causes.{HasCause};
ghost use Rattle.keep_port.specs.Rows.{AreThese, FailsSo, after_call, ascend};
ghost use Rattle.mat_path.specs.Covering.{covering};
ghost use Rattle.mat_model.specs.Openings.{IsOpening};
ghost use Rattle.region_port.specs.Strays.{AreFound};
ghost use Rattle.restart_scan.specs.Opened.{AreKept, IsMadeOf, IsOf};
ghost use Rattle.restart_scan.specs.Rows.{kept_list};
ghost use Rattle.restart_scan.specs.Scans.{AnswersTold, IsDiskWhy, IsKeeperWhy, NotesDisk, CallsDisk, HasStrays, NotesKeeper, ReadsTold, CallsKeeper, IsDiskNoted, IsKeeperNoted, IsLessLost, IsRemoved, LosesTold, count_of, watch_less};
ghost use Rattle.restart_scan.specs.Faults.{IsLookWhy, disk_failed, keeper_failed};
ghost use Rattle.restart_scan.specs.Looks.{HasStill, IsNoRougher};
ghost use Rattle.restart_scan.specs.Sorting.{AreChecked, AreLost, AreLostTold};
ghost use Rattle.restart_scan.specs.Stores.{Stores, kept_rows_of};

use crate::kept::Kept;
use crate::opening::{opened, paths_of};
use crate::reading::read_rows;
use crate::refusal::ScanRefusal;
use crate::sort::{Sorted, sort_out};
use keep_port::{All, Keeper, RawRow};
use mat_io::Did;
use mat_model::{Device, FaultNote, Opening};
use mat_path::{Items, Path};
use region_port::{Disk, Strays};
use std::alloc::Global;

// The rows of the state store.
fn told_rows<K: Keeper>(keeper: &mut K) -> Result<Items<RawRow>, ScanRefusal>
    ensures rows { IfOk result (λ rows. AreThese (K.kept keeper.old) rows) }
    ensures order { IfOk result (λ rows. ascend rows ≡ true) }
    ensures only { disk_failed result ≡ false }
    ensures why { IfErr result (λ why. IsKeeperWhy why) }
    ensures kept { K.kept keeper.new ≡ K.kept keeper.old }
    ensures cause { HasCause (K.fault_count keeper.old) (K.fault_count keeper.new) (keeper_failed result) }
    ensures note { NotesKeeper (K.fault_count keeper.old) (K.fault_count keeper.new) result }
    ensures watch { K.watch keeper.new ≡ option_map after_call (K.watch keeper.old) }
    ensures fails { FailsSo (K.watch keeper.old) (keeper_failed result) }
{
    let before = keeper.faults();
    match keeper.all() {
        All::Rows(rows) => Ok(rows),
        All::Failed => Err(ScanRefusal::KeeperFault(FaultNote {
            device: Device::Keeper,
            before,
            after: keeper.faults(),
        })),
        All::NoMemory => Err(ScanRefusal::NoMemory),
    }
}

// The kept rows in path order, or the first refusal of the state store and its rows.
#[tactic(auto, using(crate::proofs::Telling::reads_told, crate::proofs::Telling::refuses_told, crate::proofs::Telling::stored_rows))]
fn kept_of<K: Keeper>(
    alloc: Global,
    keeper: &mut K,
    most: u64,
    identity: u64,
) -> Result<Vec<Kept>, ScanRefusal>
    ensures told { ReadsTold most identity (K.kept keeper.old) result }
    ensures ready { IfOk result (λ rows. AreKept (kept_list rows)) }
    ensures few { IfOk result (λ rows. length rows.items ≤ most) }
    ensures store { IfOk result (λ rows. Stores identity (K.kept keeper.old) (kept_list rows)) }
    ensures only { disk_failed result ≡ false }
    ensures kept { K.kept keeper.new ≡ K.kept keeper.old }
    ensures cause { HasCause (K.fault_count keeper.old) (K.fault_count keeper.new) (keeper_failed result) }
    ensures note { NotesKeeper (K.fault_count keeper.old) (K.fault_count keeper.new) result }
    ensures watch { K.watch keeper.new ≡ option_map after_call (K.watch keeper.old) }
    ensures fails { FailsSo (K.watch keeper.old) (keeper_failed result) }
{
    let raws = told_rows(keeper)?;
    read_rows(alloc, most, identity, raws.as_slice())
}

// The strays of a disk past the paths of kept rows.
#[tactic(auto, using(crate::proofs::Calls::one_call, crate::proofs::Calls::wanted_call))]
fn strays_past<D: Disk>(disk: &mut D, known: &[Path]) -> Result<Items<Path>, ScanRefusal>
    requires none_lent { D.lent disk.old ≡ [] }
    requires apart { (path : List (List ℕ)) → covering path known.now ≤ 1 }
    ensures found { IfOk result (λ found. AreFound known.now (D.content disk.old) found) }
    ensures why { IfErr result (λ why. IsDiskWhy why) }
    ensures content { D.content disk.new ≡ D.content disk.old }
    ensures lent { D.lent disk.new ≡ D.lent disk.old }
    ensures rough { D.rough disk.new ≡ D.rough disk.old }
    ensures cause { HasCause (D.fault_count disk.old) (D.fault_count disk.new) (disk_failed result) }
    ensures note { NotesDisk (D.fault_count disk.old) (D.fault_count disk.new) result }
    ensures call { CallsDisk result (D.watch disk.old) (D.watch disk.new) }
{
    let before = disk.faults();
    match disk.strays(known) {
        Strays::Found(found) => Ok(found),
        Strays::Failed => Err(ScanRefusal::DiskFault(FaultNote {
            device: Device::Disk,
            before,
            after: disk.faults(),
        })),
        Strays::NoMemory => Err(ScanRefusal::NoMemory),
    }
}

// The opening of kept rows on a disk, of which none is lost.
#[tactic(auto, using(crate::proofs::Found::kept_once, crate::proofs::Found::is_ready, crate::proofs::LostLemmas::plain_strays, crate::proofs::Calls::no_call, crate::proofs::Calls::call_then_want))]
fn opened_on<D: Disk>(alloc: Global, disk: &mut D, kept: Vec<Kept>) -> Result<Opening, ScanRefusal>
    requires none_lent { D.lent disk.old ≡ [] }
    requires ready { AreKept (kept_list kept) }
    ensures right { IfOk result (λ opening. IsOpening opening) }
    ensures made { IfOk result (λ opening. IsMadeOf (kept_list kept) [] opening.strays opening) }
    ensures strays { IfOk result (λ opening. HasStrays (D.content disk.old) opening) }
    ensures why { IfErr result (λ why. IsDiskWhy why) }
    ensures content { D.content disk.new ≡ D.content disk.old }
    ensures lent { D.lent disk.new ≡ D.lent disk.old }
    ensures rough { D.rough disk.new ≡ D.rough disk.old }
    ensures cause { HasCause (D.fault_count disk.old) (D.fault_count disk.new) (disk_failed result) }
    ensures note { NotesDisk (D.fault_count disk.old) (D.fault_count disk.new) result }
    ensures call { CallsDisk result (D.watch disk.old) (D.watch disk.new) }
{
    let known = paths_of(alloc, kept.as_slice())?;
    let strays = strays_past(disk, known.as_slice())?;
    let lost = Items::of(Vec::new(alloc));
    Ok(opened(alloc, kept, lost, strays)?)
}

// The opening of kept rows on a disk, of which those are lost whose trees it hasn't.
#[tactic(auto, using(crate::proofs::Found::kept_once, crate::proofs::LostLemmas::look_why))]
fn looked_on<D: Disk>(alloc: Global, disk: &mut D, kept: Vec<Kept>) -> Result<Opening, ScanRefusal>
    requires none_lent { D.lent disk.old ≡ [] }
    requires ready { AreKept (kept_list kept) }
    ensures right { IfOk result (λ opening. IsOpening opening) }
    ensures of { IfOk result (λ opening. IsOf (kept_list kept) opening) }
    ensures lost { IfOk result (λ opening. AreLost (D.content disk.old) (kept_list kept) opening.lost) }
    ensures checked { IfOk result (λ opening. AreChecked (D.content disk.new) (D.rough disk.new) opening) }
    ensures strays { IfOk result (λ opening. HasStrays (D.content disk.old) opening) }
    ensures count { IfOk result (λ opening. count_of opening ≡ length kept.items) }
    ensures why { IfErr result (λ why. IsLookWhy why) }
    ensures content { HasStill (D.content disk.old) (D.content disk.new) }
    ensures lent { D.lent disk.new ≡ D.lent disk.old }
    ensures rough { IsNoRougher (D.rough disk.old) (D.rough disk.new) }
    ensures cause { HasCause (D.fault_count disk.old) (D.fault_count disk.new) (disk_failed result) }
{
    let known = paths_of(alloc, kept.as_slice())?;
    let strays = strays_past(disk, known.as_slice())?;
    let Sorted { found, lost } = sort_out(alloc, disk, kept)?;
    Ok(opened(alloc, found, Items::of(lost), strays)?)
}

// Removes the lost rows from the state store, if there are any.
fn remove_lost<K: Keeper>(keeper: &mut K, lost: &[Path]) -> Result<(), ScanRefusal>
    ensures removed { IsRemoved lost.now result (K.kept keeper.old) (K.kept keeper.new) }
    ensures why { IfErr result (λ why. IsKeeperWhy why) }
    ensures cause { HasCause (K.fault_count keeper.old) (K.fault_count keeper.new) (keeper_failed result) }
    ensures note { NotesKeeper (K.fault_count keeper.old) (K.fault_count keeper.new) result }
    ensures watch { K.watch keeper.new ≡ watch_less lost.now (K.watch keeper.old) }
    ensures fails { keeper_failed result ≡ true → FailsSo (K.watch keeper.old) true }
{
    if lost.is_empty() {
        return Ok(());
    }
    let before = keeper.faults();
    match keeper.remove(lost) {
        Did::Done => Ok(()),
        Did::Failed => Err(ScanRefusal::KeeperFault(FaultNote {
            device: Device::Keeper,
            before,
            after: keeper.faults(),
        })),
        Did::NoMemory => Err(ScanRefusal::NoMemory),
    }
}

// Opens with a look at the parts of the kept rows: the lost ones are removed from the state store.
fn scan_parts<D: Disk, K: Keeper>(
    alloc: Global,
    keeper: &mut K,
    disk: &mut D,
    most: u64,
    identity: u64,
) -> Result<Opening, ScanRefusal>
    requires none_lent { D.lent disk.old ≡ [] }
    ensures right { IfOk result (λ opening. IsOpening opening) }
    ensures answers { AnswersTold most identity (K.kept keeper.old) result }
    ensures lost { IfOk result (λ opening. LosesTold most identity (K.kept keeper.old) (D.content disk.old) opening) }
    ensures gone { IfOk result (λ opening. AreLostTold identity (K.kept keeper.old) (D.content disk.old) opening.lost) }
    ensures checked { IfOk result (λ opening. AreChecked (D.content disk.new) (D.rough disk.new) opening) }
    ensures store { IfOk result (λ opening. Stores identity (K.kept keeper.new) (kept_rows_of opening)) }
    ensures few { IfOk result (λ opening. count_of opening ≤ most) }
    ensures strays { IfOk result (λ opening. HasStrays (D.content disk.old) opening) }
    ensures kept { IsLessLost result (K.kept keeper.old) (K.kept keeper.new) }
    ensures keeper_cause { HasCause (K.fault_count keeper.old) (K.fault_count keeper.new) (keeper_failed result) }
    ensures keeper_note { IfErr result (λ why. IsKeeperNoted (K.fault_count keeper.old) (K.fault_count keeper.new) why) }
    ensures keeper_watch { CallsKeeper result (K.watch keeper.old) (K.watch keeper.new) }
    ensures keeper_fails { FailsSo (K.watch keeper.old) (keeper_failed result) }
    ensures content { HasStill (D.content disk.old) (D.content disk.new) }
    ensures lent { D.lent disk.new ≡ D.lent disk.old }
    ensures rough { IsNoRougher (D.rough disk.old) (D.rough disk.new) }
    ensures disk_cause { HasCause (D.fault_count disk.old) (D.fault_count disk.new) (disk_failed result) }
    ensures disk_note { IfErr result (λ why. IsDiskNoted why) }
{
    let kept = kept_of(alloc, keeper, most, identity)?;
    let opening = looked_on(alloc, disk, kept)?;
    remove_lost(keeper, opening.lost.as_slice())?;
    Ok(opening)
}

// Opens without a look at the parts. It makes one call on the state store and then, where its rows have no refusal, one on the disk; the first refusal counts, in this order: the call on
// the state store, too many rows, the first bad row in the order of the state store, the first overlapping pair in path order,
// the call on the disk.
#[tactic(auto, using(crate::proofs::Telling::stored_opening, crate::proofs::Telling::told_err, crate::proofs::Telling::answers_told, crate::proofs::Telling::no_disk_call, crate::proofs::Telling::few_rows, crate::proofs::Telling::disk_no_keeper, crate::proofs::Telling::keeper_no_note))]
fn scan_rows<D: Disk, K: Keeper>(
    alloc: Global,
    keeper: &mut K,
    disk: &mut D,
    most: u64,
    identity: u64,
) -> Result<Opening, ScanRefusal>
    requires none_lent { D.lent disk.old ≡ [] }
    ensures right { IfOk result (λ opening. IsOpening opening) }
    ensures answers { AnswersTold most identity (K.kept keeper.old) result }
    ensures lost { IfOk result (λ opening. opening.lost ≡ []) }
    ensures store { IfOk result (λ opening. Stores identity (K.kept keeper.new) (kept_rows_of opening)) }
    ensures few { IfOk result (λ opening. count_of opening ≤ most) }
    ensures strays { IfOk result (λ opening. HasStrays (D.content disk.old) opening) }
    ensures kept { K.kept keeper.new ≡ K.kept keeper.old }
    ensures keeper_cause { HasCause (K.fault_count keeper.old) (K.fault_count keeper.new) (keeper_failed result) }
    ensures keeper_note { NotesKeeper (K.fault_count keeper.old) (K.fault_count keeper.new) result }
    ensures keeper_watch { K.watch keeper.new ≡ option_map after_call (K.watch keeper.old) }
    ensures keeper_fails { FailsSo (K.watch keeper.old) (keeper_failed result) }
    ensures content { D.content disk.new ≡ D.content disk.old }
    ensures lent { D.lent disk.new ≡ D.lent disk.old }
    ensures rough { D.rough disk.new ≡ D.rough disk.old }
    ensures disk_cause { HasCause (D.fault_count disk.old) (D.fault_count disk.new) (disk_failed result) }
    ensures disk_note { NotesDisk (D.fault_count disk.old) (D.fault_count disk.new) result }
    ensures disk_call { CallsDisk result (D.watch disk.old) (D.watch disk.new) }
{
    let kept = kept_of(alloc, keeper, most, identity)?;
    opened_on(alloc, disk, kept)
}

/// How a daemon is opened: the number of the folder that its kept rows belong to, and whether their parts are looked at.
#[derive(Clone, Copy, Debug, PartialEq, Eq)]
pub struct Entrance {
    pub identity: u64,
    pub check: bool,
}

/// Opens a daemon: with the kept rows of the state store, which are at most `rows` and belong to the folder with the number of the
/// entrance, and with the strays of the disk past their paths.
///
/// With a check each kept row's part is then taken in path order, synced, listed, read where it is listed as the row's tree, and given back. A row is
/// lost where its part hasn't its tree, and the lost rows are removed from the state store in one call. What is out is given back
/// before any refusal.
///
/// The first refusal counts, in this order: the call on the state store, too many rows, the first bad row in the order of the
/// state store, the first overlapping pair in path order, the disk's search for strays, the calls of the check, the removal.
#[tactic(auto, using(crate::proofs::ScanLemmas::less_none, crate::proofs::ScanLemmas::noted_first, crate::proofs::ScanLemmas::calls_once, crate::proofs::ScanLemmas::still_same, crate::proofs::ScanLemmas::no_rougher_same, crate::proofs::ScanLemmas::noted_disk))]
pub fn scan<D: Disk, K: Keeper>(
    alloc: Global,
    keeper: &mut K,
    disk: &mut D,
    rows: u64,
    entrance: Entrance,
) -> Result<Opening, ScanRefusal>
    requires none_lent { D.lent disk.old ≡ [] }
    ensures right { IfOk result (λ opening. IsOpening opening) }
    ensures answers { AnswersTold rows entrance.identity (K.kept keeper.old) result }
    ensures unlooked { entrance.check ≡ false → IfOk result (λ opening. opening.lost ≡ []) }
    ensures lost { entrance.check ≡ true → IfOk result (λ opening. LosesTold rows entrance.identity (K.kept keeper.old) (D.content disk.old) opening) }
    ensures gone { entrance.check ≡ true → IfOk result (λ opening. AreLostTold entrance.identity (K.kept keeper.old) (D.content disk.old) opening.lost) }
    ensures checked { entrance.check ≡ true → IfOk result (λ opening. AreChecked (D.content disk.new) (D.rough disk.new) opening) }
    ensures store { IfOk result (λ opening. Stores entrance.identity (K.kept keeper.new) (kept_rows_of opening)) }
    ensures few { IfOk result (λ opening. count_of opening ≤ rows) }
    ensures strays { IfOk result (λ opening. HasStrays (D.content disk.old) opening) }
    ensures kept { IsLessLost result (K.kept keeper.old) (K.kept keeper.new) }
    ensures keeper_cause { HasCause (K.fault_count keeper.old) (K.fault_count keeper.new) (keeper_failed result) }
    ensures keeper_note { IfErr result (λ why. IsKeeperNoted (K.fault_count keeper.old) (K.fault_count keeper.new) why) }
    ensures keeper_watch { CallsKeeper result (K.watch keeper.old) (K.watch keeper.new) }
    ensures keeper_fails { FailsSo (K.watch keeper.old) (keeper_failed result) }
    ensures one_keeper_call { entrance.check ≡ false → K.watch keeper.new ≡ option_map after_call (K.watch keeper.old) }
    ensures content { HasStill (D.content disk.old) (D.content disk.new) }
    ensures lent { D.lent disk.new ≡ D.lent disk.old }
    ensures rough { IsNoRougher (D.rough disk.old) (D.rough disk.new) }
    ensures disk_cause { HasCause (D.fault_count disk.old) (D.fault_count disk.new) (disk_failed result) }
    ensures disk_note { IfErr result (λ why. IsDiskNoted why) }
    ensures same_content { entrance.check ≡ false → D.content disk.new ≡ D.content disk.old }
    ensures same_rough { entrance.check ≡ false → D.rough disk.new ≡ D.rough disk.old }
    ensures disk_call { entrance.check ≡ false → CallsDisk result (D.watch disk.old) (D.watch disk.new) }
{
    if entrance.check {
        return scan_parts(alloc, keeper, disk, rows, entrance.identity);
    }
    scan_rows(alloc, keeper, disk, rows, entrance.identity)
}
