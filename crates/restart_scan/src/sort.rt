// Kept rows beside a disk: those whose trees it has, and those that are lost.
ghost use Rattle.std.specs.Prelude.{◌≡◌, [], true, IfOk, IfErr, OnOk};
ghost use Rattle.mat_io.specs.Causes.{HasCause};
ghost use Rattle.restart_scan.specs.Faults.{IsLookWhy, disk_failed};
ghost use Rattle.restart_scan.specs.Looks.{HasStill, IsNoRougher, IsSettledAt};
ghost use Rattle.restart_scan.specs.Opened.{are_kept_apart};
ghost use Rattle.restart_scan.specs.Rows.{kept_list, kept_view};
ghost use Rattle.restart_scan.specs.Sorting.{AreSettled, AreSorted, IsLookedIn, IsSortedIn};

use crate::kept::Kept;
use crate::look::look_at;
use crate::refusal::ScanRefusal;
use mat_path::{Memory, Path};
use region_port::Disk;
use std::alloc::Global;

/// Kept rows beside a disk.
#[derive(Drop)]
pub(crate) struct Sorted {
    /// Those whose trees it has.
    pub(crate) found: Vec<Kept>,
    /// The paths of those whose trees it hasn't.
    pub(crate) lost: Vec<Path>,
}

// Puts a row to those of its kind.
fn put(sorted: &mut Sorted, one: Kept, has: bool) -> Result<(), Memory>
    ensures { OnOk result (IsSortedIn has (kept_view one) (kept_list sorted.old.found) sorted.old.lost.items (kept_list sorted.new.found) sorted.new.lost.items) }
{
    if has {
        sorted.found.push(one)?;
        return Ok(());
    }
    let Kept { path, .. } = one;
    sorted.lost.push(path)?;
    Ok(())
}

// Looks at a row's part, and puts the row to those of its kind.
fn sort_one<D: Disk>(disk: &mut D, sorted: &mut Sorted, one: Kept) -> Result<(), ScanRefusal>
    requires none_lent { D.lent disk.old ≡ [] }
    ensures put { OnOk result (IsLookedIn (D.content disk.old) (kept_view one) (kept_list sorted.old.found) sorted.old.lost.items (kept_list sorted.new.found) sorted.new.lost.items) }
    ensures settled { OnOk result (IsSettledAt one.path (D.rough disk.new)) }
    ensures content { HasStill (D.content disk.old) (D.content disk.new) }
    ensures lent { D.lent disk.new ≡ [] }
    ensures rough { IsNoRougher (D.rough disk.old) (D.rough disk.new) }
    ensures why { IfErr result (λ why. IsLookWhy why) }
    ensures cause { HasCause (D.fault_count disk.old) (D.fault_count disk.new) (disk_failed result) }
{
    let has = look_at(disk, &one.path, &one.tree)?;
    put(sorted, one, has)?;
    Ok(())
}

/// Looks at the parts of kept rows in their order.
pub(crate) fn sort_out<D: Disk>(
    alloc: Global,
    disk: &mut D,
    kept: Vec<Kept>,
) -> Result<Sorted, ScanRefusal>
    requires none_lent { D.lent disk.old ≡ [] }
    requires apart { are_kept_apart (kept_list kept) ≡ true }
    ensures sorted { IfOk result (λ sorted. AreSorted (D.content disk.old) (kept_list kept) (kept_list sorted.found) sorted.lost.items) }
    ensures settled { IfOk result (λ _. AreSettled (kept_list kept) (D.rough disk.new)) }
    ensures content { HasStill (D.content disk.old) (D.content disk.new) }
    ensures lent { D.lent disk.new ≡ [] }
    ensures rough { IsNoRougher (D.rough disk.old) (D.rough disk.new) }
    ensures why { IfErr result (λ why. IsLookWhy why) }
    ensures cause { HasCause (D.fault_count disk.old) (D.fault_count disk.new) (disk_failed result) }
{
    let mut sorted = Sorted {
        found: Vec::new(alloc),
        lost: Vec::new(alloc),
    };
    for one in kept {
        sort_one(disk, &mut sorted, one)?;
    }
    Ok(sorted)
}
