// The calls of a job on its part: each makes one device call, and says how it failed, if it did.
ghost use Rattle.std.specs.Prelude.{◌≡◌, ◌==◌, ◌++◌, false, true};
ghost use Rattle.std.specs.Option.{ForSome};
ghost use Rattle.mat_path.specs.Names.{is_path};
ghost use Rattle.mat_tree.specs.Parts.{folder, link, with_node};
ghost use Rattle.region_port.specs.Calls.{is_file, wiped};
ghost use Rattle.job_run.specs.Failures.{Changes, IsDiskCall};
ghost use Rattle.job_run.specs.Growing.{with_piece};

use crate::failure::did_failure;
use mat_model::Outcome;
use mat_path::{Rel, Target};
use region_port::Region;

/// Leaves no node.
#[tactic(auto, using(crate::proofs::Calling::disk_call, crate::proofs::Calling::wipe_changes))]
pub(crate) fn wipe<R: Region>(region: &mut R) -> Option<Outcome>
    ensures call { IsDiskCall (R.fault_count region.old) (R.fault_count region.new) (R.watch region.old) (R.watch region.new) result }
    ensures place { R.place region.new ≡ R.place region.old }
    ensures part { Changes wiped result (R.part region.old) (R.part region.new) }
{
    let before = region.faults();
    let did = region.wipe();
    did_failure(did, before, region.faults())
}

/// Puts a directory.
#[tactic(auto, using(crate::proofs::Calling::disk_call, crate::proofs::Calling::put_changes))]
pub(crate) fn put_dir<R: Region>(region: &mut R, rel: &Rel) -> Option<Outcome>
    requires { is_path (R.place region.old ++ rel.now) ≡ true }
    ensures call { IsDiskCall (R.fault_count region.old) (R.fault_count region.new) (R.watch region.old) (R.watch region.new) result }
    ensures place { R.place region.new ≡ R.place region.old }
    ensures part { Changes (with_node rel.now folder) result (R.part region.old) (R.part region.new) }
{
    let before = region.faults();
    let did = region.put_dir(rel);
    did_failure(did, before, region.faults())
}

/// Puts a symbolic link.
#[tactic(auto, using(crate::proofs::Calling::disk_call, crate::proofs::Calling::put_changes))]
pub(crate) fn put_link<R: Region>(region: &mut R, rel: &Rel, target: &Target) -> Option<Outcome>
    requires { is_path (R.place region.old ++ rel.now) ≡ true }
    ensures call { IsDiskCall (R.fault_count region.old) (R.fault_count region.new) (R.watch region.old) (R.watch region.new) result }
    ensures place { R.place region.new ≡ R.place region.old }
    ensures part { Changes (with_node rel.now (link target.now)) result (R.part region.old) (R.part region.new) }
{
    let before = region.faults();
    let did = region.put_link(rel, target);
    did_failure(did, before, region.faults())
}

/// Puts the piece of a file that belongs at an offset: the first one puts the file, each further one is added at its end.
#[tactic(auto, using(crate::proofs::Calling::disk_call, crate::proofs::Calling::first_changes, crate::proofs::Calling::next_changes))]
pub(crate) fn put_piece<R: Region>(
    region: &mut R,
    rel: &Rel,
    exec: bool,
    at: u64,
    piece: &[u8],
) -> Option<Outcome>
    requires path { is_path (R.place region.old ++ rel.now) ≡ true }
    requires file { (at == 0) ≡ false → ForSome (R.part region.old) (λ part. is_file (part rel.now) ≡ true) }
    ensures call { IsDiskCall (R.fault_count region.old) (R.fault_count region.new) (R.watch region.old) (R.watch region.new) result }
    ensures place { R.place region.new ≡ R.place region.old }
    ensures part { Changes (with_piece rel.now exec at piece.now) result (R.part region.old) (R.part region.new) }
{
    let before = region.faults();
    if at == 0 {
        let did = region.put_file(rel, exec, piece);
        return did_failure(did, before, region.faults());
    }
    let did = region.append(rel, piece);
    did_failure(did, before, region.faults())
}
