// The first and the last step of a job.
ghost use Rattle.std.specs.Prelude.{◌≡◌, ◌+◌, [], List, Option, Some, None, ◌≤◌};
ghost use Rattle.std.specs.Option.{ForSome};
ghost use Rattle.mat_tree.specs.Parts.{bare};
ghost use Rattle.job_run.specs.CourseStages.{Leads, MakesPart, clearing_course, emptying_course, making_course};
ghost use Rattle.job_run.specs.Courses.{wipe_course};
ghost use Rattle.job_run.specs.Failures.{IsDiskCall};
ghost use Rattle.job_run.specs.Orders.{IsLeft, IsMakeable, acts_cost};
ghost use Rattle.job_run.specs.Stages.{IsMaking, making_cost};
ghost use Rattle.job_run.specs.States.{Continues, Empties, failure_of, region_of};
ghost use Rattle.fetch_port.specs.Fetches.{Blobs};
ghost use Rattle.job_run.specs.Stages.{acts_asks};
ghost use Rattle.job_run.specs.States.{state_asks};
ghost use Rattle.job_run.specs.Steps.{FetchingFrom, part_call, state_fetching};

use crate::calls;
use crate::failure::fault;
use crate::going::{after_node, stop};
use crate::states::{Doing, Order, State};
use mat_model::{Device, Outcome};
use region_port::{Part, Region, Rough, Synced};

/// The first step of a make: no node is left.
pub(crate) fn clear<R: Region>(mut region: R, order: Order) -> State<R>
    requires makeable { IsMakeable (R.place region) order.tree order.method }
    requires left { IsLeft order [] }
    ensures call { ForSome (region_of result) (λ now. IsDiskCall (R.fault_count region) (R.fault_count now) (R.watch region) (R.watch now) (failure_of result)) }
    ensures goes { Continues (R.place region) order.tree order.lent (acts_cost order.left.items + 1) result }
    ensures asks { state_asks result ≤ acts_asks order.method order.left.items }
    ensures from { (blobs : Option Blobs) → FetchingFrom blobs (state_fetching result) }
    ensures course { Leads part_call (clearing_course order) result }
    ensures makes { MakesPart region (clearing_course order) result }
{
    let failure = calls::wipe(&mut region);
    after_node(region, order, failure)
}

/// The last step of a make: all of it is made to last.
pub(crate) fn settle<R: Region>(region: R, order: Order) -> State<R>
    requires { IsMaking (R.place region) (R.part region) order Doing.Sync }
    ensures call { ForSome (region_of result) (λ now. IsDiskCall (R.fault_count region) (R.fault_count now) (R.watch region) (R.watch now) (failure_of result)) }
    ensures goes { Continues (R.place region) order.tree order.lent (making_cost order Doing.Sync) result }
    ensures asks { state_asks result ≡ 0 }
    ensures from { (blobs : Option Blobs) → FetchingFrom blobs (state_fetching result) }
    ensures course { Leads part_call (making_course order Doing.Sync) result }
    ensures makes { MakesPart region (making_course order Doing.Sync) result }
{
    let before = region.faults();
    match Rough::new(region).settle(order.tree) {
        Synced::Settled(settled) => State::Ended(Part::Settled(settled), Outcome::Made),
        Synced::Bare(_) => unreachable!(),
        Synced::Failed(part) => {
            let region = part.into_region();
            let after = region.faults();
            stop(region, fault(Device::Disk, before, after))
        }
        Synced::NoMemory(part) => stop(part.into_region(), Outcome::NoMemory),
    }
}

/// The first step of a job that only wipes.
pub(crate) fn wipe<R: Region>(mut region: R) -> State<R>
    ensures call { ForSome (region_of result) (λ now. IsDiskCall (R.fault_count region) (R.fault_count now) (R.watch region) (R.watch now) (failure_of result)) }
    ensures goes { Empties (R.place region) 2 result }
    ensures asks { state_asks result ≡ 0 }
    ensures from { (blobs : Option Blobs) → FetchingFrom blobs (state_fetching result) }
    ensures course { Leads part_call wipe_course result }
    ensures makes { MakesPart region wipe_course result }
{
    match calls::wipe(&mut region) {
        None => State::Emptying(region),
        Some(why) => stop(region, why),
    }
}

/// The last step of a job that only wipes: that nothing is there is made to last.
pub(crate) fn empty<R: Region>(region: R) -> State<R>
    requires { ForSome (R.part region) (λ part. part ≡ bare) }
    ensures call { ForSome (region_of result) (λ now. IsDiskCall (R.fault_count region) (R.fault_count now) (R.watch region) (R.watch now) (failure_of result)) }
    ensures goes { Empties (R.place region) 1 result }
    ensures asks { state_asks result ≡ 0 }
    ensures from { (blobs : Option Blobs) → FetchingFrom blobs (state_fetching result) }
    ensures course { Leads part_call emptying_course result }
    ensures makes { MakesPart region emptying_course result }
{
    let before = region.faults();
    match Rough::new(region).empty() {
        Synced::Bare(emptied) => State::Ended(Part::Bare(emptied), Outcome::Wiped),
        Synced::Settled(_) => unreachable!(),
        Synced::Failed(part) => {
            let region = part.into_region();
            let after = region.faults();
            stop(region, fault(Device::Disk, before, after))
        }
        Synced::NoMemory(part) => stop(part.into_region(), Outcome::NoMemory),
    }
}
