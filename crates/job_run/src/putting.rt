// The steps of a make that put something: one device call each, on the part.
ghost use Rattle.std.specs.Prelude.{◌≡◌, ◌≤◌, ◌+◌, ℕ, List, Option, Some, None};
ghost use Rattle.std.specs.Option.{ForSome};
ghost use Rattle.job_run.specs.CourseStages.{Leads, MakesPart, making_course};
ghost use Rattle.job_run.specs.Failures.{IsDiskCall};
ghost use Rattle.job_run.specs.Stages.{IsMaking, making_cost};
ghost use Rattle.job_run.specs.States.{Continues, failure_of, region_of};
ghost use Rattle.fetch_port.specs.Fetches.{Blobs};
ghost use Rattle.job_run.specs.Stages.{acts_asks, more_asks};
ghost use Rattle.job_run.specs.States.{state_asks};
ghost use Rattle.job_run.specs.Steps.{FetchingFrom, more_fetching, part_call, state_fetching};

use crate::acts::{held_bytes, held_piece};
use crate::calls;
use crate::going::{after_node, after_piece};
use crate::reading::Reading;
use crate::states::{Doing, Filing, Filling, Order, Source, State};
use mat_path::{Rel, Target};
use region_port::Region;

/// Puts a directory.
pub(crate) fn put_dir<R: Region>(mut region: R, order: Order, rel: Rel) -> State<R>
    requires { IsMaking (R.place region) (R.part region) order (Doing.Dir rel) }
    ensures call { ForSome (region_of result) (λ now. IsDiskCall (R.fault_count region) (R.fault_count now) (R.watch region) (R.watch now) (failure_of result)) }
    ensures goes { Continues (R.place region) order.tree order.lent (making_cost order (Doing.Dir rel)) result }
    ensures asks { state_asks result ≤ acts_asks order.method order.left.items }
    ensures from { (blobs : Option Blobs) → FetchingFrom blobs (state_fetching result) }
    ensures course { Leads part_call (making_course order (Doing.Dir rel)) result }
    ensures makes { MakesPart region (making_course order (Doing.Dir rel)) result }
{
    let failure = calls::put_dir(&mut region, &rel);
    after_node(region, order, failure)
}

/// Puts a symbolic link.
pub(crate) fn put_link<R: Region>(mut region: R, order: Order, rel: Rel, target: Target) -> State<R>
    requires { IsMaking (R.place region) (R.part region) order (Doing.Link rel target) }
    ensures call { ForSome (region_of result) (λ now. IsDiskCall (R.fault_count region) (R.fault_count now) (R.watch region) (R.watch now) (failure_of result)) }
    ensures goes { Continues (R.place region) order.tree order.lent (making_cost order (Doing.Link rel target)) result }
    ensures asks { state_asks result ≤ acts_asks order.method order.left.items }
    ensures from { (blobs : Option Blobs) → FetchingFrom blobs (state_fetching result) }
    ensures course { Leads part_call (making_course order (Doing.Link rel target)) result }
    ensures makes { MakesPart region (making_course order (Doing.Link rel target)) result }
{
    let failure = calls::put_link(&mut region, &rel, &target);
    after_node(region, order, failure)
}

/// Puts the next piece of a file whose bytes the row holds.
pub(crate) fn put_held<R: Region>(
    mut region: R,
    order: Order,
    filing: Filing,
    at: usize,
) -> State<R>
    requires { IsMaking (R.place region) (R.part region) order (Doing.File filing (Filling.Held at)) }
    ensures call { ForSome (region_of result) (λ now. IsDiskCall (R.fault_count region) (R.fault_count now) (R.watch region) (R.watch now) (failure_of result)) }
    ensures goes { Continues (R.place region) order.tree order.lent (making_cost order (Doing.File filing (Filling.Held at))) result }
    ensures asks { state_asks result ≤ acts_asks order.method order.left.items }
    ensures from { (blobs : Option Blobs) → FetchingFrom blobs (state_fetching result) }
    ensures course { Leads part_call (making_course order (Doing.File filing (Filling.Held at))) result }
    ensures makes { MakesPart region (making_course order (Doing.File filing (Filling.Held at))) result }
{
    let bytes = held_bytes(&order.method);
    let piece = held_piece(bytes, at);
    let end = at + piece.len();
    let is_over = end == bytes.len();
    let failure = calls::put_piece(&mut region, &filing.rel, filing.exec, at as u64, piece);
    if is_over {
        return after_node(region, order, failure);
    }
    after_piece(region, order, filing, Filling::Held { at: end }, failure)
}

/// Puts a piece of a file that was read, from an offset on; reading goes on behind it, unless it is the last.
pub(crate) fn put_got<R: Region>(
    mut region: R,
    order: Order,
    filing: Filing,
    from: Source,
    at: u64,
    piece: Vec<u8>,
    more: Option<Reading>,
) -> State<R>
    requires { IsMaking (R.place region) (R.part region) order (Doing.File filing (Filling.Got from at piece more)) }
    ensures call { ForSome (region_of result) (λ now. IsDiskCall (R.fault_count region) (R.fault_count now) (R.watch region) (R.watch now) (failure_of result)) }
    ensures goes { Continues (R.place region) order.tree order.lent (making_cost order (Doing.File filing (Filling.Got from at piece more))) result }
    ensures asks { state_asks result ≤ more_asks order.method from more + acts_asks order.method order.left.items }
    ensures from { (blobs : Option Blobs) → FetchingFrom blobs (more_fetching filing.digest from more) → FetchingFrom blobs (state_fetching result) }
    ensures course { Leads part_call (making_course order (Doing.File filing (Filling.Got from at piece more))) result }
    ensures makes { MakesPart region (making_course order (Doing.File filing (Filling.Got from at piece more))) result }
{
    let failure = calls::put_piece(&mut region, &filing.rel, filing.exec, at, piece.as_slice());
    match more {
        None => after_node(region, order, failure),
        Some(reading) => {
            after_piece(
                region,
                order,
                filing,
                Filling::Due { from, reading },
                failure,
            )
        }
    }
}
