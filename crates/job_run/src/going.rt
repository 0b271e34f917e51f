// How a job goes on behind a device call, and how it stops.
ghost use Rattle.std.specs.Prelude.{◌≡◌, ◌<◌, ◌+◌, ℕ, List, Option, Some, None, true, ◌≤◌};
ghost use Rattle.mat_tree.specs.declared.flat.Flat.{Flat};
ghost use Rattle.std.specs.Option.{is_some};
ghost use Rattle.region_port.specs.States.{state_region};
ghost use Rattle.job_run.specs.CourseStages.{IsBegun, Leads, making_course, state_course};
ghost use Rattle.job_run.specs.Courses.{Course};
ghost use Rattle.job_run.specs.Failures.{IsDiskWhy};
ghost use Rattle.job_run.specs.Orders.{acts_cost};
ghost use Rattle.job_run.specs.Stages.{IsBehind, IsMaking, making_cost};
ghost use Rattle.job_run.specs.States.{Continues, IsStopped, failing, failure_of, region_of};
ghost use Rattle.fetch_port.specs.Fetches.{Blobs};
ghost use Rattle.job_run.specs.Stages.{acts_asks, making_asks};
ghost use Rattle.job_run.specs.States.{state_asks};
ghost use Rattle.job_run.specs.Steps.{FetchingFrom, Spot, doing_fetching, doing_spot, filling_fetching, filling_spot, state_fetching, state_spot};

use crate::acts;
use crate::states::{Doing, Filing, Filling, Making, Order, State};
use mat_model::Outcome;
use region_port::{Part, Region, Rough};

/// A job that ends with a failure.
pub(crate) fn stop<R: Region>(region: R, outcome: Outcome) -> State<R>
    ensures stopped { IsStopped region outcome result }
    ensures course { is_some (failing outcome) ≡ true → (spot : Spot) (course : Course) → Leads spot course result }
    ensures asks { state_asks result ≡ 0 }
    ensures from { (blobs : Option Blobs) → FetchingFrom blobs (state_fetching result) }
{
    State::Ended(Part::Rough(Rough::new(region)), outcome)
}

/// A make at the act behind a node that was put.
pub(crate) fn go_on<R: Region>(region: R, mut order: Order) -> Making<R>
    requires { IsBehind (R.place region) (R.part region) order }
    ensures region { result.region ≡ region }
    ensures tree { result.order.tree ≡ order.tree }
    ensures lent { result.order.lent ≡ order.lent }
    ensures stands { IsMaking (R.place region) (R.part region) result.order result.doing }
    ensures cost { making_cost result.order result.doing ≡ acts_cost order.left.items }
    ensures asks { making_asks result.order result.doing ≡ acts_asks order.method order.left.items }
    ensures from { (blobs : Option Blobs) → FetchingFrom blobs (doing_fetching result.doing) }
    ensures begun { IsBegun order (doing_spot result.doing) (making_course result.order result.doing) }
{
    let doing = acts::next(&mut order);
    Making {
        region,
        order,
        doing,
    }
}

/// What a put of a node leads to, by how the call failed.
pub(crate) fn after_node<R: Region>(region: R, order: Order, failure: Option<Outcome>) -> State<R>
    requires behind { failure ≡ None → IsBehind (R.place region) (R.part region) order }
    requires why { IsDiskWhy failure }
    ensures region { region_of result ≡ Some region }
    ensures failure { failure_of result ≡ failure }
    ensures goes { (cost : ℕ) → acts_cost order.left.items < cost → Continues (R.place region) order.tree order.lent cost result }
    ensures asks { state_asks result ≤ acts_asks order.method order.left.items }
    ensures from { (blobs : Option Blobs) → FetchingFrom blobs (state_fetching result) }
    ensures begun { failure ≡ None → IsBegun order (state_spot result) (state_course result) }
{
    match failure {
        None => State::Making(go_on(region, order)),
        Some(why) => stop(region, why),
    }
}

/// What a put of a piece that isn't the last leads to, by how the call failed; the file goes on so.
pub(crate) fn after_piece<R: Region>(
    region: R,
    order: Order,
    filing: Filing,
    how: Filling,
    failure: Option<Outcome>,
) -> State<R>
    requires stands { failure ≡ None → IsMaking (R.place region) (R.part region) order (Doing.File filing how) }
    requires why { IsDiskWhy failure }
    ensures region { region_of result ≡ Some region }
    ensures failure { failure_of result ≡ failure }
    ensures goes { (cost : ℕ) → making_cost order (Doing.File filing how) < cost → Continues (R.place region) order.tree order.lent cost result }
    ensures asks { state_asks result ≤ making_asks order (Doing.File filing how) }
    ensures from { (blobs : Option Blobs) → FetchingFrom blobs (filling_fetching filing.digest how) → FetchingFrom blobs (state_fetching result) }
    ensures stays { failure ≡ None → (state_course result ≡ making_course order (Doing.File filing how)) × (state_spot result ≡ filling_spot how) }
{
    match failure {
        None => State::Making(Making {
            region,
            order,
            doing: Doing::File(filing, how),
        }),
        Some(why) => stop(region, why),
    }
}
