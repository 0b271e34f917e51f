// The next device call of a job is made to fail, on regions in memory.
ghost use Rattle.std.specs.Prelude.{◌≡◌, ℕ, List, Option, Some, true};
ghost use Rattle.std.specs.Option.{is_some};
ghost use Rattle.mat_tree.specs.declared.flat.Flat.{Flat};
ghost use Rattle.job_run.specs.Arming.{ArmsAt, ArmsLoan, ArmsNext, IsArmed};
ghost use Rattle.job_run.specs.CourseStages.{state_course, state_reading};
ghost use Rattle.job_run.specs.Jobs.{Counts};
ghost use Rattle.job_run.specs.States.{failure_of, has_ended, region_of, state_asks, state_cost};
ghost use Rattle.job_run.specs.Steps.{Stands, doing_spot, loan_call, state_fetching, state_spot};

use crate::states::{Doing, Filling, Source, State};
use mat_io::Arm;
use region_port::{MemRegion, ReadLoan};

/// Makes the next call on a region fail and change nothing.
fn arm_region(region: &mut MemRegion)
    ensures { IsArmed region.old region.new }
{
    region.arm();
}

/// The same of the part that is lent.
fn arm_loan(loan: &mut Option<ReadLoan<MemRegion>>)
    requires { is_some loan.old ≡ true }
    ensures { ArmsLoan loan.old loan.new }
{
    match loan {
        Some(loan) => loan.arm(),
        None => unreachable!(),
    }
}

/// The same of what a make calls at an act: its region, the part that is lent, or the store, which stays as it is.
fn arm_doing(doing: &Doing, region: &mut MemRegion, loan: &mut Option<ReadLoan<MemRegion>>)
    requires { doing_spot doing.now ≡ loan_call → is_some loan.old ≡ true }
    ensures { ArmsAt (doing_spot doing.now) (Some region.old) (Some region.new) loan.old loan.new }
{
    match doing {
        Doing::File(_, Filling::Due { from, .. }) => match from {
            Source::Store => {}
            Source::Loan(_) => arm_loan(loan),
        },
        _ => arm_region(region),
    }
}

/// The same of what a job calls at a stage.
pub(crate) fn arm_stage(state: &mut State<MemRegion>, loan: &mut Option<ReadLoan<MemRegion>>)
    requires { (place : List (List ℕ)) × (goal : Option (List Flat)) × Stands place goal (is_some loan.old) state.old }
    ensures stands { (place : List (List ℕ)) (goal : Option (List Flat)) → Stands place goal (is_some loan.old) state.old → Stands place goal (is_some loan.new) state.new }
    ensures counts { Counts state.old loan.old → Counts state.new loan.new }
    ensures armed { ArmsNext (has_ended state.old) (state_spot state.old) (region_of state.old) (region_of state.new) loan.old loan.new }
    ensures failure { failure_of state.new ≡ failure_of state.old }
    ensures going { has_ended state.new ≡ has_ended state.old }
    ensures spot { state_spot state.new ≡ state_spot state.old }
    ensures cost { state_cost state.new ≡ state_cost state.old }
    ensures asks { state_asks state.new ≡ state_asks state.old }
    ensures fetching { state_fetching state.new ≡ state_fetching state.old }
    ensures course { state_course state.new ≡ state_course state.old }
    ensures reading { state_reading state.new ≡ state_reading state.old }
{
    match state {
        State::Wiping(region) => arm_region(region),
        State::Emptying(region) => arm_region(region),
        State::Clearing(region, _) => arm_region(region),
        State::Making(making) => arm_doing(&making.doing, &mut making.region, loan),
        State::Ended(..) => {}
        State::Moving => {}
    }
}
