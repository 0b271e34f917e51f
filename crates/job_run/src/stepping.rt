// One step of a job, by its stage.
ghost use Rattle.std.specs.Prelude.{◌≡◌, ◌<◌, ℕ, List, Option, Some, None, true, false, ◌≤◌, ◌+◌};
ghost use Rattle.std.specs.Option.{ForSome, is_some};
ghost use Rattle.mat_tree.specs.declared.flat.Flat.{Flat};
ghost use Rattle.region_port.specs.States.{loan_region, loan_tree};
ghost use Rattle.job_run.specs.CourseStages.{Leads, LendsOn, MakesPart, doing_reading, filling_reading, making_course, state_course, state_reading};
ghost use Rattle.job_run.specs.Failures.{IsDiskCall};
ghost use Rattle.job_run.specs.Stages.{IsMaking, making_cost};
ghost use Rattle.job_run.specs.States.{Continues, failure_of, has_ended, region_of, state_cost};
ghost use Rattle.job_run.specs.Steps.{CallsLoan, CallsPart, DoingAsks, FillingAsks, Stands, StateAsks, doing_spot, filling_spot, loan_call, part_call, state_spot, store_call, told_by};
ghost use Rattle.job_run.specs.Stages.{making_asks};
ghost use Rattle.job_run.specs.States.{state_asks};
ghost use Rattle.job_run.specs.Steps.{FetchingFrom, doing_fetching, filling_fetching, state_fetching};

use crate::ending::{clear, empty, settle, wipe};
use crate::getting::fetch;
use crate::lending::read;
use crate::putting::{put_dir, put_got, put_held, put_link};
use crate::states::{Doing, Filing, Filling, Making, Order, Source, State};
use fetch_port::Fetcher;
use region_port::{ReadLoan, Region};

/// A step on a file.
fn fill<R: Region, F: Fetcher>(
    region: R,
    order: Order,
    filing: Filing,
    how: Filling,
    loan: &mut Option<ReadLoan<R>>,
    fetcher: &mut F,
) -> State<R>
    requires stands { IsMaking (R.place region) (R.part region) order (Doing.File filing how) }
    requires lent { order.lent ≡ is_some loan.old }
    ensures goes { Continues (R.place region) order.tree order.lent (making_cost order (Doing.File filing how)) result }
    ensures loan { is_some loan.new ≡ is_some loan.old }
    ensures on_part { filling_spot how ≡ part_call → CallsPart region result × (loan.new ≡ loan.old) × (fetcher.new ≡ fetcher.old) }
    ensures on_loan { filling_spot how ≡ loan_call → (region_of result ≡ Some region) × CallsLoan ⟦<R as Region>⟧ loan.old loan.new (failure_of result) × (fetcher.new ≡ fetcher.old) }
    ensures on_store { filling_spot how ≡ store_call → (region_of result ≡ Some region) × (loan.new ≡ loan.old) × FillingAsks filing how (told_by ⟦<F as Fetcher>⟧ fetcher.old) (told_by ⟦<F as Fetcher>⟧ fetcher.new) (failure_of result) }
    ensures holds { F.holds fetcher.new ≡ F.holds fetcher.old }
    ensures asks { F.fetches fetcher.new + state_asks result ≤ F.fetches fetcher.old + making_asks order (Doing.File filing how) }
    ensures from { FetchingFrom (F.holds fetcher.old) (filling_fetching filing.digest how) → FetchingFrom (F.holds fetcher.old) (state_fetching result) }
    ensures course { Leads (filling_spot how) (making_course order (Doing.File filing how)) result }
    ensures makes { filling_spot how ≡ part_call → MakesPart region (making_course order (Doing.File filing how)) result }
    ensures lent { filling_spot how ≡ loan_call → LendsOn loan.old (making_course order (Doing.File filing how)) (filling_reading how) result }
{
    match how {
        Filling::Held { at } => put_held(region, order, filing, at),
        Filling::Got {
            from,
            at,
            piece,
            more,
        } => put_got(region, order, filing, from, at, piece, more),
        Filling::Due { from, reading } => match from {
            Source::Store => fetch(region, order, filing, reading, fetcher),
            Source::Loan(rel) => match loan {
                Some(loan) => read(region, order, filing, rel, reading, loan),
                None => unreachable!(),
            },
        },
    }
}

/// A step of a make.
fn make<R: Region, F: Fetcher>(
    making: Making<R>,
    loan: &mut Option<ReadLoan<R>>,
    fetcher: &mut F,
) -> State<R>
    requires stands { IsMaking (R.place making.region) (R.part making.region) making.order making.doing }
    requires lent { making.order.lent ≡ is_some loan.old }
    ensures goes { Continues (R.place making.region) making.order.tree making.order.lent (making_cost making.order making.doing) result }
    ensures loan { is_some loan.new ≡ is_some loan.old }
    ensures on_part { doing_spot making.doing ≡ part_call → CallsPart making.region result × (loan.new ≡ loan.old) × (fetcher.new ≡ fetcher.old) }
    ensures on_loan { doing_spot making.doing ≡ loan_call → (region_of result ≡ Some making.region) × CallsLoan ⟦<R as Region>⟧ loan.old loan.new (failure_of result) × (fetcher.new ≡ fetcher.old) }
    ensures on_store { doing_spot making.doing ≡ store_call → (region_of result ≡ Some making.region) × (loan.new ≡ loan.old) × DoingAsks making.doing (told_by ⟦<F as Fetcher>⟧ fetcher.old) (told_by ⟦<F as Fetcher>⟧ fetcher.new) (failure_of result) }
    ensures holds { F.holds fetcher.new ≡ F.holds fetcher.old }
    ensures asks { F.fetches fetcher.new + state_asks result ≤ F.fetches fetcher.old + making_asks making.order making.doing }
    ensures from { FetchingFrom (F.holds fetcher.old) (doing_fetching making.doing) → FetchingFrom (F.holds fetcher.old) (state_fetching result) }
    ensures course { Leads (doing_spot making.doing) (making_course making.order making.doing) result }
    ensures makes { doing_spot making.doing ≡ part_call → MakesPart making.region (making_course making.order making.doing) result }
    ensures lent { doing_spot making.doing ≡ loan_call → LendsOn loan.old (making_course making.order making.doing) (doing_reading making.doing) result }
{
    let Making {
        region,
        order,
        doing,
    } = making;
    match doing {
        Doing::Dir(rel) => put_dir(region, order, rel),
        Doing::Link(rel, target) => put_link(region, order, rel, target),
        Doing::File(filing, how) => fill(region, order, filing, how, loan, fetcher),
        Doing::Sync => settle(region, order),
    }
}

/// A step of a job.
pub(crate) fn advance<R: Region, F: Fetcher>(
    state: State<R>,
    loan: &mut Option<ReadLoan<R>>,
    fetcher: &mut F,
) -> State<R>
    requires stands { (place : List (List ℕ)) × (goal : Option (List Flat)) × Stands place goal (is_some loan.old) state }
    requires going { has_ended state ≡ false }
    ensures stands { (place : List (List ℕ)) (goal : Option (List Flat)) → Stands place goal (is_some loan.old) state → Stands place goal (is_some loan.old) result }
    ensures less { state_cost result < state_cost state }
    ensures loan { is_some loan.new ≡ is_some loan.old }
    ensures on_part { state_spot state ≡ part_call → ForSome (region_of state) (λ before. CallsPart before result) × (loan.new ≡ loan.old) × (fetcher.new ≡ fetcher.old) }
    ensures on_loan { state_spot state ≡ loan_call → (region_of result ≡ region_of state) × CallsLoan ⟦<R as Region>⟧ loan.old loan.new (failure_of result) × (fetcher.new ≡ fetcher.old) }
    ensures on_store { state_spot state ≡ store_call → (region_of result ≡ region_of state) × (loan.new ≡ loan.old) × StateAsks state (told_by ⟦<F as Fetcher>⟧ fetcher.old) (told_by ⟦<F as Fetcher>⟧ fetcher.new) (failure_of result) }
    ensures holds { F.holds fetcher.new ≡ F.holds fetcher.old }
    ensures asks { F.fetches fetcher.new + state_asks result ≤ F.fetches fetcher.old + state_asks state }
    ensures from { FetchingFrom (F.holds fetcher.old) (state_fetching state) → FetchingFrom (F.holds fetcher.old) (state_fetching result) }
    ensures course { Leads (state_spot state) (state_course state) result }
    ensures makes { state_spot state ≡ part_call → ForSome (region_of state) (λ before. MakesPart before (state_course state) result) }
    ensures lent { state_spot state ≡ loan_call → LendsOn loan.old (state_course state) (state_reading state) result }
{
    match state {
        State::Wiping(region) => wipe(region),
        State::Emptying(region) => empty(region),
        State::Clearing(region, order) => clear(region, order),
        State::Making(making) => make(making, loan, fetcher),
        State::Ended(..) => unreachable!(),
        State::Moving => unreachable!(),
    }
}
