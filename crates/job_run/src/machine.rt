// The stages of a job put together: what it is for, and the stage that it is at.
ghost use Rattle.std.specs.Prelude.{◌≡◌, ◌<◌, ◌++◌, ◌∷◌, [], if◌then◌else◌, ℕ, List, Option, Some, None, true, false};
ghost use Rattle.std.specs.Option.{ForSome, is_some};
ghost use Rattle.std.specs.List.{list_all};
ghost use Rattle.mat_tree.specs.Trees.{is_placed};
ghost use Rattle.region_port.specs.States.{rough_region, state_region};
ghost use Rattle.write_plan.specs.Plans.{plan_of};
ghost use Rattle.job_run.specs.Courses.{make_course, wipe_course};
ghost use Rattle.job_run.specs.Along.{CallsItsLoan, CallsItsPart, CallsItsStore, GoesAlong, MakesIts, ReadsOn};
ghost use Rattle.job_run.specs.Jobs.{IsJob, machine_asks, machine_card, machine_cost, machine_course, machine_failure, machine_fetching, machine_goal, machine_loan, machine_next, machine_over, machine_reading, machine_region, machine_spot, state_next};
ghost use Rattle.job_run.specs.Done.{is_make, task_path};
ghost use Rattle.job_run.specs.States.{HasEnded, failing, region_of};
ghost use Rattle.job_run.specs.Arming.{ArmsNext};
ghost use Rattle.job_run.specs.Asking.{asks_of};
ghost use Rattle.job_run.specs.Moves.{Causes, Moves, around};
ghost use Rattle.job_run.specs.Orders.{IsLeft, IsMakeable, is_right};
ghost use Rattle.job_run.specs.Seen.{seen};
ghost use Rattle.job_run.specs.Steps.{Asks, CallsLoan, CallsRegion, LoanStays, doing_spot, source_spot, spot_next, loan_call, part_call, store_call, told_by};

use crate::arming::arm_stage;
use crate::job::{Done, Next, Stepped};
use crate::states::{Doing, Filling, Making, Order, Source, State};
use crate::stepping::advance;
use fetch_port::Fetcher;
use mat_model::{Card, Outcome};
use mat_tree::Tree;
use region_port::{MemRegion, Part, ReadLoan, Region, Rough};
use std::collections::VecDeque;
use std::mem;
use std::snapshot::Snapshot;
use write_plan::{Act, Method};

/// What a job is to leave at its path.
#[derive(Drop)]
pub enum Goal {
    /// This tree.
    Tree(Tree),
    /// Nothing.
    Nothing,
}

/// A job whose facts stand in contracts: each call asks for them, and each step keeps them.
#[derive(Drop)]
pub(crate) struct Machine<R: Region> {
    card: Card,
    goal: Snapshot<Goal>,
    loan: Option<ReadLoan<R>>,
    state: State<R>,
}

/// The device that a stage calls next.
fn next_of<R: Region>(state: &State<R>) -> Next
    ensures { result ≡ state_next state.now }
{
    match state {
        State::Wiping(_) => Next::Disk,
        State::Emptying(_) => Next::Disk,
        State::Clearing(..) => Next::Disk,
        State::Making(making) => doing_next(&making.doing),
        State::Ended(..) => Next::Nothing,
        State::Moving => Next::Nothing,
    }
}

/// The device that a make calls at an act.
fn doing_next(doing: &Doing) -> Next
    ensures { result ≡ spot_next (doing_spot doing.now) }
{
    match doing {
        Doing::File(_, Filling::Due { from, .. }) => source_next(from),
        _ => Next::Disk,
    }
}

/// The device that bytes are read from.
fn source_next(source: &Source) -> Next
    ensures { result ≡ spot_next (source_spot source.now) }
{
    match source {
        Source::Store => Next::Store,
        Source::Loan(_) => Next::Disk,
    }
}

/// A make before its first step: the wipe, which is its first act, is left to that step.
fn begin(card: &Card, tree: Tree, method: Method, acts: Vec<Act>, lent: bool) -> Order
    requires places { list_all (is_placed (task_path card.now.task)) tree ≡ true }
    requires bytes { list_all (is_right method) tree ≡ true }
    requires plan { acts.items ≡ plan_of tree method lent }
    ensures makeable { IsMakeable (task_path card.now.task) result.tree result.method }
    ensures left { IsLeft result [] }
    ensures tree { result.tree ≡ tree }
    ensures lent { result.lent ≡ lent }
    ensures way { result.method ≡ method }
{
    let _ = card;
    let _ = tree.root();
    let mut left = VecDeque::from(acts);
    let _ = left.pop_front();
    Order {
        tree,
        method,
        lent,
        left,
    }
}

/// Puts the stage behind a step in the place of the one that is being moved.
fn settle_in<R: Region>(place: &mut State<R>, next: State<R>)
    requires { place.old ≡ State.Moving }
    ensures { place.new ≡ next }
{
    match mem::replace(place, next) {
        State::Moving => {}
        _ => unreachable!(),
    }
}

/// The part of a stage, as it is.
fn part_of<R: Region>(state: State<R>) -> Part<R>
    requires { is_some (region_of state) ≡ true }
    ensures { region_of state ≡ Some (state_region result) }
{
    match state {
        State::Wiping(region) => Part::Rough(Rough::new(region)),
        State::Emptying(region) => Part::Rough(Rough::new(region)),
        State::Clearing(region, _) => Part::Rough(Rough::new(region)),
        State::Making(making) => Part::Rough(Rough::new(making.region)),
        State::Ended(part, _) => part,
        State::Moving => unreachable!(),
    }
}

impl<R: Region> Machine<R> {
    /// A job that leaves nothing at the path of its part. Takes no memory.
    pub(crate) fn wipe(card: Card, part: Rough<R>) -> Machine<R>
        requires task { is_make card.task ≡ false }
        requires place { R.place (rough_region part) ≡ task_path card.task }
        ensures job { IsJob result }
        ensures card { machine_card result ≡ card }
        ensures goal { machine_goal result ≡ None }
        ensures loan { machine_loan result ≡ None }
        ensures region { machine_region result ≡ Some (rough_region part) }
        ensures going { machine_over result ≡ false }
        ensures fetching { machine_fetching result ≡ None }
        ensures asks { machine_asks result ≡ 0 }
        ensures course { machine_course result ≡ wipe_course }
    {
        let goal = Goal::Nothing;
        Machine {
            card,
            goal: Snapshot::of(&goal),
            loan: None,
            state: State::Wiping(part.into_region()),
        }
    }

    /// A job that makes a tree at the path of its part, by the acts of its plan; the part that the row was copied from may be lent
    /// to it. Takes no memory.
    pub(crate) fn make(
        card: Card,
        part: Rough<R>,
        tree: Tree,
        method: Method,
        acts: Vec<Act>,
        loan: Option<ReadLoan<R>>,
    ) -> Machine<R>
        requires task { is_make card.task ≡ true }
        requires place { R.place (rough_region part) ≡ task_path card.task }
        requires places { list_all (is_placed (task_path card.task)) tree ≡ true }
        requires bytes { list_all (is_right method) tree ≡ true }
        requires plan { acts.items ≡ plan_of tree method (is_some loan) }
        ensures job { IsJob result }
        ensures card { machine_card result ≡ card }
        ensures goal { machine_goal result ≡ Some tree }
        ensures loan { machine_loan result ≡ loan }
        ensures region { machine_region result ≡ Some (rough_region part) }
        ensures going { machine_over result ≡ false }
        ensures fetching { machine_fetching result ≡ None }
        ensures asks { machine_asks result ≡ asks_of method tree }
        ensures course { machine_course result ≡ make_course tree method (is_some loan) }
    {
        let lent = loan.is_some();
        let goal = Goal::Tree(tree);
        let snapshot = Snapshot::of(&goal);
        let Goal::Tree(tree) = goal else {
            unreachable!()
        };
        let order = begin(&card, tree, method, acts, lent);
        Machine {
            card,
            goal: snapshot,
            loan,
            state: State::Clearing(part.into_region(), order),
        }
    }

    /// The job's number and task. Takes no memory.
    pub(crate) fn card(&self) -> &Card
        ensures { result.now ≡ machine_card self.now }
    {
        &self.card
    }

    /// The device that the next step calls. Takes no memory.
    pub(crate) fn next(&self) -> Next
        ensures { result ≡ machine_next self.now }
    {
        next_of(&self.state)
    }

    /// Whether the job has ended. Takes no memory.
    pub(crate) fn has_ended(&self) -> bool
        ensures { result ≡ machine_over self.now }
    {
        matches!(self.state, State::Ended(..))
    }

    /// Makes the one device call that `next` names.
    pub(crate) fn step<F: Fetcher>(&mut self, fetcher: &mut F) -> Stepped
        requires job { IsJob self.old }
        requires going { machine_over self.old ≡ false }
        ensures job { IsJob self.new }
        ensures card { machine_card self.new ≡ machine_card self.old }
        ensures goal { machine_goal self.new ≡ machine_goal self.old }
        ensures result { result ≡ (if machine_over self.new then Stepped.Ended else Stepped.Going) }
        ensures less { machine_cost self.new < machine_cost self.old }
        ensures loan { LoanStays ⟦<R as Region>⟧ (machine_loan self.old) (machine_loan self.new) }
        ensures on_part { CallsItsPart ⟦<R as Region>⟧ (seen self.old) (seen self.new) fetcher.old fetcher.new }
        ensures on_loan { CallsItsLoan ⟦<R as Region>⟧ (seen self.old) (seen self.new) fetcher.old fetcher.new }
        ensures on_store { CallsItsStore (seen self.old) (told_by ⟦<F as Fetcher>⟧ fetcher.old) (seen self.new) (told_by ⟦<F as Fetcher>⟧ fetcher.new) }
        ensures holds { F.holds fetcher.new ≡ F.holds fetcher.old }
        ensures moves { Moves ⟦<R as Region>⟧ (seen self.old) (told_by ⟦<F as Fetcher>⟧ fetcher.old) (seen self.new) (told_by ⟦<F as Fetcher>⟧ fetcher.new) }
        ensures causes { Causes ⟦<R as Region>⟧ (around (seen self.old) (told_by ⟦<F as Fetcher>⟧ fetcher.old)) (around (seen self.new) (told_by ⟦<F as Fetcher>⟧ fetcher.new)) (machine_failure self.new) }
        ensures course { GoesAlong (seen self.old) (seen self.new) }
        ensures makes { MakesIts ⟦<R as Region>⟧ (seen self.old) (seen self.new) }
        ensures lent { ReadsOn ⟦<R as Region>⟧ (seen self.old) (seen self.new) }
    {
        let state = mem::replace(&mut self.state, State::Moving);
        let next = advance(state, &mut self.loan, fetcher);
        let is_over = matches!(next, State::Ended(..));
        settle_in(&mut self.state, next);
        if is_over {
            return Stepped::Ended;
        }
        Stepped::Going
    }

    /// What a job that has ended leaves. Takes no memory.
    pub(crate) fn finish(self) -> Done<R>
        requires job { IsJob self }
        requires over { machine_over self ≡ true }
        ensures card { result.card ≡ machine_card self }
        ensures loan { result.loan ≡ machine_loan self }
        ensures region { machine_region self ≡ Some (state_region result.part) }
        ensures failure { failing result.outcome ≡ machine_failure self }
        ensures ended { HasEnded (task_path result.card.task) (machine_goal self) result.part result.outcome }
    {
        let Machine {
            card,
            goal: _,
            loan,
            state,
        } = self;
        match state {
            State::Ended(part, outcome) => Done {
                card,
                outcome,
                part,
                loan,
            },
            _ => unreachable!(),
        }
    }

    /// Gives a job up: its part, and the one that was lent to it, as they are. Takes no memory.
    pub(crate) fn abort(self) -> (Part<R>, Option<ReadLoan<R>>)
        requires { IsJob self }
        ensures region { machine_region self ≡ Some (state_region result.0) }
        ensures loan { result.1 ≡ machine_loan self }
    {
        let Machine {
            card: _,
            goal: _,
            loan,
            state,
        } = self;
        (part_of(state), loan)
    }
}

impl Machine<MemRegion> {
    /// Makes the device call of the next step fail and change nothing, unless it is the store's. Takes no memory.
    pub(crate) fn arm(&mut self)
        requires { IsJob self.old }
        ensures job { IsJob self.new }
        ensures card { machine_card self.new ≡ machine_card self.old }
        ensures goal { machine_goal self.new ≡ machine_goal self.old }
        ensures armed { ArmsNext (machine_over self.old) (machine_spot self.old) (machine_region self.old) (machine_region self.new) (machine_loan self.old) (machine_loan self.new) }
        ensures failure { machine_failure self.new ≡ machine_failure self.old }
        ensures going { machine_over self.new ≡ machine_over self.old }
        ensures spot { machine_spot self.new ≡ machine_spot self.old }
        ensures calls { machine_cost self.new ≡ machine_cost self.old }
        ensures asks { machine_asks self.new ≡ machine_asks self.old }
        ensures fetching { machine_fetching self.new ≡ machine_fetching self.old }
        ensures course { machine_course self.new ≡ machine_course self.old }
        ensures reading { machine_reading self.new ≡ machine_reading self.old }
    {
        arm_stage(&mut self.state, &mut self.loan);
    }
}
