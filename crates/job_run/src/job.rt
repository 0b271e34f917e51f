// Jobs, which make a tree at a path or leave nothing there, in steps of one device call each.
ghost use Rattle.std.specs.Prelude.{◌≡◌, ◌<◌, ◌≤◌, ◌+◌, if◌then◌else◌, None, Some, true, false};
ghost use Rattle.std.specs.List.{list_all};
ghost use Rattle.std.specs.Option.{is_some};
ghost use Rattle.mat_tree.specs.Trees.{is_placed};
ghost use Rattle.region_port.specs.States.{rough_region, state_region};
ghost use Rattle.write_plan.specs.Plans.{plan_of};
ghost use Rattle.job_run.specs.Done.{counts_fault, ends_task, has_count_risen, is_make, leaves_part, task_path};
ghost use Rattle.job_run.specs.Arming.{ArmsNext};
ghost use Rattle.job_run.specs.Along.{CallsItsLoan, CallsItsPart, CallsItsStore, GoesAlong, IsAlong, MakesIts, ReadsOn};
ghost use Rattle.job_run.specs.Asking.{asks_of};
ghost use Rattle.job_run.specs.Courses.{make_course, wipe_course};
ghost use Rattle.job_run.specs.Moves.{Causes, LoanMoves, Moves, RegionMoves, around, left_by};
ghost use Rattle.job_run.specs.Orders.{is_right};
ghost use Rattle.job_run.specs.States.{HasEnded, failing};
ghost use Rattle.job_run.specs.Steps.{Asks, CallsLoan, CallsRegion, IsAt, LoanStays, loan_call, part_call, store_call, told_by};
ghost use Rattle.job_run.specs.Views.{asks_left, calls_left, is_over, job_card, job_course, job_failure, job_fetching, job_goal, job_loan, job_next, job_reading, job_region, job_spot};

use crate::machine::Machine;
use fetch_port::Fetcher;
use mat_model::{Card, Outcome};
use mat_tree::Tree;
use region_port::{MemRegion, Part, ReadLoan, Region, Rough};
use std::marker::Model;
use write_plan::{Act, Method};

/// The device that the next step of a job calls.
#[derive(Clone, Copy, Debug, PartialEq, Eq)]
pub enum Next {
    /// The disk: the job's part, or the one that is lent to it.
    Disk,
    /// The store.
    Store,
    /// None: the job has ended.
    Nothing,
}

/// Whether a job goes on behind a step.
#[derive(Clone, Copy, Debug, PartialEq, Eq)]
pub enum Stepped {
    /// It has steps left.
    Going,
    /// It has ended.
    Ended,
}

/// What a job that has ended leaves: the part is at the path of the card's task, settled with the row's tree where it is made, and bare
/// where it is wiped; and the part that was lent to it.
#[derive(Drop)]
pub struct Done<R: Region> {
    pub card: Card,
    pub outcome: Outcome,
    pub part: Part<R>,
    pub loan: Option<ReadLoan<R>>,
    ghost at: { R.place (state_region part) ≡ task_path card.task },
    ghost ends: { ends_task (is_make card.task) outcome ≡ true },
    ghost leaves: { leaves_part outcome part ≡ true },
    ghost counted: { counts_fault ⟦<R as Region>⟧ outcome (R.fault_count (state_region part)) loan ≡ true },
    ghost risen: { has_count_risen outcome ≡ true },
}

/// A job: it makes a tree at a path, or leaves nothing there.
#[derive(Drop)]
pub struct Job<R: Region> {
    machine: Machine<R>,
}

impl<R: Region> Model for Job<R> {
    ghost use Rattle.job_run.specs.Jobs.{IsJob};
    ghost use Rattle.job_run.specs.Seen.{seen};
    ghost use Rattle.job_run.specs.Views.{Seen};

    ghost Value = { Seen R };

    ghost view = { λ job. seen job.machine };

    ghost invariant = { λ job. IsJob job.machine };
}

impl<R: Region> Job<R> {
    /// A job that leaves nothing at the path of its part. Takes no memory.
    pub fn wipe(card: Card, part: Rough<R>) -> Job<R>
        requires task { is_make card.task ≡ false }
        requires place { R.place (rough_region part) ≡ task_path card.task }
        ensures card { job_card result ≡ card }
        ensures goal { job_goal result ≡ None }
        ensures loan { job_loan result ≡ None }
        ensures region { job_region result ≡ Some (rough_region part) }
        ensures going { is_over result ≡ false }
        ensures fetching { job_fetching result ≡ None }
        ensures asks { asks_left result ≡ 0 }
        ensures course { job_course result ≡ wipe_course }
    {
        let machine = Machine::wipe(card, part);
        Job { machine }
    }

    /// A job that makes a tree at the path of its part, by the acts of its plan; the part that the row was copied from may be lent
    /// to it. Takes no memory.
    pub fn make(
        card: Card,
        part: Rough<R>,
        tree: Tree,
        method: Method,
        acts: Vec<Act>,
        loan: Option<ReadLoan<R>>,
    ) -> Job<R>
        requires task { is_make card.task ≡ true }
        requires place { R.place (rough_region part) ≡ task_path card.task }
        requires places { list_all (is_placed (task_path card.task)) tree ≡ true }
        requires bytes { list_all (is_right method) tree ≡ true }
        requires plan { acts.items ≡ plan_of tree method (is_some loan) }
        ensures card { job_card result ≡ card }
        ensures goal { job_goal result ≡ Some tree }
        ensures loan { job_loan result ≡ loan }
        ensures region { job_region result ≡ Some (rough_region part) }
        ensures going { is_over result ≡ false }
        ensures fetching { job_fetching result ≡ None }
        ensures asks { asks_left result ≡ asks_of method tree }
        ensures course { job_course result ≡ make_course tree method (is_some loan) }
    {
        let machine = Machine::make(card, part, tree, method, acts, loan);
        Job { machine }
    }

    /// The job's number and task. Takes no memory.
    pub fn card(&self) -> &Card
        ensures { result.now ≡ job_card self.now }
    {
        self.machine.card()
    }

    /// The device that the next step calls. Takes no memory.
    pub fn next(&self) -> Next
        ensures { result ≡ job_next self.now }
    {
        self.machine.next()
    }

    /// Whether the job has ended. Takes no memory.
    pub fn has_ended(&self) -> bool
        ensures { result ≡ is_over self.now }
    {
        self.machine.has_ended()
    }

    /// What every job keeps: its part is at the path of its task, it has a tree to make just where its task is a make, it has
    /// failed only where it has ended, and it reads no other file than the one that it is at. Takes no memory.
    pub fn keeps(&self)
        ensures place { IsAt ⟦<R as Region>⟧ (task_path (job_card self.now).task) (job_region self.now) }
        ensures kind { is_some (job_goal self.now) ≡ is_make (job_card self.now).task }
        ensures going { is_over self.now ≡ false → job_failure self.now ≡ None }
        ensures along { IsAlong self.now }
    {
        let _ = &self.machine;
    }

    /// Makes the one device call that `next` names: the first thing that is left asks for it, and it leads on as the plan says.
    pub fn step<F: Fetcher>(&mut self, fetcher: &mut F) -> Stepped
        requires { is_over self.old ≡ false }
        ensures card { job_card self.new ≡ job_card self.old }
        ensures goal { job_goal self.new ≡ job_goal self.old }
        ensures result { result ≡ (if is_over self.new then Stepped.Ended else Stepped.Going) }
        ensures less { calls_left self.new < calls_left self.old }
        ensures loan { LoanStays ⟦<R as Region>⟧ (job_loan self.old) (job_loan self.new) }
        ensures on_part { CallsItsPart ⟦<R as Region>⟧ self.old self.new fetcher.old fetcher.new }
        ensures on_loan { CallsItsLoan ⟦<R as Region>⟧ self.old self.new fetcher.old fetcher.new }
        ensures on_store { CallsItsStore self.old (told_by ⟦<F as Fetcher>⟧ fetcher.old) self.new (told_by ⟦<F as Fetcher>⟧ fetcher.new) }
        ensures holds { F.holds fetcher.new ≡ F.holds fetcher.old }
        ensures moves { Moves ⟦<R as Region>⟧ self.old (told_by ⟦<F as Fetcher>⟧ fetcher.old) self.new (told_by ⟦<F as Fetcher>⟧ fetcher.new) }
        ensures causes { Causes ⟦<R as Region>⟧ (around self.old (told_by ⟦<F as Fetcher>⟧ fetcher.old)) (around self.new (told_by ⟦<F as Fetcher>⟧ fetcher.new)) (job_failure self.new) }
        ensures course { GoesAlong self.old self.new }
        ensures makes { MakesIts ⟦<R as Region>⟧ self.old self.new }
        ensures lent { ReadsOn ⟦<R as Region>⟧ self.old self.new }
    {
        self.machine.step(fetcher)
    }

    /// What a job that has ended leaves. Takes no memory.
    pub fn finish(self) -> Done<R>
        requires { is_over self ≡ true }
        ensures card { result.card ≡ job_card self }
        ensures loan { result.loan ≡ job_loan self }
        ensures region { job_region self ≡ Some (state_region result.part) }
        ensures failure { failing result.outcome ≡ job_failure self }
        ensures ended { HasEnded (task_path result.card.task) (job_goal self) result.part result.outcome }
    {
        let Job { machine } = self;
        machine.finish()
    }

    /// Gives a job up: its part, and the one that was lent to it, as they are. Takes no memory.
    pub fn abort(self) -> (Part<R>, Option<ReadLoan<R>>)
        ensures region { job_region self ≡ Some (state_region result.0) }
        ensures loan { result.1 ≡ job_loan self }
    {
        let Job { machine } = self;
        machine.abort()
    }
}

impl Job<MemRegion> {
    /// Makes the next device call of `step` fail and change nothing, where it is on the job's part or on the one that is lent; where
    /// it is the store's, or the job has ended, nothing changes. Takes no memory.
    pub fn arm(&mut self)
        ensures card { job_card self.new ≡ job_card self.old }
        ensures goal { job_goal self.new ≡ job_goal self.old }
        ensures armed { ArmsNext (is_over self.old) (job_spot self.old) (job_region self.old) (job_region self.new) (job_loan self.old) (job_loan self.new) }
        ensures failure { job_failure self.new ≡ job_failure self.old }
        ensures going { is_over self.new ≡ is_over self.old }
        ensures spot { job_spot self.new ≡ job_spot self.old }
        ensures calls { calls_left self.new ≡ calls_left self.old }
        ensures asks { asks_left self.new ≡ asks_left self.old }
        ensures fetching { job_fetching self.new ≡ job_fetching self.old }
        ensures course { job_course self.new ≡ job_course self.old }
        ensures reading { job_reading self.new ≡ job_reading self.old }
    {
        self.machine.arm();
    }
}

/// Makes all steps of a job that are left, and finishes it.
pub fn work_off<R: Region, F: Fetcher>(mut job: Job<R>, fetcher: &mut F) -> Done<R>
    ensures card { result.card ≡ job_card job }
    ensures ended { HasEnded (task_path result.card.task) (job_goal job) result.part result.outcome }
    ensures region { RegionMoves ⟦<R as Region>⟧ (job_region job) (Some (state_region result.part)) }
    ensures loan { LoanMoves ⟦<R as Region>⟧ (job_loan job) result.loan }
    ensures holds { F.holds fetcher.new ≡ F.holds fetcher.old }
    ensures faults { F.fault_count fetcher.old ≤ F.fault_count fetcher.new }
    ensures asks { F.fetches fetcher.new ≤ F.fetches fetcher.old + asks_left job }
    ensures causes { job_failure job ≡ None → Causes ⟦<R as Region>⟧ (around job (told_by ⟦<F as Fetcher>⟧ fetcher.old)) (left_by (Some (state_region result.part)) result.loan (told_by ⟦<F as Fetcher>⟧ fetcher.new)) (failing result.outcome) }
{
    'steps: while !job.has_ended() {
        job.step(fetcher);
    }
    job.finish()
}
