// Whether a job that came back is the one that runs.
ghost use Rattle.std.specs.Prelude.{◌≡◌, false, find};
ghost use Rattle.std.specs.Option.{option_copied, option_map, option_map_or};
ghost use Rattle.mat_model.specs.Work.{is_declared};
ghost use Rattle.mat_model.specs.WorkState.{is_job};
ghost use Rattle.region_port.specs.States.{state_tree};
ghost use Rattle.row_book.specs.Stocks.{row_of, rows_of};
ghost use Rattle.job_book.specs.Jobs.{job_of, jobs_of, lent_of};
ghost use Rattle.mat_core.specs.Fitting.{back_of, caller_of, fits_job, has_card, has_parts, is_loan_of, is_made_for, is_part_of, is_tree_at, is_tree_for, lending_of, same_task};

use crate::parts::Parts;
use job_book::{LentPart, Running};
use job_run::Done;
use mat_model::{Outcome, Task};
use mat_path::Path;
use mat_tree::Tree;
use region_port::{Disk, Part, ReadLoan, Region};
use row_book::{RowBook, Stock};

// The tree that a part is known to have, if it is.
fn tree_of<R: Region>(part: &Part<R>) -> Option<&Tree>
    ensures { option_map (λ tree. tree.now) result ≡ state_tree part.now }
{
    match part {
        Part::Settled(part) => Some(part.tree()),
        Part::Rough(_) => None,
        Part::Bare(_) => None,
    }
}

// Whether a task is another one.
fn same_task(task: &Task, other: &Task) -> bool
    ensures { result ≡ same_task task.now other.now }
{
    match (task, other) {
        (
            Task::Make { path, stamp },
            Task::Make {
                path: other,
                stamp: number,
            },
        ) => *path == *other && *stamp == *number,
        (Task::Make { .. }, Task::Wipe { .. }) => false,
        (Task::Wipe { .. }, Task::Make { .. }) => false,
        (Task::Wipe { path }, Task::Wipe { path: other }) => *path == *other,
    }
}

// The stock of the row that was declared at a path under a stamp, if it is there still.
fn declared_at<'a>(rows: &'a RowBook, path: &Path, stamp: u64) -> Option<&'a Stock>
    ensures { option_map row_of (option_copied result) ≡ find (is_declared path.now stamp) (rows_of rows.now) }
{
    rows.is_in_order();
    match rows.get(path) {
        None => None,
        Some(stock) => {
            if stock.row.stamp == stamp {
                return Some(stock);
            }
            None
        }
    }
}

// Whether a tree is that of the row that was declared at a path under a stamp, if it is there still.
fn is_tree_at(rows: &RowBook, path: &Path, stamp: u64, tree: &Tree) -> bool
    ensures { result ≡ is_tree_at (rows_of rows.now) path.now stamp tree.now }
{
    match declared_at(rows, path, stamp) {
        None => true,
        Some(stock) => tree.same(&stock.row.tree),
    }
}

// Whether the tree that a part is known to have is that of the row of a task.
fn is_tree_for(rows: &RowBook, task: &Task, tree: Option<&Tree>) -> bool
    ensures { result ≡ is_tree_for (rows_of rows.now) task.now (option_map (λ tree. tree.now) tree.entry) }
{
    match tree {
        None => true,
        Some(tree) => match task {
            Task::Make { path, stamp } => is_tree_at(rows, path, *stamp, tree),
            Task::Wipe { path: _ } => true,
        },
    }
}

// Whether what was made, if something was, is the tree of its row.
fn is_made_for(rows: &RowBook, task: &Task, outcome: Outcome, tree: Option<&Tree>) -> bool
    ensures { result ≡ is_made_for (rows_of rows.now) task.now outcome (option_map (λ tree. tree.now) tree.entry) }
{
    !matches!(outcome, Outcome::Made) || is_tree_for(rows, task, tree)
}

// Whether a part that was lent is the one that a job reads.
fn is_part_of<R: Region>(rows: &RowBook, lent: &LentPart, loan: &ReadLoan<R>) -> bool
    ensures { result ≡ is_part_of (rows_of rows.now) (lent_of lent.now) (lending_of ⟦<R as Region>⟧ loan.now) }
{
    *loan.path() == lent.path && is_tree_at(rows, &lent.path, lent.stamp, loan.tree())
}

// The same, where either may be none.
fn is_loan_of<R: Region>(
    rows: &RowBook,
    lent: &Option<LentPart>,
    loan: &Option<ReadLoan<R>>,
) -> bool
    ensures { result ≡ is_loan_of (rows_of rows.now) (option_map lent_of lent.now) (option_map (lending_of ⟦<R as Region>⟧) loan.now) }
{
    match (lent, loan) {
        (None, None) => true,
        (None, Some(_)) => false,
        (Some(_), None) => false,
        (Some(lent), Some(loan)) => is_part_of(rows, lent, loan),
    }
}

// Whether a caller began a job that has the card of what came back.
fn has_card<R: Region>(caller: u32, done: &Done<R>, running: &Running) -> bool
    ensures { result ≡ has_card caller (back_of done.now) (job_of running.now) }
{
    running.caller == caller && same_task(&running.card.task, &done.card.task)
}

// Whether what was made and what was lent are a job's own.
fn has_parts<R: Region>(rows: &RowBook, done: &Done<R>, running: &Running) -> bool
    ensures { result ≡ has_parts (rows_of rows.now) (back_of done.now) (job_of running.now) }
{
    let tree = tree_of(&done.part);
    is_made_for(rows, &running.card.task, done.outcome, tree)
        && is_loan_of(rows, &running.lent, &done.loan)
}

// Whether what came back to a caller is a job.
fn fits_job<R: Region>(rows: &RowBook, caller: u32, done: &Done<R>, running: &Running) -> bool
    ensures { result ≡ fits_job (rows_of rows.now) caller (back_of done.now) (job_of running.now) }
{
    has_card(caller, done, running) && has_parts(rows, done, running)
}

impl<D: Disk, K> Parts<D, K> {
    /// Whether what came back to a caller is the job that runs under its number. Takes no memory, as the call below.
    pub(crate) fn fits(&self, caller: u32, done: &Done<D::R>) -> bool
        ensures { result ≡ option_map_or (fits_job (rows_of self.now.rows) caller (back_of done.now)) (find (is_job done.now.card.job) (jobs_of self.now.jobs)) false }
    {
        match self.jobs.get(done.card.job) {
            None => false,
            Some(running) => fits_job(&self.rows, caller, done, running),
        }
    }

    /// Who began the job of a number that runs.
    pub(crate) fn caller_of(&self, job: u64) -> Option<u32>
        ensures { result ≡ option_map caller_of (find (is_job job) (jobs_of self.now.jobs)) }
    {
        match self.jobs.get(job) {
            None => None,
            Some(running) => Some(running.caller),
        }
    }
}
