ghost use Rattle.std.specs.Prelude.{◌≡◌, ◌∷◌, ◌++◌, [], false, true, find, is_ok, length, map, if◌then◌else◌, IfErr};
ghost use Rattle.std.specs.List.{filter, list_all, list_any, slice_get};
ghost use Rattle.std.specs.Option.{option_copied, option_map};
ghost use Rattle.mat_model.specs.WorkState.{is_job, is_lent, is_other_job, path_of_task};
ghost use Rattle.job_book.specs.Jobs.{job_of, jobs_of};
ghost use Rattle.job_book.specs.Numbers.{is_earlier, is_number, is_other, is_source_lent, is_source_over, marked, reads};

use crate::list;
use crate::loans::{add_loans, remove_loans};
use crate::running::Running;
use mat_path::Path;
use path_trie::Trie;
use std::alloc::Global;
use std::marker::Model;

/// The jobs that run, in order of number, of which no two loans overlap.
#[derive(Drop)]
pub struct JobBook {
    list: Vec<Running>,
    // By the path of each loan, a task's or a part's that is read, the number of its job.
    loans: Trie<u64>,
}

impl Model for JobBook {
    ghost use Rattle.std.specs.Prelude.{List};
    ghost use Rattle.job_book.specs.declared.running.Running.{Running as TheRunning};
    ghost use Rattle.job_book.specs.Loans.{IsWhole};

    ghost Value = { List TheRunning };

    ghost view = { λ book. book.list.items };

    ghost invariant = { λ book. IsWhole book.list.items book.loans };
}

impl JobBook {
    /// The book of no job. Takes no memory.
    pub fn new(alloc: Global) -> JobBook
        ensures { result ≡ [] }
    {
        JobBook {
            list: Vec::new(alloc),
            loans: Trie::new(alloc),
        }
    }

    /// How many jobs run.
    pub fn len(&self) -> usize
        ensures { result ≡ length self.now }
    {
        self.list.len()
    }

    /// The k-th job in order of number. Takes no memory, as all calls below but `start`.
    pub fn at(&self, k: usize) -> Option<&Running>
        ensures { option_copied result ≡ slice_get self.now k }
    {
        self.list.get(k)
    }

    /// The job of a number.
    pub fn get(&self, number: u64) -> Option<&Running>
        ensures running { option_copied result ≡ find (is_number number) self.now }
        ensures job { option_map job_of (option_copied result) ≡ find (is_job number) (jobs_of self.now) }
    {
        list::job_at(self.list.as_slice(), number)
    }

    /// Whether the numbers of all jobs are lower than a number.
    pub fn is_later(&self, number: u64) -> bool
        ensures { result ≡ list_all (is_earlier number) self.now }
    {
        match self.list.last() {
            Some(running) => running.card.job < number,
            None => true,
        }
    }

    /// Whether a loan overlaps a path.
    pub fn is_lent(&self, path: &Path) -> bool
        ensures { result ≡ is_lent path.now (jobs_of self.now) }
    {
        self.loans.overlaps(path)
    }

    /// Puts a job behind the others, whose numbers are lower and whose loans don't overlap its own: those don't overlap each other. For
    /// want of memory the job comes back, and nothing changes.
    pub fn start(&mut self, running: Running) -> Result<(), Running>
        requires later { list_all (is_earlier running.card.job) self.old ≡ true }
        requires free { is_lent (path_of_task running.card.task) (jobs_of self.old) ≡ false }
        requires source { is_source_lent running.lent (jobs_of self.old) ≡ false }
        requires apart { is_source_over (path_of_task running.card.task) running.lent ≡ false }
        ensures list { self.new ≡ (if is_ok result then self.old ++ running ∷ [] else self.old) }
        ensures jobs { jobs_of self.new ≡ (if is_ok result then jobs_of self.old ++ job_of running ∷ [] else jobs_of self.old) }
        ensures back { IfErr result (λ back. back ≡ running) }
    {
        if self.list.reserve(1).is_err() {
            return Err(running);
        }
        if !add_loans(&mut self.loans, &running) {
            return Err(running);
        }
        self.list.push_reserved(running);
        Ok(())
    }

    /// Takes the job of a number out, and gives it: its loans are free then. Where no job has the number, nothing changes.
    pub fn take(&mut self, number: u64) -> Option<Running>
        ensures running { result ≡ find (is_number number) self.old }
        ensures list { self.new ≡ filter (is_other number) self.old }
        ensures jobs { jobs_of self.new ≡ filter (is_other_job number) (jobs_of self.old) }
    {
        match list::place_of(self.list.as_slice(), number) {
            Some(place) => {
                let running = self.list.remove(place);
                remove_loans(&mut self.loans, &running);
                Some(running)
            }
            None => None,
        }
    }

    /// Whether a job reads the part of the row at exactly a path and with a stamp.
    pub fn is_reading(&self, path: &Path, stamp: u64) -> bool
        ensures { result ≡ list_any (reads path.now stamp) self.now }
    {
        match self.loans.get(path) {
            Some(number) => match self.get(*number) {
                Some(running) => list::reads(running, path, stamp),
                None => false,
            },
            None => false,
        }
    }

    /// A clean removed the row at exactly a path and with a stamp: if a job reads its part, that is marked.
    pub fn mark_cleaned(&mut self, path: &Path, stamp: u64)
        ensures list { self.new ≡ map (marked path.now stamp) self.old }
        ensures jobs { jobs_of self.new ≡ jobs_of self.old }
    {
        if self.is_reading(path, stamp) {
            list::mark_all(&mut self.list, path, stamp);
        }
    }
}
