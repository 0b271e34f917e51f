// The loans of jobs: by each path the number of the job that has it.
ghost use Rattle.std.specs.Prelude.{◌≡◌, ◌∷◌, ◌++◌, [], None, false, if◌then◌else◌};
ghost use Rattle.mat_model.specs.WorkState.{path_of_task};
ghost use Rattle.path_trie.specs.Entries.{value_at};
ghost use Rattle.job_book.specs.Numbers.{is_source_over, task_path};
ghost use Rattle.job_book.specs.Loans.{loan_at, loans_of, source_at, source_loan, without_loans, without_source, IsIndex};

use crate::running::{LentPart, Running};
use mat_model::Task;
use mat_path::Path;
use path_trie::Trie;

// The path of a task.
fn path_of_task(task: &Task) -> &Path
    ensures { result.now ≡ path_of_task task.now }
{
    match task {
        Task::Make { path, .. } => path,
        Task::Wipe { path } => path,
    }
}

// Adds a loan where none stands, and says whether there was memory for it; else nothing changes.
fn add(loans: &mut Trie<u64>, path: &Path, number: u64) -> bool
    requires { value_at path.now loans.old ≡ None }
    ensures { IsIndex loans.new (if result then loans.old ++ loan_at path.now number ∷ [] else loans.old) }
{
    loans.insert(path, number).is_ok()
}

// The same of the part that a job reads, if it reads one.
fn add_source(loans: &mut Trie<u64>, lent: &Option<LentPart>, number: u64) -> bool
    requires { source_at lent.now loans.old ≡ None }
    ensures { IsIndex loans.new (if result then loans.old ++ source_loan number lent.now else loans.old) }
{
    match lent {
        Some(part) => add(loans, &part.path, number),
        None => true,
    }
}

// Adds the loans of a job where none stand, and says whether there was memory for them; else nothing changes.
pub(crate) fn add_loans(loans: &mut Trie<u64>, running: &Running) -> bool
    requires task { value_at (task_path running.now) loans.old ≡ None }
    requires source { source_at running.now.lent loans.old ≡ None }
    requires apart { is_source_over (task_path running.now) running.now.lent ≡ false }
    ensures { IsIndex loans.new (if result then loans.old ++ loans_of running.now else loans.old) }
{
    let path = path_of_task(&running.card.task);
    if !add(loans, path, running.card.job) {
        return false;
    }
    if add_source(loans, &running.lent, running.card.job) {
        return true;
    }
    loans.remove(path);
    false
}

// Takes the loan of the part away that a job read, if it read one.
fn remove_source(loans: &mut Trie<u64>, lent: &Option<LentPart>)
    ensures { loans.new ≡ without_source lent.now loans.old }
{
    if let Some(part) = lent {
        loans.remove(&part.path);
    }
}

// Takes the loans of a job away.
pub(crate) fn remove_loans(loans: &mut Trie<u64>, running: &Running)
    ensures { loans.new ≡ without_loans running.now loans.old }
{
    loans.remove(path_of_task(&running.card.task));
    remove_source(loans, &running.lent);
}
