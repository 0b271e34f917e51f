ghost use Rattle.std.specs.Prelude.{◌≡◌};
ghost use Rattle.mat_model.specs.WorkState.{path_of_task};
ghost use Rattle.job_book.specs.Jobs.{jobs_of};
ghost use Rattle.job_book.specs.Numbers.{is_source_lent, is_source_over};

use crate::{JobBook, LentPart, LentTree, Running};
use mat_model::{Card, Task};
use mat_path::{Memory, Path, Rel};
use mat_tree::{Flat, Tree, What};
use std::alloc::Global;
use std::snapshot::Snapshot;
use std::test::Fail;

/// What a step does to the book.
#[derive(Drop)]
enum Step {
    // The number, the path of the task, and that of the part that is read, with stamp 7.
    Start(u64, &'static [u8], Option<&'static [u8]>),
    Take(u64),
    Clean(&'static [u8], u64),
}

/// The tree of an empty directory.
fn tree(alloc: Global) -> Result<Tree, Fail> {
    let nodes = [Flat {
        rel: Rel::root(alloc),
        what: What::Dir,
    }];
    if !Flat::are_small(&nodes) {
        return Err(Fail::from(Memory));
    }
    Ok(Tree::from_flat(alloc, &nodes)?)
}

/// The part at a path with stamp 7, of a row with no file.
fn part_at(alloc: Global, path: &[u8]) -> Result<LentPart, Fail> {
    let tree = LentTree { tree: tree(alloc)? };
    Ok(LentPart {
        path: Path::read(alloc, path)?,
        stamp: 7,
        tree: Snapshot::of(&tree),
        cleaned: false,
    })
}

/// Whether the part that a job would read is on loan.
fn is_source_lent(book: &JobBook, lent: &Option<LentPart>) -> bool
    ensures { result ≡ is_source_lent lent.now (jobs_of book.now) }
{
    match lent {
        Some(part) => book.is_lent(&part.path),
        None => false,
    }
}

/// Whether it overlaps a path.
fn is_source_over(path: &Path, lent: &Option<LentPart>) -> bool
    ensures { result ≡ is_source_over path.now lent.now }
{
    match lent {
        Some(part) => part.path.overlaps(path),
        None => false,
    }
}

/// The path of a task.
fn path_of(task: &Task) -> &Path
    ensures { result.now ≡ path_of_task task.now }
{
    match task {
        Task::Make { path, .. } => path,
        Task::Wipe { path } => path,
    }
}

/// Starts a job, and says whether it may start.
fn start(book: &mut JobBook, running: Running) -> Result<bool, Fail> {
    let path = path_of(&running.card.task);
    if !book.is_later(running.card.job) || book.is_lent(path) {
        return Ok(false);
    }
    if is_source_lent(book, &running.lent) || is_source_over(path, &running.lent) {
        return Ok(false);
    }
    match book.start(running) {
        Ok(()) => Ok(true),
        Err(_) => Err(Fail::from(Memory)),
    }
}

/// Does a step, and says whether there was something to do.
fn carry_out(alloc: Global, book: &mut JobBook, step: &Step) -> Result<bool, Fail> {
    match step {
        Step::Start(job, path, part) => {
            let lent = match part {
                Some(path) => Some(part_at(alloc, path)?),
                None => None,
            };
            let task = Task::Wipe {
                path: Path::read(alloc, path)?,
            };
            let running = Running {
                card: Card { job: *job, task },
                caller: 0,
                lent,
                kept: None,
            };
            start(book, running)
        }
        Step::Take(job) => Ok(book.take(*job).is_some()),
        Step::Clean(path, stamp) => {
            let path = Path::read(alloc, path)?;
            let was = book.is_reading(&path, *stamp);
            book.mark_cleaned(&path, *stamp);
            Ok(was)
        }
    }
}

#[test]
fn jobs_come_and_go(rt: HostRuntime) -> Result<(), Fail> {
    let alloc = rt.alloc();
    let mut book = JobBook::new(alloc);
    // the step, whether there is something to do, how many jobs run then, and whether out/a is lent
    let table = [
        (Step::Start(3, b"out/a/b", Some(b"out/c")), true, 1, true),
        (Step::Start(3, b"out/d", None), false, 1, true),
        (Step::Start(4, b"out/a", None), false, 1, true),
        (Step::Start(4, b"out/d", Some(b"out/c/x")), false, 1, true),
        (Step::Start(5, b"out/e", Some(b"out/f")), true, 2, true),
        (Step::Clean(b"out/c", 6), false, 2, true),
        (Step::Clean(b"out/c", 7), true, 2, true),
        (Step::Take(4), false, 2, true),
        (Step::Take(3), true, 1, false),
        (Step::Clean(b"out/c", 7), false, 1, false),
        (Step::Start(6, b"out/c", None), true, 2, false),
    ];
    for (what, done, count, lent) in table.as_slice() {
        assert_eq!(rt; carry_out(alloc, &mut book, what)?, *done);
        assert_eq!(rt; book.len(), *count);
        assert_eq!(rt; book.is_lent(&Path::read(alloc, b"out/a")?), *lent);
    }
    assert_eq!(rt; book.get(5).map(|running| running.card.job), Some(5));
    assert_eq!(rt; book.at(1).map(|running| running.card.job), Some(6));
    assert!(rt; book.get(3).is_none());
    Ok(())
}
