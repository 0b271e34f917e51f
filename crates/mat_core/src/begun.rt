// A job begins: its parts are taken, and it stands in the book.
ghost use Rattle.std.specs.Prelude.{◌≡◌, filter, IfErr, IfOk};
ghost use Rattle.std.specs.Option.{option_map};
ghost use Rattle.mat_model.specs.WorkState.{path_of_task};
ghost use Rattle.job_book.specs.Jobs.{lent_of};
ghost use Rattle.job_book.specs.Numbers.{is_other};
ghost use Rattle.core_devices.specs.Events.{HasAgain};
ghost use Rattle.core_devices.specs.Takes.{AreTaken, WereTaken, source_of_loan, source_path, told_loan};
ghost use Rattle.core_devices.specs.Told.{told_disk, told_part};
ghost use Rattle.mat_core.specs.Beginning.{without_place};
ghost use Rattle.mat_core.specs.PutDown.{IsFreeFor, IsJobFor, IsOutFor, IsPutDown, IsReadFor, IsUncleaned, IsWorkable, lent_from, told_read};

use crate::beginning::release_place;
use crate::parts::Parts;
use crate::preparing::{Aim, Order, task_path};
use core_devices::{Loan, Source, Taken, return_parts, take_parts};
use job_book::{LentPart, LentTree, Running};
use job_run::Job;
use mat_model::{Card, Task};
use mat_path::{Memory, Path};
use region_port::{Disk, ReadLoan, Region, Rough};
use std::snapshot::Snapshot;

/// What is out for a job: its own card, the paths of the kept rows that are to go, what is made, its part, and the one that it reads, if it reads one.
#[derive(Drop)]
pub struct Out<R: Region> {
    pub own: Card,
    pub gone: Vec<Path>,
    pub aim: Aim,
    pub region: R,
    pub read: Option<ReadLoan<R>>,
}

// The part that a job reads, for the book, and for the job.
fn lend<R: Region>(loan: Option<Loan<R>>) -> (Option<LentPart>, Option<ReadLoan<R>>)
    ensures lent { option_map lent_of result.0 ≡ option_map lent_from (option_map source_of_loan loan) }
    ensures fresh { IsUncleaned result.0 }
    ensures read { IsReadFor (option_map source_of_loan loan) result.1 }
    ensures told { option_map (told_read ⟦<R as Region>⟧) result.1 ≡ option_map (told_loan ⟦<R as Region>⟧) loan }
{
    let Some(Loan { region, source }) = loan else {
        return (None, None);
    };
    let Source { path, stamp, tree } = source;
    let lent = LentTree { tree };
    let part = LentPart {
        path,
        stamp,
        tree: Snapshot::of(&lent),
        cleaned: false,
    };
    let LentTree { tree } = lent;
    (Some(part), Some(ReadLoan::of(region, tree)))
}

/// The region of a part that is read, if one is.
pub(crate) fn region_of<R: Region>(read: Option<ReadLoan<R>>) -> Option<R>
    ensures { option_map (told_part ⟦<R as Region>⟧) result ≡ option_map (told_read ⟦<R as Region>⟧) read }
{
    match read {
        Some(read) => Some(read.into_region()),
        None => None,
    }
}

/// The job that works on what is out. Takes no memory.
pub(crate) fn job_of<R: Region>(out: Out<R>) -> Job<R>
    requires { IsWorkable ⟦<R as Region>⟧ out }
    ensures { IsJobFor out result }
{
    let Out {
        own,
        gone: _,
        aim,
        region,
        read,
    } = out;
    let part = Rough::new(region);
    match aim {
        Aim::Nothing => match read {
            Some(_) => unreachable!(),
            None => Job::wipe(own, part),
        },
        Aim::Tree { tree, method, acts } => Job::make(own, part, tree, method, acts, read),
    }
}

impl<D: Disk, K> Parts<D, K> {
    /// A job is put down for a caller: its parts are taken, and it stands in the book. For want of memory the disk has again what it had.
    pub(crate) fn put_down(
        &mut self,
        caller: u32,
        task: &Task,
        order: Order,
    ) -> Result<Out<D::R>, Memory>
        requires { IsFreeFor self.old.jobs (D.lent self.old.disk) task.now order }
        ensures down { IfOk result (λ out. IsPutDown caller order self.old self.new) }
        ensures out { IfOk result (λ out. IsOutFor order out) }
        ensures taken { IfOk result (λ out. AreTaken (path_of_task task.now) (option_map source_path order.source) (told_disk ⟦<D as Disk>⟧ self.old.disk) (told_disk ⟦<D as Disk>⟧ self.new.disk) (told_part ⟦<D::R as Region>⟧ out.region) (option_map (told_read ⟦<D::R as Region>⟧) out.read)) }
        ensures again { IfErr result (λ want. HasAgain (told_disk ⟦<D as Disk>⟧ self.old.disk) (told_disk ⟦<D as Disk>⟧ self.new.disk)) }
        ensures only { IfErr result (λ want. self.new ≡ record self.old { disk = self.new.disk }) }
    {
        let Order {
            card,
            own,
            gone,
            aim,
            source,
            kept,
        } = order;
        let Ok(taken) = take_parts(&mut self.disk, task_path(task), source) else {
            return Err(Memory);
        };
        let Taken { region, loan } = taken;
        let (lent, read) = lend(loan);
        let running = Running {
            card,
            caller,
            lent,
            kept,
        };
        match self.jobs.start(running) {
            Ok(()) => Ok(Out {
                own,
                gone,
                aim,
                region,
                read,
            }),
            Err(_running) => {
                return_parts(&mut self.disk, region, region_of(read));
                Err(Memory)
            }
        }
    }

    /// What is out for a job that was put down goes back, and the job with its place is gone. Takes no memory.
    pub(crate) fn take_up(&mut self, task: &Task, out: Out<D::R>)
        requires { WereTaken (told_disk ⟦<D as Disk>⟧ self.old.disk) (told_part ⟦<D::R as Region>⟧ out.region) (option_map (told_read ⟦<D::R as Region>⟧) out.read) }
        ensures again { (was : WereTaken (told_disk ⟦<D as Disk>⟧ self.old.disk) (told_part ⟦<D::R as Region>⟧ out.region) (option_map (told_read ⟦<D::R as Region>⟧) out.read)) → HasAgain was.before (told_disk ⟦<D as Disk>⟧ self.new.disk) }
        ensures only { self.new ≡ record self.old { disk = self.new.disk; jobs = self.new.jobs; kept = self.new.kept } }
        ensures jobs { self.new.jobs ≡ filter (is_other out.own.job) self.old.jobs }
        ensures marks { self.new.kept.marks ≡ self.old.kept.marks }
        ensures places { self.new.kept.reserved ≡ without_place task.now self.old.kept.reserved }
    {
        let Out {
            own,
            region,
            read,
            ..
        } = out;
        return_parts(&mut self.disk, region, region_of(read));
        self.jobs.take(own.job);
        release_place(&mut self.kept, task);
    }
}
