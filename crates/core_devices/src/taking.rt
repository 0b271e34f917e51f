// The parts of a job are taken from a disk, and go back.
ghost use Rattle.std.specs.Prelude.{◌≡◌, ◌∷◌, ◌++◌, [], false, IfErr, IfOk};
ghost use Rattle.std.specs.List.{list_any};
ghost use Rattle.std.specs.Option.{option_map};
ghost use Rattle.mat_path.specs.Names.{overlap};
ghost use Rattle.core_devices.specs.Events.{HasAgain};
ghost use Rattle.core_devices.specs.Takes.{AreTaken, IsFreeAt, IsTaken, WasTaken, WereTaken, source_of_loan, source_path, told_loan};
ghost use Rattle.core_devices.specs.Told.{told_disk, told_part};

use mat_path::{Memory, Path};
use mat_tree::Tree;
use region_port::{Disk, Region};

/// The part that a make reads: its row's path and stamp, and the tree that the row has.
#[derive(Debug, Drop)]
pub struct Source {
    pub path: Path,
    pub stamp: u64,
    pub tree: Tree,
}

/// A part that is lent for reading, and what it was lent for.
#[derive(Drop)]
pub struct Loan<R> {
    pub region: R,
    pub source: Source,
}

/// The parts of a job: that of its task, and the one that it reads, if it reads one.
#[derive(Drop)]
pub struct Taken<R> {
    pub region: R,
    pub loan: Option<Loan<R>>,
}

// Takes the part that is to be read, if one is. For want of memory the disk tells what it told.
fn take_source<D: Disk>(disk: &mut D, source: Option<Source>) -> Result<Option<Loan<D::R>>, Memory>
    requires { IsFreeAt (option_map source_path source) (D.lent disk.old) }
    ensures taken { IfOk result (λ loan. IsTaken (option_map source_path source) (told_disk ⟦<D as Disk>⟧ disk.old) (told_disk ⟦<D as Disk>⟧ disk.new) (option_map (told_loan ⟦<D::R as Region>⟧) loan)) }
    ensures source { IfOk result (λ loan. option_map source_of_loan loan ≡ source) }
    ensures same { IfErr result (λ want. told_disk ⟦<D as Disk>⟧ disk.new ≡ told_disk ⟦<D as Disk>⟧ disk.old) }
{
    let Some(source) = source else {
        return Ok(None);
    };
    match disk.take(&source.path) {
        Ok(region) => Ok(Some(Loan { region, source })),
        Err(Memory) => Err(Memory),
    }
}

/// Takes the part of a task, and then the one that is to be read, if one is. For want of memory the disk has again what it had.
pub fn take_parts<D: Disk>(
    disk: &mut D,
    path: &Path,
    source: Option<Source>,
) -> Result<Taken<D::R>, Memory>
    requires task { list_any (overlap path.now) (D.lent disk.old) ≡ false }
    requires source { IsFreeAt (option_map source_path source) (D.lent disk.old ++ path.now ∷ []) }
    ensures taken { IfOk result (λ taken. AreTaken path.now (option_map source_path source) (told_disk ⟦<D as Disk>⟧ disk.old) (told_disk ⟦<D as Disk>⟧ disk.new) (told_part ⟦<D::R as Region>⟧ taken.region) (option_map (told_loan ⟦<D::R as Region>⟧) taken.loan)) }
    ensures source { IfOk result (λ taken. option_map source_of_loan taken.loan ≡ source) }
    ensures again { IfErr result (λ want. HasAgain (told_disk ⟦<D as Disk>⟧ disk.old) (told_disk ⟦<D as Disk>⟧ disk.new)) }
{
    let Ok(region) = disk.take(path) else {
        return Err(Memory);
    };
    match take_source(disk, source) {
        Ok(loan) => Ok(Taken { region, loan }),
        Err(Memory) => {
            disk.give(region);
            Err(Memory)
        }
    }
}

// Gives the part back that was to be read, if one was.
fn return_source<D: Disk>(disk: &mut D, read: Option<D::R>)
    requires { WasTaken (told_disk ⟦<D as Disk>⟧ disk.old) (option_map (told_part ⟦<D::R as Region>⟧) read) }
    ensures { (was : WasTaken (told_disk ⟦<D as Disk>⟧ disk.old) (option_map (told_part ⟦<D::R as Region>⟧) read)) → HasAgain was.before (told_disk ⟦<D as Disk>⟧ disk.new) }
{
    if let Some(region) = read {
        disk.give(region);
    }
}

/// Gives both parts back as they were taken, the one that was to be read first: the disk has again what it had. Takes no memory.
pub fn return_parts<D: Disk>(disk: &mut D, region: D::R, read: Option<D::R>)
    requires { WereTaken (told_disk ⟦<D as Disk>⟧ disk.old) (told_part ⟦<D::R as Region>⟧ region) (option_map (told_part ⟦<D::R as Region>⟧) read) }
    ensures { (was : WereTaken (told_disk ⟦<D as Disk>⟧ disk.old) (told_part ⟦<D::R as Region>⟧ region) (option_map (told_part ⟦<D::R as Region>⟧) read)) → HasAgain was.before (told_disk ⟦<D as Disk>⟧ disk.new) }
{
    return_source(disk, read);
    disk.give(region);
}
