// The parts of a job that has ended come back.
ghost use Rattle.std.specs.Prelude.{◌≡◌, ◌≤◌, true};
ghost use Rattle.std.specs.List.{list_any};
ghost use Rattle.std.specs.Option.{option_map};
ghost use Rattle.mat_path.specs.Names.{same_names};
ghost use Rattle.mat_model.specs.WorkState.{Job};
ghost use Rattle.core_devices.specs.Events.{HasBack, HasJoined};
ghost use Rattle.core_devices.specs.Gives.{AreOf, HasRisenBy, IsStillOut, content_of, rough_of};
ghost use Rattle.core_devices.specs.Told.{told_disk, told_part};

use region_port::{Disk, Region};

/// Gives the part of a task back, and then the one that was read, if one was. Takes no memory.
pub fn give_parts<D: Disk>(disk: &mut D, region: D::R, read: Option<D::R>)
    requires out { list_any (same_names (D.R.place region)) (D.lent disk.old) ≡ true }
    requires read { IsStillOut (D.R.place region) (option_map (told_part ⟦<D::R as Region>⟧) read) (D.lent disk.old) }
    ensures back { (job : Job) → AreOf job (told_part ⟦<D::R as Region>⟧ region) (option_map (told_part ⟦<D::R as Region>⟧) read) → HasBack job (D.R.part region) (D.R.rough region) (content_of (option_map (told_part ⟦<D::R as Region>⟧) read)) (rough_of (option_map (told_part ⟦<D::R as Region>⟧) read)) (told_disk ⟦<D as Disk>⟧ disk.old) (told_disk ⟦<D as Disk>⟧ disk.new) }
    ensures joined { HasJoined (told_part ⟦<D::R as Region>⟧ region) (option_map (told_part ⟦<D::R as Region>⟧) read) (told_disk ⟦<D as Disk>⟧ disk.old) (told_disk ⟦<D as Disk>⟧ disk.new) }
    ensures counted { 1 ≤ D.R.fault_count region → 1 ≤ D.fault_count disk.new }
    ensures read_counted { HasRisenBy (option_map (told_part ⟦<D::R as Region>⟧) read) (D.fault_count disk.new) }
{
    disk.give(region);
    if let Some(region) = read {
        disk.give(region);
    }
}
