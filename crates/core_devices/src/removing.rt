// Rows of the state store are removed.
ghost use Rattle.std.specs.Prelude.{◌≡◌, false};
ghost use Rattle.core_devices.specs.Removals.{HasRemoved, are_some};
ghost use Rattle.core_devices.specs.Told.{told_store};

use keep_port::Keeper;
use mat_io::Did;
use mat_model::{Device, FaultNote};
use mat_path::Path;

/// What became of a removal of rows.
#[derive(Clone, Copy, Debug, PartialEq, Eq)]
pub enum Removal {
    /// They are gone.
    Done,
    /// The state store failed, and has them still.
    Failed(FaultNote),
    /// Memory was wanting, and it has them still.
    NoMemory,
}

/// Removes the rows at some paths in one call of the state store; where there are none, in no call.
pub fn remove_rows<K: Keeper>(keeper: &mut K, paths: &[Path]) -> Removal
    ensures removed { HasRemoved paths.now result (told_store ⟦<K as Keeper>⟧ keeper.old) (told_store ⟦<K as Keeper>⟧ keeper.new) }
    ensures none { are_some paths.now ≡ false → result ≡ Removal.Done }
    ensures same { are_some paths.now ≡ false → keeper.new ≡ keeper.old }
{
    if paths.is_empty() {
        return Removal::Done;
    }
    let before = keeper.faults();
    match keeper.remove(paths) {
        Did::Done => Removal::Done,
        Did::Failed => Removal::Failed(FaultNote {
            device: Device::Keeper,
            before,
            after: keeper.faults(),
        }),
        Did::NoMemory => Removal::NoMemory,
    }
}
