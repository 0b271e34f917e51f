// Rows are stored.
ghost use Rattle.std.specs.Prelude.{◌≡◌, ◌∷◌, [], true};
ghost use Rattle.keep_port.specs.declared.row.RawRow.{RawRow as TheRow};
ghost use Rattle.core_devices.specs.Stores.{HasStored};
ghost use Rattle.core_devices.specs.Told.{told_store};

use keep_port::{Keeper, RawRow};
use mat_io::Did;
use mat_model::{Device, FaultNote, Recorded};

/// Stores one row in one call of the state store, and says whether it took it.
pub fn store_row<K: Keeper>(keeper: &mut K, row: RawRow) -> Recorded
    ensures stored { HasStored row result (told_store ⟦<K as Keeper>⟧ keeper.old) (told_store ⟦<K as Keeper>⟧ keeper.new) }
{
    let before = keeper.faults();
    match keeper.store_rows(&[row], &[]) {
        Did::Done => Recorded::Kept,
        Did::Failed => Recorded::NotKept(FaultNote {
            device: Device::Keeper,
            before,
            after: keeper.faults(),
        }),
        Did::NoMemory => Recorded::NoMemory,
    }
}
