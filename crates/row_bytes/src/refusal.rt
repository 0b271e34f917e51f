ghost use Rattle.std.specs.Prelude.{◌≡◌};
ghost use Rattle.row_bytes.specs.declared.refusal.RowRefusal.TheVariants.{NoMemory};

use mat_path::Memory;
use std::alloc::AllocFailed;

/// Why bytes are no row.
#[derive(Clone, Copy, Debug, PartialEq, Eq)]
pub enum RowRefusal {
    /// The first field that is cut short or wrong begins at this offset.
    Bad(usize),
    /// Want of memory.
    NoMemory,
}

impl From<Memory> for RowRefusal {
    ghost from_gives = { λ _ e. e ≡ NoMemory };

    fn from(_: Memory) -> RowRefusal {
        RowRefusal::NoMemory
    }
}

impl<T: Drop> From<AllocFailed<T>> for RowRefusal {
    ghost from_gives = { λ _ e. e ≡ NoMemory };

    fn from(_: AllocFailed<T>) -> RowRefusal {
        RowRefusal::NoMemory
    }
}
