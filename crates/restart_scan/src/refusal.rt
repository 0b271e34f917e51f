ghost use Rattle.std.specs.Prelude.{◌≡◌};
ghost use Rattle.restart_scan.specs.declared.refusal.ScanRefusal.TheVariants.{NoMemory};

use mat_model::FaultNote;
use mat_path::{Items, Memory, Path};
use std::alloc::{AllocError, AllocFailed};

/// Why an opening is refused.
#[derive(Debug, Drop)]
pub enum ScanRefusal {
    /// A call of the state store failed.
    KeeperFault(FaultNote),
    /// A call of the disk, or of a part that it lent, failed.
    DiskFault(FaultNote),
    /// The text of a kept row's path is no path.
    BadPath(Items<u8>),
    /// The bytes of the row at this path are no row: the first field that is cut short or wrong begins at this offset. The
    /// offset is 0 too where a node of its tree would have too long a path.
    BadRow { path: Path, at: u64 },
    /// The row at this path belongs to the folder of another number.
    Foreign { path: Path, found: u64 },
    /// Two kept rows whose paths overlap.
    Overlap { first: Path, second: Path },
    /// There are this many kept rows, more than are allowed.
    Rows(u64),
    /// Want of memory.
    NoMemory,
}

impl From<Memory> for ScanRefusal {
    ghost from_gives = { λ _ e. e ≡ NoMemory };

    fn from(_: Memory) -> ScanRefusal {
        ScanRefusal::NoMemory
    }
}

impl From<AllocError> for ScanRefusal {
    ghost from_gives = { λ _ e. e ≡ NoMemory };

    fn from(_: AllocError) -> ScanRefusal {
        ScanRefusal::NoMemory
    }
}

impl<T: Drop> From<AllocFailed<T>> for ScanRefusal {
    ghost from_gives = { λ _ e. e ≡ NoMemory };

    fn from(_: AllocFailed<T>) -> ScanRefusal {
        ScanRefusal::NoMemory
    }
}
