// How a call on a device failed.
ghost use Rattle.std.specs.Prelude.{◌≡◌};
ghost use Rattle.job_run.specs.Failures.{did_failure, note_of};

use mat_io::Did;
use mat_model::{Device, FaultNote, Outcome};

/// A fault of a device, with its counts around the call.
pub(crate) fn fault(device: Device, before: u64, after: u64) -> Outcome
    ensures { result ≡ Outcome.Fault (note_of device before after) }
{
    Outcome::Fault(FaultNote {
        device,
        before,
        after,
    })
}

/// How a call on the disk failed that gives no value, if it did.
pub(crate) fn did_failure(did: Did, before: u64, after: u64) -> Option<Outcome>
    ensures { result ≡ did_failure before after did }
{
    match did {
        Did::Done => None,
        Did::Failed => Some(fault(Device::Disk, before, after)),
        Did::NoMemory => Some(Outcome::NoMemory),
    }
}
