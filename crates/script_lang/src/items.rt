// What the lines of a script are.
use mat_digest::Digest;
use mat_model::{Device, Request};
use mat_path::{Items, Path};

/// What becomes of the parts of the disk that were not synced at a stop.
#[derive(Clone, Copy, Debug, PartialEq, Eq)]
pub enum Pick {
    /// Nothing of them is there.
    Nothing,
    /// They are what a read gave.
    Whole,
    /// They are what a read gave, but of each file the first half alone.
    Torn,
}

/// One thing that a script asks for.
#[derive(Debug, Drop)]
pub enum Item {
    /// A request of a command.
    Request(Request),
    /// To put bytes into the blob store under their digest.
    Blob(Items<u8>),
    /// To put bytes into the blob store under this digest.
    Lie { digest: Digest, bytes: Items<u8> },
    /// To have this moment, unless a later one is there.
    At(u64),
    /// One step of the worker of this number.
    Step(u32),
    /// Steps of all workers, until each is idle.
    Drain,
    /// The nodes of the disk at and below a path.
    Show(Path),
    /// How often the blob store was called.
    Asks,
    /// To have the k-th call of a device from here on fail.
    Fail { device: Device, k: u64 },
    /// To let so many calls of devices through, and stop at the next.
    Stop { k: u64, pick: Pick },
    /// To open the daemon again.
    Restart,
}

/// What a line says.
#[derive(Debug, Drop)]
pub enum Line {
    /// Nothing: it is empty or a note.
    Skip,
    /// That the script ends.
    End,
    /// Nothing that a line may say.
    Unread,
    /// An item.
    Item(Item),
    /// Want of memory: it is not known what the line says.
    NoMemory,
}
