use mat_path::{Items, Path};
use mat_tree::{Sum, Tree};

/// What a clean does.
#[derive(Clone, Copy, Debug, PartialEq, Eq)]
pub enum CleanMode {
    /// It removes the stale rows.
    Real,
    /// It removes nothing, and tells what it would remove.
    Dry,
    /// It removes the stale rows and all debris.
    All,
}

/// What a command asks of the daemon.
#[derive(Debug, Drop)]
pub enum Request {
    /// To become live on a state. A soft command may be ended by one that comes with another state; one that refuses
    /// another state would rather be told which is live than wait.
    Enter {
        command: u32,
        state: u64,
        soft: bool,
        refuse: bool,
    },
    /// To go, with its holds.
    Leave {
        command: u32,
    },
    /// To declare the file of these bytes, not executable.
    Write {
        command: u32,
        path: Path,
        bytes: Items<u8>,
    },
    /// To declare a tree whose files come from the store.
    Declare {
        command: u32,
        path: Path,
        tree: Tree,
    },
    /// To declare what is declared at another path.
    Copy {
        command: u32,
        path: Path,
        source: Path,
    },
    /// To compare a sum with that of the row at a path.
    Matches {
        command: u32,
        path: Path,
        sum: Sum,
    },
    /// To know whether what covers a path stands.
    Has {
        command: u32,
        path: Path,
    },
    /// To have what is declared at a path on the disk.
    Ensure {
        command: u32,
        path: Path,
    },
    /// To remove each row that overlaps a path.
    Invalidate {
        command: u32,
        path: Path,
    },
    /// To remove the rows that stand, that nothing holds and that were last used before a moment.
    Clean {
        cutoff: u64,
        mode: CleanMode,
    },
    /// To store the rows that stand.
    Flush,
}

/// A request as a history keeps it: without the bytes of a file.
#[derive(Debug, Drop)]
pub enum Asked {
    Enter {
        command: u32,
        state: u64,
        soft: bool,
        refuse: bool,
    },
    Leave {
        command: u32,
    },
    Write {
        command: u32,
        path: Path,
        sum: Sum,
    },
    Declare {
        command: u32,
        path: Path,
        tree: Tree,
    },
    Copy {
        command: u32,
        path: Path,
        source: Path,
    },
    Matches {
        command: u32,
        path: Path,
        sum: Sum,
    },
    Has {
        command: u32,
        path: Path,
    },
    Ensure {
        command: u32,
        path: Path,
    },
    Invalidate {
        command: u32,
        path: Path,
    },
    Clean {
        cutoff: u64,
        mode: CleanMode,
    },
    Flush,
}
