ghost use Rattle.std.specs.Prelude.{◌≡◌};
ghost use Rattle.std.specs.Option.{option_map};

use mat_path::{Items, Target};

/// A node as a disk in memory keeps it.
#[derive(Debug, Drop)]
pub enum DiskNode {
    /// A directory.
    Dir,
    /// A file, with its bytes, and whether it is executable.
    File { bytes: Items<u8>, exec: bool },
    /// A symbolic link.
    Link(Target),
}

impl DiskNode {
    ghost use Rattle.std.specs.Prelude.{Some};
    ghost use Rattle.region_port.specs.Entries.{node_kept};
    ghost use Rattle.region_port.specs.Reads.{file_bytes};

    /// The bytes of a file. Takes no memory.
    pub(crate) fn bytes(&self) -> Option<&[u8]>
        ensures { option_map (λ bytes. bytes.now) result ≡ file_bytes (Some (node_kept self.now)) }
    {
        match self {
            DiskNode::File { bytes, exec: _ } => Some(bytes.as_slice()),
            _ => None,
        }
    }
}
