use mat_path::Items;

/// What reading a piece of a file answers.
#[derive(Debug, Drop)]
pub enum Got {
    /// The bytes of the piece.
    Bytes(Items<u8>),
    /// No file is there.
    Absent,
    /// The device failed.
    Failed,
    /// Want of memory.
    NoMemory,
}
