use mat_path::Items;

/// What a fetch answers.
#[derive(Debug, Drop)]
pub enum Fetched {
    /// These bytes, no more than were asked for.
    Bytes(Items<u8>),
    /// The store has no bytes under the digest.
    Absent,
    /// The store failed, and its count of faults rose.
    Failed,
    /// Memory was refused.
    NoMemory,
}
