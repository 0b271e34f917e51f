use crate::book::Row;
use mat_path::{Items, Path};

/// What an opening of the daemon found.
#[derive(Debug, Drop)]
pub struct Opening {
    /// The kept rows that aren't lost, in path order: each stands, with stamps 0, 1, 2 and on.
    pub rows: Items<Row>,
    /// The paths of those rows that the state store has in the first version of its bytes, in order.
    pub version1: Items<Path>,
    /// The kept paths whose part of the disk hasn't the kept tree, in order.
    pub lost: Items<Path>,
    /// The paths at which the disk has something that belongs to no kept row, in order.
    pub strays: Items<Path>,
}
