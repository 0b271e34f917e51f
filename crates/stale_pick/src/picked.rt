use mat_model::Gone;
use mat_path::{Items, Path};

/// What a clean takes of some rows, and what it leaves, each in the order of the rows.
#[derive(Debug, Drop)]
pub struct Picked {
    /// The stale rows: the path of each, and how many bytes its files have.
    pub gone: Items<Gone>,
    pub kept: Items<Spared>,
}

/// A row that a clean leaves, by its path, and why.
#[derive(Debug, Drop)]
pub struct Spared {
    pub path: Path,
    pub why: Why,
}

/// Why a clean leaves a row: the first reason that holds.
#[derive(Clone, Copy, Debug, PartialEq, Eq)]
pub enum Why {
    /// The row doesn't stand.
    NotStanding,
    /// A hold is on a path that overlaps the row's.
    Held,
    /// The row was used at the cutoff or later.
    Used,
}
