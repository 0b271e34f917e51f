// The parts of a core, one method a request.

use crate::base::Base;
use debris_list::DebrisList;
use gate_core::Gate;
use holder_book::HolderBook;
use job_book::JobBook;
use kept_book::KeptBook;
use mat_model::Entry;
use mat_path::{Items, Path};
use row_book::RowBook;
use ticket_book::TicketBook;

/// What a core is made of. Its methods may leave it between two points.
#[derive(Drop)]
pub struct Parts<D, K> {
    pub base: Base<D, K>,
    pub first: u64,
    pub moment: u64,
    pub gate: Gate,
    pub rows: RowBook,
    pub holds: HolderBook,
    pub tickets: TicketBook,
    pub debris: DebrisList,
    pub jobs: JobBook,
    pub kept: KeptBook,
    /// The nodes that were declared.
    pub nodes: u64,
    /// The paths that have a row, a kept row or both.
    pub paths: u64,
    /// The paths of kept rows that were lost at the opening.
    pub lost: Items<Path>,
    pub history: Vec<Entry>,
    pub disk: D,
    pub keeper: K,
}
