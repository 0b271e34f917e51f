// What a core begins with.
use mat_model::{Limits, Opening};
use std::snapshot::Snapshot;

/// What a core began with, which never changes.
#[derive(Drop)]
pub struct Base<D, K> {
    pub limits: Limits,
    pub identity: u64,
    pub check: bool,
    pub opening: Snapshot<Opening>,
    pub disk: Snapshot<D>,
    pub keeper: Snapshot<K>,
}
