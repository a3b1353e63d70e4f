//! What a turned archive keeps from its start.

use std::snapshot::Snapshot;

/// The archive as it was at the start, known to contracts alone, and how many passes there are.
#[derive(Drop)]
pub struct Terms<S> {
    pub single: Snapshot<S>,
    pub passes: u32,
}
