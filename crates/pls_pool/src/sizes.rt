//! What a desk keeps from its start.

/// How many moves there are, and how many seats.
#[derive(Drop)]
pub struct Sizes {
    pub moves: u64,
    pub seats: u32,
}
