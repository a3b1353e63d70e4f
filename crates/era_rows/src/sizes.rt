//! What the rows keep from their start.

/// The least number of rows.
pub const LEAST_ROWS: u32 = 64;

/// The shape, and how many rows and passes there are.
#[derive(Drop)]
pub struct Sizes {
    pub shape: u64,
    pub rows: u32,
    pub passes: u32,
}
