//! What waits to be explored.

use pls_archive::Point;

/// An accepted point that waits to be explored, with the stamp of the update that brought it in.
#[derive(Clone, Copy, Debug, PartialEq, Eq)]
pub struct Task {
    pub point: Point,
    pub stamp: u64,
}
