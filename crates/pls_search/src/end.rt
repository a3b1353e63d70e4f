//! How a search ends.

/// How a search ends.
#[derive(Clone, Copy, Debug, PartialEq, Eq)]
pub enum End {
    /// Every accepted point was explored.
    Closed,
    /// No move was left.
    Stopped,
    /// The archive had no room.
    Full,
}
