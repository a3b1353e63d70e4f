//! The two questions about a value.

/// What is asked of the points of a version about a value.
#[derive(Clone, Copy)]
pub enum Question {
    /// Does a point cover it?
    Covers,
    /// Does a point have it?
    Equals,
}
