use crate::{Point, PointList};
use pls_vectors::Vector;

/// A call of an archive.
#[derive(Clone, Copy, Debug)]
pub enum Call {
    /// The point is submitted.
    Update(Point),
    /// Is the value covered, so that a point of that value would not be brought in?
    Covered(Vector),
    /// Is the value that of a member of the archive?
    Member(Vector),
    /// The members of the archive, in ascending lexicographic order of values.
    Snapshot,
}

/// What an archive replies to a call.
#[derive(Debug, Drop)]
pub enum Reply {
    /// The submitted point is now a member, and this many members that it dominates no longer are
    /// (`2^32 - 1` where there are more).
    Added { removed: u32 },
    /// The point is not brought in: in a nondominated archive, a submitted point weakly dominates it.
    Refused,
    Yes,
    No,
    Points(PointList),
}

/// Whether a submitted point became a member: the reply of an update as the call returns it.
#[derive(Clone, Copy, Debug, PartialEq, Eq)]
pub enum Taken {
    Added { removed: u32 },
    Refused,
}

/// A call in a history, with its caller, its stamp and its reply.
///
/// An accepting entry, which brought something in, is stamped with its rank among the accepting ones, counted from 1; any
/// other with how many accepting entries there were when it took effect.
#[derive(Debug, Drop)]
pub struct Entry {
    pub caller: u32,
    pub stamp: u64,
    pub call: Call,
    pub reply: Reply,
}
