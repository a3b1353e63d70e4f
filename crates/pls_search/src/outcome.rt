//! What a search gives back.

use crate::end::End;
use pls_archive::PointList;

/// How a search ended, and the members of the archive in ascending lexicographic order of values. The pass holds the lists of
/// all callers.
pub struct Outcome<P> {
    pub end: End,
    pub front: PointList,
    pub explored: u64,
    pub evaluated: u64,
    pub accepted: u64,
    pub pass: P,
}

/// Memory ran out.
pub struct NoMemory<P> {
    pub pass: P,
}
