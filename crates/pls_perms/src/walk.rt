use crate::pair::Pair;
use crate::sums::Sums;
use pls_vectors::Sol;

/// A walk over the neighbours of a permutation: where it starts, with its sums, and the pair of places of
/// the neighbour that it gave last.
#[derive(Clone, Copy, Debug)]
pub struct Walk {
    pub(crate) start: Sol,
    pub(crate) sums: Sums,
    pub(crate) pair: Pair,
}
