//! Why a run is halted, and what a draw answers.

/// Why a run is halted: no move is left, the archive is full, or memory ran out.
#[derive(Clone, Copy, Debug, PartialEq, Eq, Drop)]
pub enum Cause {
    Spent,
    Full,
    Memory,
}

/// What a draw answers: a move, or that none is left.
#[derive(Clone, Copy, Debug, PartialEq, Eq, Drop)]
pub enum Draw {
    Go,
    Spent,
}
