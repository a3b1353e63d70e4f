use pls_vectors::{Sol, Vector};

/// A value with a solution that has it.
#[derive(Clone, Copy, Debug, PartialEq, Eq)]
pub struct Point {
    pub value: Vector,
    pub sol: Sol,
}
