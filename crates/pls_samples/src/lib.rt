//! Values, points and words without order, for the tests of several crates.
#![tactic(auto)]

mod points;
mod words;

pub use points::{point, value};
pub use words::{next_word, point_of, vector_of};
