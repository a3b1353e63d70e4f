//! Vectors of objective values, and solutions.
//!
//! Values are maximised in every part. A [`Vector`] is seen by contracts as the list of its parts, a
//! [`Range`] as its ideal and nadir point, a [`Sol`] as its length and its 32 words. Dominance and the nondominated archive of a sequence of
//! submissions are defined in `specs/`. No call takes memory.
#![tactic(auto)]

mod laws;
mod range;
mod sol;
mod vector;
mod words;

pub use laws::{archive_laws, dominance_laws};
pub use range::{Decision, Range};
pub use sol::Sol;
pub use vector::Vector;
pub use words::{from_word, to_word};
