//! The smallest use of `era_rows`: one row that threads share, and that each publication replaces by another.
//!
//! [`read_current`] reads a word of the current version, under any law. [`replace`] publishes a row with a word, under
//! [`OneRow`], the law whose trees are one row without links. Where no row is free, the pass keeps an evidence of it, which
//! [`join`] hands on.
#![tactic(auto)]

mod finds;
mod joins;
mod law;
mod reads;
mod replaces;

pub use finds::find_row;
pub use joins::join;
pub use law::{OneRow, Stamped};
pub use reads::read_current;
pub use replaces::{Replaced, finish, open, prepare, replace};
