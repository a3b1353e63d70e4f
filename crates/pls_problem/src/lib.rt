//! Instances of any kind of problem, and their text.
//!
//! [`read`] makes an [`Instance`] of its text, or says what is wrong with the text and where; [`write`]
//! writes the text, from which [`read`] makes the same instance. [`make`] makes an instance from a seed,
//! and [`starts`] the solutions from which a search begins. The calls of [`Instance`] are those of its
//! kind: what is feasible, what it is worth, and the walk over the neighbours of a solution.
//!
//! Random words are those of Xoshiro256++; what draws them is generic in [`rand_core::Rng`], so its
//! contract speaks of any stream of words. After want of memory nothing that was handed in has changed.
#![tactic(auto)]

mod instance;
mod kind;
mod laws;
mod make_spec;
mod maker;
mod reader;
mod rows;
mod shuffle;
mod sizes;
mod start;
mod writer;

pub use instance::{Instance, Walk};
pub use kind::Kind;
pub use laws::instance_laws;
pub use make_spec::MakeSpec;
pub use maker::make;
pub use reader::{BadInstance, read};
pub use start::starts;
pub use writer::write;
