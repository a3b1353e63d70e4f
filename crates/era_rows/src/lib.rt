//! Rows of [`WIDTH`](era_core::WIDTH) words that threads share, on real atomic words.
//!
//! [`Rows`] keeps the words of the pure machine of `era_core` in one table, under a [`Law`] that says which trees of
//! rows are lawful and for which entries they stand. Each thread steps with a [`Pass`]: it pins a version and reads its
//! rows, writes a new tree into rows that it took, and publishes it by one compare and exchange of the root word. It also
//! remembers a few words for its caller, with a meaning that the law gives them. A retired row is given out again only when
//! no pass can read it. No call waits, and all but the start take no memory.
//! `specs/Rule.antt` has the rule that holds between any two steps, in every schedule.
#![tactic(auto)]

mod accessors;
mod freed;
mod joins;
mod law;
mod laws;
mod marks;
mod memory;
mod pass;
mod pins;
mod places;
mod plays;
mod publishes;
mod reach;
mod reads;
mod refusal;
mod ring;
mod rows;
mod sizes;
mod starts;
mod takes;
mod tidies;
mod views;
mod work;

pub use law::{Law, Names, Nothing};
pub use laws::{
    free_rows_are_unused, held_rows_are_different, looks_are_counted, pinned_versions_stand,
    started_passes_are_consistent, written_words_are_fresh,
};
pub use memory::{MEMORY_PLACES, MEMORY_WORDS};
pub use pass::Pass;
pub use refusal::PublishRefusal;
pub use rows::Rows;
pub use sizes::LEAST_ROWS;
