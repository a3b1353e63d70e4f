//! An archive on one thread that several threads share by turns.
//!
//! [`Turned`] keeps the archive in one slot of a table. A call takes the turn, works on the archive, and gives the turn back by a
//! store that counts the accepting entries; its place in the history is that of this store. A caller that finds the turn held
//! waits and tries again: nothing is said of who is served when. `specs/TurnRule.antt` has the rule that holds between any two
//! steps, in every schedule; [`Shared`](pls_archive::Shared) has what the calls promise.
#![tactic(auto)]

mod answers;
mod joins;
mod plays;
mod questions;
mod seen;
mod shared_calls;
mod starts;
mod terms;
mod turned;
mod turns;
mod updates;
mod work;

pub use turned::{TurnPass, Turned};
