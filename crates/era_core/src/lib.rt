//! The pure machine under the shared tree: nodes in a word arena, versions of the tree, and reservations.
//!
//! The machine has no thread in it. Its words are the root, one reservation for each pass, one owner for each row,
//! and rows of [`WIDTH`] words; each pass has a view. Ten kinds of [`Event`] are all that can happen, and each is
//! one load, one store or one compare and exchange of one word. What is proved holds for every list of events, so
//! for every order in which passes that run beside one another may take their steps: a row is never given out again
//! while a pass can still read it. This is after hazard eras and epoch reclamation.
#![tactic(auto)]

mod arena;
mod event;
mod laws;
mod lists;
mod pass;
mod play;
mod reserved;
mod sizes;
mod walk;
mod words;

pub use arena::Core;
pub use event::Event;
pub use laws::{
    events_keep_soundness, fresh_reads, pinned_reads, schedules_are_sound, taken_rows_are_unread,
    trees_are_closed, versions_stand,
};
pub use lists::remove_row;
pub use play::PlayRefusal;
pub use reserved::{is_clear, lesser};
pub use sizes::{KINDS, LAST_VERSION, MOST_LINKS, MOST_PASSES, MOST_ROWS, ROOT_ROWS, WIDTH};
pub use words::{first_words, packed};
