//! ND-trees (Jaszkiewicz and Lust 2018) in the shared rows of `era_rows`: nodes and points as rows of words.
//!
//! [`NdLaw`] says which trees of rows are ND-trees, and for which accepted entries one stands: its points are the members of the
//! nondominated archive of what was submitted. [`covered`] and [`member`] ask the version that a pass has pinned. They read the
//! rows that the question needs and no others, and take no memory. [`gather`] lists its points. None of them waits for anybody.
//! `specs/` has the trees as values, the layout of their rows, and which rows a question needs.
#![tactic(auto)]

mod law;
mod layout;
mod points;
mod question;
mod questions;
mod reads;
mod remembers;
mod walk;

pub use law::{Adds, NdLaw};
pub use layout::{FIRST_LINK, IDEAL, INNER, LEAF, NADIR, PARTS, POINT, SOL_LEN, SOL_WORDS, VALUE};
pub use points::gather;
pub use questions::{covered, member};
pub use reads::{part_word, sided, word};
pub use remembers::{recalls, recalls_better, remember};
