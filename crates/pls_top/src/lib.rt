//! The program as a function from words and bytes to bytes.
//!
//! [`run`] reads the words of the command line; then it searches the instance that the source gives, or
//! makes an instance and writes or searches it. What it writes is the text of that, or the line of a fault.
//! `specs/` says what is written.
#![tactic(auto)]

mod fault_line;
mod journal;
mod program;
mod report;
mod search;
mod status;

pub use journal::Journal;
pub use pls_search::{End, Gate, NoGate};
pub use pls_settings::{ArgWords, Mode, Settings, SettingsRefusal, settings};
pub use program::run;
pub use report::{Counts, demo_text, report_text};
pub use status::Status;
