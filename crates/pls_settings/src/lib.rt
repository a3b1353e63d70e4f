//! The command line: its words, and the settings that they stand for.
//!
//! [`ArgWords`] holds the words in one buffer, and [`settings`] reads them. `specs/Line.antt` says which
//! words are a command line, and what they stand for.
#![tactic(auto)]

mod arg_words;
mod choices;
mod line;
mod values;

pub use arg_words::ArgWords;
pub use choices::{Mode, Settings, SettingsRefusal};
pub use line::settings;
