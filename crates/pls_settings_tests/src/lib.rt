//! The tests of `pls_settings`: the words of a command line, and the settings that they stand for.
#![tactic(auto)]

#[cfg(test)]
mod line;
