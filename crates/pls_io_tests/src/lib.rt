//! The tests of `pls_io`: streams in memory, the adapters over the real streams, and the words of a text.
#![tactic(auto)]

#[cfg(test)]
mod adapters;
#[cfg(test)]
mod streams;
#[cfg(test)]
mod words;
