//! Tests of the program over streams in memory, and of searches whose workers meet.
#![tactic(auto)]

#[cfg(test)]
mod failing;
#[cfg(test)]
mod meeting;
#[cfg(test)]
mod program;
#[cfg(test)]
mod refusing;
#[cfg(test)]
mod searched;
