//! The tests of `pls_vectors`: vectors, their boxes, solutions, and parts as words.
#![tactic(auto)]

#[cfg(test)]
mod made;
#[cfg(test)]
mod range;
#[cfg(test)]
mod sol;
#[cfg(test)]
mod vector;
#[cfg(test)]
mod words;
