//! Tests of the reclamation: the pure machine, the rows that threads share, and one row that each publication replaces.
#![tactic(auto)]

#[cfg(test)]
mod machine;
#[cfg(test)]
mod one_row;
#[cfg(test)]
mod rows;
