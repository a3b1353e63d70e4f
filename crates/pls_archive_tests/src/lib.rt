//! The tests of `pls_archive`, `nd_tree` and `pls_turn`.
#![tactic(auto)]

#[cfg(test)]
mod nine_calls;
#[cfg(test)]
mod plain;
#[cfg(test)]
mod point_list;
#[cfg(test)]
mod split;
#[cfg(test)]
mod tree;
#[cfg(test)]
mod turned;
