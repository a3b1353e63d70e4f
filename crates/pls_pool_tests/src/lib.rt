//! Tests of `pls_pool`: tasks in order and by four threads, and the desk.
#![tactic(auto)]

#[cfg(test)]
mod desk;
#[cfg(test)]
mod pool;
