//! A call at the beginning of each exploration.

/// Is called at the beginning of each exploration, so that a test can hold workers back.
pub trait Gate: Sync {
    /// Worker `worker` begins its exploration number `exploration`, counted from 0 and modulo 2^64.
    fn at(&self, worker: u32, exploration: u64);
}

/// Holds nobody back.
#[derive(Clone, Copy, Debug)]
pub struct NoGate;

impl Gate for NoGate {
    fn at(&self, _worker: u32, _exploration: u64) {}
}
