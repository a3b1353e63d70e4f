//! A gate at which workers meet.

use pls_top::Gate;
use std::alloc::{AllocError, Global};
use std::sync::atomic::{AtomicU64, Ordering};
use std::thread::yield_now;

/// The most turns that all calls together wait.
const MOST_TURNS: u64 = 50_000_000;

/// Holds each call at the beginning of an exploration until every worker has begun one, but for the first `free` calls. After
/// `MOST_TURNS` turns it lets all go, and then the meeting did not take place.
#[derive(Drop)]
pub(crate) struct Meeting {
    /// How many explorations each worker began.
    begun: Vec<AtomicU64>,
    free: u64,
    calls: AtomicU64,
    /// How many calls came from no worker, or with another number than that of the worker's exploration.
    wrong: AtomicU64,
    turns: AtomicU64,
}

impl Meeting {
    pub(crate) fn new(alloc: Global, workers: usize, free: u64) -> Result<Meeting, AllocError> {
        let mut begun = Vec::new(alloc);
        for _ in 0..workers {
            begun.push(AtomicU64::new(0))?;
        }
        Ok(Meeting {
            begun,
            free,
            calls: AtomicU64::new(0),
            wrong: AtomicU64::new(0),
            turns: AtomicU64::new(0),
        })
    }

    /// Every worker has begun an exploration.
    fn is_complete(&self) -> bool {
        self.begun
            .iter()
            .all(|begun| begun.load(Ordering::SeqCst) > 0)
    }

    /// Every worker came, and none was let go before; and each call had the number of the worker's exploration.
    pub(crate) fn took_place(&self) -> bool {
        self.is_complete()
            && self.turns.load(Ordering::SeqCst) < MOST_TURNS
            && self.wrong.load(Ordering::SeqCst) == 0
    }

    /// Notes a call.
    fn note(&self, worker: u32, exploration: u64) {
        let before = match self.begun.get(worker as usize) {
            Some(begun) => begun.fetch_add(1, Ordering::SeqCst),
            None => u64::MAX,
        };
        if before != exploration {
            self.wrong.fetch_add(1, Ordering::SeqCst);
        }
    }
}

impl Gate for Meeting {
    fn at(&self, worker: u32, exploration: u64) {
        self.note(worker, exploration);
        if self.calls.fetch_add(1, Ordering::SeqCst) < self.free {
            return;
        }
        for _ in 0..MOST_TURNS {
            if self.is_complete() || self.turns.fetch_add(1, Ordering::SeqCst) >= MOST_TURNS {
                return;
            }
            yield_now();
        }
    }
}
