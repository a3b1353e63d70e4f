// A source over memory, with planned failures.
ghost use Rattle.std.specs.Prelude.{◌≡◌, [], OnOk, OnErr, IfOk, IsErr, Contains, ◌↔◌, ◌≤◌, ◌++◌, length, min, take, drop, Some};
ghost use Rattle.pls_io.specs.Streams.{Rose, Reads};
ghost use Rattle.pls_io.specs.Memory.{gave, source_failed};

use crate::plan::is_planned;
use crate::streams::{Failed, Source};
use std::marker::Model;

/// Gives the bytes of a list. Its calls are counted from 1, and those whose numbers are planned
/// fail. The count stands still at the end of a u64, past every number that can be planned.
#[derive(Drop)]
pub struct MemSource {
    bytes: Vec<u8>,
    at: usize,
    fails: Vec<u32>,
    call: u64,
    faults: u64,
}

impl Model for MemSource {
    ghost use Rattle.std.specs.Prelude.{◌≤◌, drop, vec_len};
    ghost use Rattle.pls_io.specs.Memory.{SourceState};

    ghost Value = { SourceState };

    ghost view = { λ s. record { left = drop s.at s.bytes.items; call = s.call; fails = s.fails.items; faults = s.faults } };

    ghost invariant = { λ s. s.at ≤ vec_len s.bytes };
}

impl MemSource {
    /// A source of these bytes, whose calls with these numbers fail.
    pub fn new(bytes: Vec<u8>, fails: Vec<u32>) -> Self
        ensures { result ≡ record { left = bytes.items; call = 1; fails = fails.items; faults = 0 } }
    {
        MemSource {
            bytes,
            at: 0,
            fails,
            call: 1,
            faults: 0,
        }
    }
}

impl Source for MemSource {
    ghost faults = { λ s. s.faults };

    ghost left = { λ s. Some s.left };

    /// Gives as many of the bytes that are left as fit the buffer.
    fn read(&mut self, buf: &mut [u8]) -> Result<usize, Failed>
        ensures count { self.old.faults ≤ self.new.faults }
        ensures cause { OnErr result (Rose self.old.faults self.new.faults) }
        ensures steady { OnOk result (self.new.faults ≡ self.old.faults) }
        ensures kept { OnErr result (Some self.new.left ≡ Some self.old.left) }
        ensures reads { IfOk result (λ n. Reads n (Some self.old.left) buf.old (Some self.new.left) buf.new) }

        ensures planned { IsErr result ↔ Contains self.old.fails self.old.call }
        ensures failed { OnErr result (self.new ≡ source_failed self.old) }
        ensures fits { IfOk result (λ n. n ≡ min (length self.old.left) (length buf.old)) }
        ensures gave { IfOk result (λ n. self.new ≡ gave n self.old) }
    {
        let call = self.call;
        self.call = call.saturating_add(1);
        if is_planned(&self.fails, call) {
            self.faults = self.faults.saturating_add(1);
            return Err(Failed);
        }
        let n = copy_front(&self.bytes[self.at..], buf);
        self.at += n;
        Ok(n)
    }
}

// Copies as much as fits to the front of the buffer, and answers how much that is.
fn copy_front(from: &[u8], buf: &mut [u8]) -> usize
    ensures fits { result ≡ min (length from.now) (length buf.old) }
    ensures filled { buf.new ≡ take result from.now ++ drop result buf.old }
{
    let n = from.len().min(buf.len());
    buf[..n].copy_from_slice(&from[..n]);
    n
}
