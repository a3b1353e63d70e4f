// A sink over memory, with planned failures.
ghost use Rattle.std.specs.Prelude.{◌≡◌, [], OnOk, OnErr, IfOk, IsErr, ◌↔◌, ◌<◌, ◌≤◌, length, min, Some};
ghost use Rattle.pls_io.specs.Streams.{Rose, Writes};
ghost use Rattle.pls_io.specs.Memory.{took, sink_failed, CannotTake};

use crate::plan::is_planned;
use crate::streams::{Failed, Sink};
use std::alloc::{AllocError, Global};
use std::marker::Model;

/// Keeps what is written, as far as there is room. Its calls are counted from 1, and those whose
/// numbers are planned fail. It never takes memory after it was made.
#[derive(Drop)]
pub struct MemSink {
    bytes: Vec<u8>,
    room: usize,
    most: usize,
    fails: Vec<u32>,
    call: u64,
    faults: u64,
}

impl Model for MemSink {
    ghost use Rattle.std.specs.Prelude.{◌+◌, ◌<◌, ◌≤◌, vec_len, vec_capacity};
    ghost use Rattle.pls_io.specs.Memory.{SinkState};

    ghost Value = { SinkState };

    ghost view = { λ s. record { written = s.bytes.items; room = s.room; most = s.most; call = s.call; fails = s.fails.items; faults = s.faults } };

    ghost invariant = { λ s. (vec_len s.bytes + s.room ≤ vec_capacity s.bytes) × (0 < s.most) };
}

impl MemSink {
    /// An empty sink with room for `room` bytes, which takes at most `most` of them in a call, and
    /// whose calls with these numbers fail.
    pub fn new(alloc: Global, room: usize, most: usize, fails: Vec<u32>) -> Result<Self, AllocError>
        requires { 0 < most }
        ensures { IfOk result (λ s. s ≡ record { written = []; room = room; most = most; call = 1; fails = fails.items; faults = 0 }) }
    {
        let bytes = Vec::with_capacity(alloc, room)?;
        Ok(MemSink {
            bytes,
            room,
            most,
            fails,
            call: 1,
            faults: 0,
        })
    }

    /// What was written.
    pub fn written(&self) -> &[u8]
        ensures { result.now ≡ self.now.written }
    {
        &self.bytes
    }
}

impl Sink for MemSink {
    ghost faults = { λ s. s.faults };

    ghost written = { λ s. Some s.written };

    /// Takes the first bytes of the piece, as many as there is room for and a call may take.
    fn write(&mut self, bytes: &[u8]) -> Result<usize, Failed>
        ensures count { self.old.faults ≤ self.new.faults }
        ensures cause { OnErr result (Rose self.old.faults self.new.faults) }
        ensures steady { OnOk result (self.new.faults ≡ self.old.faults) }
        ensures kept { OnErr result (Some self.new.written ≡ Some self.old.written) }
        ensures writes { IfOk result (λ n. Writes n (Some self.old.written) bytes.now (Some self.new.written)) }
        ensures progress { IfOk result (λ n. 0 < length bytes.now → 0 < n) }

        ensures planned { IsErr result ↔ CannotTake bytes.now self.old }
        ensures failed { OnErr result (self.new ≡ sink_failed self.old) }
        ensures fits { IfOk result (λ n. n ≡ min (length bytes.now) (min self.old.room self.old.most)) }
        ensures took { IfOk result (λ n. self.new ≡ took n bytes.now self.old) }
    {
        let call = self.call;
        self.call = call.saturating_add(1);
        let is_full = self.room == 0 && !bytes.is_empty();
        if is_full || is_planned(&self.fails, call) {
            self.faults = self.faults.saturating_add(1);
            return Err(Failed);
        }
        let n = bytes.len().min(self.room.min(self.most));
        self.bytes.extend_from_slice(&bytes[..n]).unwrap();
        self.room -= n;
        Ok(n)
    }
}
