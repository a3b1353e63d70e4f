// The standard input as a source.
ghost use Rattle.std.specs.Prelude.{◌≡◌, ◌≤◌, IfOk, OnOk, OnErr};
ghost use Rattle.pls_io.specs.Streams.{counted, untold, Rose, Reads};

use crate::attempt::{Reading, with_retries};
use crate::streams::{Failed, Source};
use std::io::Input;
use std::marker::Model;

/// What a runtime reads, as a source. It tells nothing of what is left.
#[derive(Drop)]
pub struct StdSource<R: Input> {
    reader: R::Reader,
    faults: u64,
}

impl<R: Input> Model for StdSource<R> {
    ghost use Rattle.std.specs.Prelude.{ℕ};

    ghost Value = { ℕ };

    ghost view = { λ s. s.faults };
}

impl<R: Input> StdSource<R> {
    /// The runtime's input, of which no read has failed yet.
    pub fn new(rt: &R) -> Self
        ensures { result ≡ 0 }
    {
        StdSource {
            reader: rt.reader(),
            faults: 0,
        }
    }
}

impl<R: Input> Source for StdSource<R> {
    ghost faults = { λ faults. faults };

    ghost left = { λ _. untold };

    /// Reads once, and again after an interruption, at most 1,000 times. One more is a fault.
    fn read(&mut self, buf: &mut [u8]) -> Result<usize, Failed>
        ensures count { self.old ≤ self.new }
        ensures cause { OnErr result (Rose self.old self.new) }
        ensures steady { OnOk result (self.new ≡ self.old) }
        ensures reads { IfOk result (λ n. Reads n untold buf.old untold buf.new) }

        ensures failed { OnErr result (self.new ≡ counted self.old) }
    {
        let call = Reading {
            reader: &mut self.reader,
            buf,
        };
        match with_retries(call) {
            Ok(n) => Ok(n),
            Err(_) => {
                self.faults = self.faults.saturating_add(1);
                Err(Failed)
            }
        }
    }
}
