// The standard output as a sink.
ghost use Rattle.std.specs.Prelude.{◌≡◌, ◌<◌, ◌≤◌, length, IfOk, OnOk, OnErr};
ghost use Rattle.pls_io.specs.Streams.{counted, untold, Rose, Writes};

use crate::attempt::{Writing, with_retries};
use crate::streams::{Failed, Sink};
use std::io;
use std::io::Printer;
use std::marker::Model;

/// What a runtime prints, as a sink. It tells nothing of what was written, and keeps nothing back:
/// each byte that it takes is handed to the system within the call.
#[derive(Drop)]
pub struct StdSink<'a, R: Print> {
    printer: Printer<'a, R>,
    faults: u64,
}

impl<'a, R: Print> Model for StdSink<'a, R> {
    ghost use Rattle.std.specs.Prelude.{ℕ};

    ghost Value = { ℕ };

    ghost view = { λ s. s.faults };
}

impl<'a, R: Print> StdSink<'a, R> {
    /// The runtime's output, of which no write has failed yet.
    pub fn new(rt: &'a R) -> Self
        ensures { result ≡ 0 }
    {
        StdSink {
            printer: io::writer(rt),
            faults: 0,
        }
    }
}

impl<'a, R: Print> Sink for StdSink<'a, R> {
    ghost faults = { λ faults. faults };

    ghost written = { λ _. untold };

    /// Writes once, and again after an interruption, at most 1,000 times. One more is a fault, and
    /// so is a write that takes nothing of a piece that is not empty.
    fn write(&mut self, bytes: &[u8]) -> Result<usize, Failed>
        ensures count { self.old ≤ self.new }
        ensures cause { OnErr result (Rose self.old self.new) }

        // The trait's, which say nothing of the bytes here.
        ensures kept { OnErr result (untold ≡ untold) }
        ensures writes { IfOk result (λ n. Writes n untold bytes.now untold) }

        ensures progress { IfOk result (λ n. 0 < length bytes.now → 0 < n) }
        ensures steady { OnOk result (self.new ≡ self.old) }
        ensures failed { OnErr result (self.new ≡ counted self.old) }
    {
        let call = Writing {
            writer: &mut self.printer,
            bytes,
        };
        match with_retries(call) {
            Ok(n) if n > 0 || bytes.is_empty() => Ok(n),
            _ => {
                self.faults = self.faults.saturating_add(1);
                Err(Failed)
            }
        }
    }
}
