// Calls that a signal may interrupt.
ghost use Rattle.std.specs.Prelude.{◌≡◌, ◌≤◌, ℕ, length, IfOk};

use std::io;
use std::io::{ErrorKind, Read, Write};

// How often one call is made again.
const RETRIES: u32 = 1_000;

/// Moves bytes by one call of the system.
pub(crate) trait Attempt {
    /// The most that it can move.
    ghost room: { Self → ℕ };

    fn attempt(&mut self) -> io::Result<usize>
        ensures room { room self.new ≡ room self.old }
        ensures bound { IfOk result (λ n. n ≤ room self.old) };
}

/// A read into a buffer.
#[derive(Drop)]
pub(crate) struct Reading<'a, R> {
    pub reader: &'a mut R,
    pub buf: &'a mut [u8],
}

impl<'a, R: Read> Attempt for Reading<'a, R> {
    ghost room = { λ r. length r.buf.now };

    fn attempt(&mut self) -> io::Result<usize> {
        self.reader.read(self.buf)
    }
}

/// A write of a piece.
#[derive(Drop)]
pub(crate) struct Writing<'a, 'b, W> {
    pub writer: &'a mut W,
    pub bytes: &'b [u8],
}

impl<'a, 'b, W: Write> Attempt for Writing<'a, 'b, W> {
    ghost room = { λ w. length w.bytes.now };

    fn attempt(&mut self) -> io::Result<usize> {
        self.writer.write(self.bytes)
    }
}

/// Makes an attempt, and makes it again while it is interrupted, at most `RETRIES` times.
pub(crate) fn with_retries<A: Attempt + Drop>(mut call: A) -> io::Result<usize>
    ensures { IfOk result (λ n. n ≤ A.room call) }
{
    for _ in 0..RETRIES {
        match call.attempt() {
            Err(e) if e.kind() == ErrorKind::Interrupted => {}
            result => return result,
        }
    }
    call.attempt()
}
