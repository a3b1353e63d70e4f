// What gives bytes and what takes them, as the rest of a program sees them.
ghost use Rattle.std.specs.Prelude.{◌≡◌, ◌<◌, ◌≤◌, List, ℕ, Option, length, IfOk, OnOk, OnErr};
ghost use Rattle.pls_io.specs.Streams.{Rose, Reads, Writes};

/// A call of a source or a sink failed, and was counted there.
#[derive(Clone, Copy, Debug, PartialEq, Eq)]
pub struct Failed;

/// Gives bytes, a piece at a time.
pub trait Source {
    /// How many calls have failed. It rises at a failed call alone, and may stand still at the last value of a u64.
    ghost faults: { Self → ℕ };

    /// The bytes that are yet to be read, where the source tells them.
    ghost left: { Self → Option (List ℕ) };

    /// Reads the next bytes into the front of `buf`, and answers how many. 0 for a buffer that is
    /// not empty is the end of input. A call that failed took nothing, and may be made again.
    fn read(&mut self, buf: &mut [u8]) -> Result<usize, Failed>
        ensures count { faults self.old ≤ faults self.new }
        ensures cause { OnErr result (Rose (faults self.old) (faults self.new)) }
        ensures steady { OnOk result (faults self.new ≡ faults self.old) }
        ensures kept { OnErr result (left self.new ≡ left self.old) }
        ensures reads { IfOk result (λ n. Reads n (left self.old) buf.old (left self.new) buf.new) };
}

/// Takes bytes, a piece at a time.
pub trait Sink {
    /// How many calls have failed. It rises at a failed call alone, and may stand still at the last value of a u64.
    ghost faults: { Self → ℕ };

    /// The bytes that were written, where the sink tells them.
    ghost written: { Self → Option (List ℕ) };

    /// Writes the first bytes of `bytes`, and answers how many: at least one, unless `bytes` is
    /// empty. A call that failed wrote nothing, and may be made again.
    fn write(&mut self, bytes: &[u8]) -> Result<usize, Failed>
        ensures count { faults self.old ≤ faults self.new }
        ensures cause { OnErr result (Rose (faults self.old) (faults self.new)) }
        ensures steady { OnOk result (faults self.new ≡ faults self.old) }
        ensures kept { OnErr result (written self.new ≡ written self.old) }
        ensures writes { IfOk result (λ n. Writes n (written self.old) bytes.now (written self.new)) }
        ensures progress { IfOk result (λ n. 0 < length bytes.now → 0 < n) };
}
