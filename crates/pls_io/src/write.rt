// All of a piece into a sink.
ghost use Rattle.std.specs.Prelude.{◌≡◌, ◌≤◌, length, OnOk, OnErr, IfErr};
ghost use Rattle.pls_io.specs.Streams.{Rose, Writes};
ghost use Rattle.pls_io.specs.Refusals.{WritesPrefix};

use crate::streams::{Failed, Sink};

/// Why `write_all` did not write all.
#[derive(Clone, Copy, Debug, PartialEq, Eq)]
pub enum WriteRefusal {
    /// A write failed, when so many bytes had been written.
    WriteFault(usize),
}

/// Writes all of `bytes`, in as many calls as the sink needs. Where one of them fails, a prefix of
/// `bytes` was written, and the refusal says how long it is.
pub fn write_all<K: Sink>(sink: &mut K, bytes: &[u8]) -> Result<(), WriteRefusal>
    ensures whole { OnOk result (Writes (length bytes.now) (K.written sink.old) bytes.now (K.written sink.new)) }
    ensures prefix { IfErr result (WritesPrefix (K.written sink.old) bytes.now (K.written sink.new)) }

    ensures count { K.faults sink.old ≤ K.faults sink.new }
    ensures cause { OnErr result (Rose (K.faults sink.old) (K.faults sink.new)) }
    ensures steady { OnOk result (K.faults sink.new ≡ K.faults sink.old) }
{
    let mut done = 0;
    while done < bytes.len() {
        match sink.write(&bytes[done..]) {
            Ok(n) => done += n,
            Err(Failed) => return Err(WriteRefusal::WriteFault(done)),
        }
    }
    Ok(())
}
