// All that a source has left.
ghost use Rattle.std.specs.Prelude.{◌≡◌, ◌⊎◌, ◌<◌, ◌≤◌, [], length, vec_len, IfOk, IsErrOf};
ghost use Rattle.pls_io.specs.Streams.{Rose};
ghost use Rattle.pls_io.specs.Refusals.{TakesSome, TakesAll, IsTooLong};
ghost use Rattle.pls_io.specs.declared.read.ReadRefusal.TheVariants.{Memory};

use crate::streams::{Failed, Source};
use std::alloc::{AllocError, Global};

// How many bytes are asked for at a time, at most.
const PIECE: usize = 65_536;

/// Why `read_all` has no answer.
#[derive(Clone, Copy, Debug, PartialEq, Eq)]
pub enum ReadRefusal {
    /// A read failed.
    ReadFault = 1,
    /// There is more than the limit.
    TooLong = 2,
    /// Memory ran out.
    Memory = 3,
}

impl From<AllocError> for ReadRefusal {
    ghost from_gives = { λ _ e. e ≡ Memory };

    fn from(_: AllocError) -> Self {
        ReadRefusal::Memory
    }
}

/// Reads to the end of input, which may be `limit` bytes away and no more, in pieces of at most
/// 65,536 bytes. After a refusal what was
/// read is gone, and the rest is left in the source.
pub fn read_all<S: Source>(
    alloc: Global,
    source: &mut S,
    limit: usize,
) -> Result<Vec<u8>, ReadRefusal>
    ensures whole { IfOk result (λ v. TakesAll limit (S.left source.old) v.items (S.left source.new)) }

    ensures count { S.faults source.old ≤ S.faults source.new }
    ensures read_fault { IsErrOf result ReadRefusal.ReadFault → Rose (S.faults source.old) (S.faults source.new) }
    ensures steady { IsErrOf result ReadRefusal.ReadFault ⊎ (S.faults source.new ≡ S.faults source.old) }
    ensures too_long { IsErrOf result ReadRefusal.TooLong → IsTooLong limit (S.left source.old) }

    ensures rest { TakesSome (S.left source.old) (S.left source.new) }
{
    let mut piece = new_piece(alloc)?;
    read_pieces(source, &mut piece, limit, Vec::new(alloc))
}

// A place for a piece.
fn new_piece(alloc: Global) -> Result<Vec<u8>, AllocError>
    ensures { IfOk result (λ piece. vec_len piece ≡ PIECE) }
{
    vec![in alloc; 0u8; PIECE]
}

// What `read_all` does once it has a place for a piece and one for all.
fn read_pieces<S: Source>(
    source: &mut S,
    piece: &mut [u8],
    limit: usize,
    mut all: Vec<u8>,
) -> Result<Vec<u8>, ReadRefusal>
    requires room { 0 < length piece.old }
    requires small { length piece.old ≤ 65536 }
    requires empty { all.items ≡ [] }

    ensures whole { IfOk result (λ v. TakesAll limit (S.left source.old) v.items (S.left source.new)) }
    ensures count { S.faults source.old ≤ S.faults source.new }
    ensures read_fault { IsErrOf result ReadRefusal.ReadFault → Rose (S.faults source.old) (S.faults source.new) }
    ensures steady { IsErrOf result ReadRefusal.ReadFault ⊎ (S.faults source.new ≡ S.faults source.old) }
    ensures too_long { IsErrOf result ReadRefusal.TooLong → IsTooLong limit (S.left source.old) }
    ensures rest { TakesSome (S.left source.old) (S.left source.new) }
{
    loop {
        match source.read(piece) {
            Err(Failed) => return Err(ReadRefusal::ReadFault),
            Ok(0) => return Ok(all),
            Ok(n) => {
                if n > limit - all.len() {
                    return Err(ReadRefusal::TooLong);
                }
                all.extend_from_slice(&piece[..n])?;
            }
        }
    }
}
