//! The gravest cause for which workers left.
ghost use Rattle.std.specs.Prelude.{◌≡◌};
ghost use Rattle.pls_search.specs.Leaving.{graver};

use pls_pool::Cause;

/// The graver of two causes: want of memory before want of room before want of a move.
pub(crate) fn graver(a: Result<(), Cause>, b: Result<(), Cause>) -> Result<(), Cause>
    ensures { result ≡ graver a b }
{
    match a {
        Ok(()) => b,
        Err(cause) => match cause {
            Cause::Spent => match b {
                Ok(()) => a,
                Err(_) => b,
            },
            Cause::Full => match b {
                Ok(()) => a,
                Err(other) => match other {
                    Cause::Spent | Cause::Full => a,
                    Cause::Memory => b,
                },
            },
            Cause::Memory => a,
        },
    }
}
