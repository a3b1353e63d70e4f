// Which calls of a source or a sink over memory fail.
ghost use Rattle.std.specs.Prelude.{◌↔◌, IsTrue, Contains};

/// Whether the call with this number is one of those that fail.
pub(crate) fn is_planned(fails: &[u32], call: u64) -> bool
    ensures { IsTrue result ↔ Contains fails.now call }
{
    fails.iter().any(|k| u64::from(*k) == call)
}
