//! What the rule of the desk says of every moment between two steps, in every schedule: a law, on a function that does nothing.
ghost use Rattle.pls_pool.specs.DeskRule.{HaltedKeepsCause};

/// Where a look finds the run halted, some seat keeps a cause, which its join hands on.
pub fn halted_keeps_cause()
    ensures { HaltedKeepsCause }
{}
