//! The rule of an archive.

/// Which submissions are the members of an archive, and what it replies to a call. Both definitions take a number that an archive
/// keeps from its start. A rule has no calls.
pub trait Rule {
    ghost use Rattle.std.specs.Prelude.{ℕ, List};
    ghost use Rattle.pls_archive.specs.declared.point.Point.{Point};
    ghost use Rattle.pls_archive.specs.declared.call.Call.{Call};
    ghost use Rattle.pls_archive.specs.declared.call.Reply.{Reply};
    ghost use Rattle.pls_archive.specs.Rule.{IsRule};

    /// The members after these submissions.
    ghost front: { ℕ → List Point → List Point };

    /// The reply to a call after these submissions.
    ghost reply: { ℕ → List Point → Call → Reply };

    /// They meet the laws of a rule.
    ghost laws: { (number : ℕ) → IsRule (front number) (reply number) };
}

/// The rule of the nondominated archive: its members are the submissions that none dominates, and of equal values the first.
/// It makes no use of the number.
#[derive(Drop)]
pub struct Nondominated;

impl Rule for Nondominated {
    ghost use Rattle.pls_archive.specs.Reply.{members, nondominated};
    ghost use Rattle.pls_archive.specs.NondominatedRule.{nondominated-IsRule};

    ghost front = { λ _. members };

    ghost reply = { λ _. nondominated };

    ghost laws = { λ _. nondominated-IsRule };
}
