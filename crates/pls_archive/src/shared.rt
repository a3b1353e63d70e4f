//! An archive that several callers share.

use crate::rule::Rule;
use crate::{Point, PointList, Taken};
use pls_vectors::Vector;
use std::alloc::{AllocError, Global};
use std::sync::Wait;

/// Why an update was refused.
#[derive(Clone, Copy, Debug, PartialEq, Eq)]
pub enum Refusal {
    /// The archive has no room, which its pass shows.
    Full = 1,
    /// The archive has `2^40 - 1` accepting entries, and by its rule this point would be brought in.
    Spent = 2,
    /// Want of memory.
    Memory = 3,
}

/// An archive that several callers share, each by a pass of its own. Contracts see a pass as its number, the accepting entries
/// that it has observed, and the lists of its caller and of those that were joined into it.
///
/// The number beside an answer is its stamp: how many accepting entries there are then, the call's own with them. Nothing is said
/// of the order in time of the calls of different passes.
pub trait Shared: Sync {
    ghost use Rattle.std.specs.Prelude.{◌≡◌, ◌≢◌, ◌↔◌, ◌⊎◌, ℕ, ◌+◌, ◌-◌, ◌^◌, ◌<◌, true, Bool, length, IfOk, OnErr, Err};
    ghost use Rattle.pls_archive.specs.declared.call.Call.TheVariants.{Update, Covered, Member, Snapshot};
    ghost use Rattle.pls_archive.specs.declared.call.Reply.TheVariants.{Points};
    ghost use Rattle.pls_archive.specs.declared.shared.Refusal.TheVariants.{Full, Spent, Memory};
    ghost use Rattle.pls_archive.specs.Archives.{reply_of, yes_or_no};
    ghost use Rattle.pls_archive.specs.Rule.{is_accepting, submitted_by};
    ghost use Rattle.pls_archive.specs.History.{submissions, accepted};
    ghost use Rattle.pls_archive.specs.SharedCalls.{Answers, IsRefused};
    ghost use Rattle.pls_archive.specs.View.{View, IsConsistent, Joins};

    /// The rule by which it replies.
    type Law: Rule + Send + Sync;

    /// The pass of a caller.
    type Pass: Send + Drop;

    /// Whether an update may take memory.
    ghost GROWS: { Bool };

    const GROWS: bool;

    /// The number that the rule takes, how many parts a vector has, and how many passes the start made. No call changes them.
    ghost number: { Self → ℕ };

    ghost objectives: { Self → ℕ };

    ghost passes: { Self → ℕ };

    /// Where the accepted points that a pass has observed and the points of its call are together no more, Full does not come.
    ghost safe: { Self → ℕ };

    /// The pass is of this archive.
    ghost belongs: { Self → Self.Pass → Type 0 };

    /// The pass is between two calls.
    ghost at_rest: { Self.Pass → Type 0 };

    /// What the pass is seen as.
    ghost view: { Self.Pass → View };

    /// The pass shows that the archive had no room.
    ghost shows_full: { Self.Pass → Type 0 };

    /// Submits a point. After a refusal the archive and the lists of the pass are as before.
    fn update<R: Wait>(
        &self,
        rt: &R,
        pass: &mut Self::Pass,
        point: Point,
    ) -> Result<(Taken, u64), Refusal>
        requires ready { belongs self.now pass.old × at_rest pass.old }
        requires parts { length point.value ≡ objectives self.now }
        ensures ready { belongs self.now pass.new × at_rest pass.new }
        ensures answers { IfOk result (λ a. Answers (Self.Law.reply (number self.now)) (passes self.now) (view pass.old) (Update point) (reply_of a.0) a.1 (view pass.new)) }
        ensures room { IfOk result (λ a. a.1 < 2 ^ 40) }
        ensures refused { OnErr result (IsRefused (Self.Law.reply (number self.now)) (passes self.now) (view pass.old) (view pass.new)) }
        ensures full { result ≡ Err Full → shows_full pass.new × (safe self.now < length (accepted (view pass.new).observed) + length (submitted_by (Update point))) }
        ensures spent { result ≡ Err Spent → (length (view pass.new).observed ≡ 2 ^ 40 - 1)
            × (is_accepting (Update point) (Self.Law.reply (number self.now) (submissions (view pass.new).observed) (Update point)) ≡ true) }
        ensures memory { result ≡ Err Memory → GROWS ≡ true }
        ensures stays_full { shows_full pass.old → shows_full pass.new }
        ensures full_alone { result ≢ Err Full → shows_full pass.new → shows_full pass.old };

    /// Whether the value is covered, and the stamp of that answer.
    fn covered<R: Wait>(&self, rt: &R, pass: &mut Self::Pass, value: Vector) -> (bool, u64)
        requires ready { belongs self.now pass.old × at_rest pass.old }
        requires parts { length value ≡ objectives self.now }
        ensures ready { belongs self.now pass.new × at_rest pass.new }
        ensures answers { Answers (Self.Law.reply (number self.now)) (passes self.now) (view pass.old) (Covered value) (yes_or_no result.0) result.1 (view pass.new) }
        ensures full { shows_full pass.new ↔ shows_full pass.old };

    /// Whether the value is that of a member, and the stamp of that answer.
    fn member<R: Wait>(&self, rt: &R, pass: &mut Self::Pass, value: Vector) -> (bool, u64)
        requires ready { belongs self.now pass.old × at_rest pass.old }
        requires parts { length value ≡ objectives self.now }
        ensures ready { belongs self.now pass.new × at_rest pass.new }
        ensures answers { Answers (Self.Law.reply (number self.now)) (passes self.now) (view pass.old) (Member value) (yes_or_no result.0) result.1 (view pass.new) }
        ensures full { shows_full pass.new ↔ shows_full pass.old };

    /// The members in ascending lexicographic order of values, and the stamp of that answer.
    fn snapshot<R: Wait>(
        &self,
        rt: &R,
        alloc: Global,
        pass: &mut Self::Pass,
    ) -> Result<(PointList, u64), AllocError>
        requires ready { belongs self.now pass.old × at_rest pass.old }
        ensures ready { belongs self.now pass.new × at_rest pass.new }
        ensures answers { IfOk result (λ a. Answers (Self.Law.reply (number self.now)) (passes self.now) (view pass.old) Snapshot (Points a.0) a.1 (view pass.new)) }
        ensures refused { OnErr result (IsRefused (Self.Law.reply (number self.now)) (passes self.now) (view pass.old) (view pass.new)) }
        ensures full { shows_full pass.new ↔ shows_full pass.old };

    /// The pass takes over the lists of another, and keeps the longer observed prefix.
    fn join(&self, pass: &mut Self::Pass, other: Self::Pass)
        requires ready { belongs self.now pass.old × at_rest pass.old }
        requires other { belongs self.now other × at_rest other }
        ensures ready { belongs self.now pass.new × at_rest pass.new }
        ensures joins { Joins (view pass.old) (view other) (view pass.new) }
        ensures consistent { IsConsistent (Self.Law.reply (number self.now)) (passes self.now) (view pass.new) }
        ensures full { shows_full pass.new ↔ (shows_full pass.old ⊎ shows_full other) };
}
