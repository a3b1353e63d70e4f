//! Updates of the shared tree.
ghost use Rattle.std.specs.Prelude.{◌≡◌, ◌≢◌, ◌⊎◌, ℕ, ◌+◌, ◌*◌, ◌<◌, ◌≤◌, true, false, [], Err, IfOk, IfErr, OnOk, OnErr, length};
ghost use Rattle.era_core.specs.declared.sizes.TheConstants.{LAST_VERSION};
ghost use Rattle.era_rows.specs.Known.{leaving, pinned_copy};
ghost use Rattle.era_rows.specs.Passes.{known_of, knows_of, seen_of, memory_of};
ghost use Rattle.era_one_row.specs.Ready.{HasPinned, IsBeaten};
ghost use Rattle.pls_archive.specs.declared.call.Call.TheVariants.{Update};
ghost use Rattle.pls_archive.specs.declared.call.Reply.TheVariants.{Refused};
ghost use Rattle.pls_archive.specs.Archives.{reply_of};
ghost use Rattle.pls_archive.specs.History.{submissions};
ghost use Rattle.pls_archive.specs.Reply.{nondominated};
ghost use Rattle.pls_archive.specs.Rule.{is_accepting};
ghost use Rattle.pls_archive.specs.SharedCalls.{Answers, IsRefused};
ghost use Rattle.nd_rows.specs.Entries.{recalls_value};
ghost use Rattle.nd_update.specs.Counted.{IsShort};
ghost use Rattle.nd_update.specs.Needed.{needed};
ghost use Rattle.nd_shared.specs.Reading.{IsUnread, ReadsNone, ReadsOf};
ghost use Rattle.nd_shared.specs.Views.{IsReady, BuildsAt, FewWait, Opens, view_of};
ghost use Rattle.nd_shared.specs.declared.refusal.TryRefusal.TheVariants.{Full, Spent, Beaten};

use crate::refusal::TryRefusal;
use crate::told::Refuses;
use crate::tree::{Tree, TreePass};
use era_core::LAST_VERSION;
use era_rows::PublishRefusal;
use nd_rows::Adds;
use nd_update::{BuildRefusal, Built, give_all_back};
use pls_archive::{Point, Taken};
use std::snapshot;

impl Tree {
    // Publishes the tree that was built, with the entry of its point, and leaves the version.
    fn publish(
        &self,
        pass: &mut TreePass,
        stamp: u64,
        point: &Point,
        built: Built,
    ) -> Result<(Taken, u64), TryRefusal>
        requires built { (p : _) × BuildsAt self.now.rows stamp point.now built p pass.old }
        requires parts { length point.now.value ≡ self.now.rows.shape }
        requires low { stamp ≤ LAST_VERSION }
        ensures ready { IsReady self.now.rows pass.new }
        ensures answers { IfOk result (λ a. (p : _) → BuildsAt self.now.rows stamp point.now built p pass.old
            → Answers nondominated self.now.rows.passes (view_of p) (Update point.now) (reply_of a.0) a.1 (view_of pass.new)) }
        ensures low { IfOk result (λ a. a.1 ≤ LAST_VERSION) }
        ensures waits { OnOk result (FewWait self.now.rows.rows self.now.rows.passes (known_of pass.new)) }
        ensures refused { OnErr result ((p : _) → BuildsAt self.now.rows stamp point.now built p pass.old → IsRefused nondominated self.now.rows.passes (view_of p) (view_of pass.new)) }
        ensures full { (result ≢ Err Full) × ((known_of pass.new).full ≡ (known_of pass.old).full) }
        ensures spent { result ≡ Err Spent → (length (seen_of pass.new) ≡ LAST_VERSION) × (is_accepting (Update point.now) (nondominated (submissions (seen_of pass.new)) (Update point.now)) ≡ true) }
        ensures beaten { (v : ℕ) → result ≡ Err (Beaten v) → (p : _) → HasPinned stamp (known_of p) (known_of pass.old) → IsBeaten v p pass.new }
        ensures reads { ReadsNone (pinned_copy (known_of pass.old)).rows (known_of pass.old) (known_of pass.new) }
    {
        let adds = Adds {
            caller: self.rows.number(pass),
            stamp: stamp + 1,
            point: *point,
            removed: built.removed,
        };
        match self.rows.publish(pass, built.root, &adds) {
            Ok(version) => {
                self.leave(pass);
                self.free_many(pass);
                let removed = built.removed;
                Ok((Taken::Added { removed }, version))
            }
            Err(refusal) => {
                give_all_back(&self.rows, pass);
                self.leave(pass);
                match refusal {
                    PublishRefusal::Beaten(version) => Err(TryRefusal::Beaten(version)),
                    PublishRefusal::Spent => Err(TryRefusal::Spent),
                }
            }
        }
    }

    // Leaves the pinned version with the entry of an update that was refused.
    fn refuse(&self, pass: &mut TreePass, stamp: u64, point: &Point)
        requires opened { (p : _) × Opens self.now.rows stamp p pass.old }
        requires parts { length point.now.value ≡ self.now.rows.shape }
        requires due { Refused ≡ nondominated (submissions (knows_of pass.old).seen) (Update point.now) }
        ensures ready { IsReady self.now.rows pass.new }
        ensures answers { (p : _) → Opens self.now.rows stamp p pass.old → Answers nondominated self.now.rows.passes (view_of p) (Update point.now) Refused stamp (view_of pass.new) }
        ensures left { known_of pass.new ≡ leaving (known_of pass.old) }
        ensures full { (known_of pass.new).full ≡ (known_of pass.old).full }
    {
        let refuses = Refuses {
            caller: self.rows.number(pass),
            stamp,
            point: snapshot::Snapshot::of(point),
        };
        self.rows.unpin(pass, &refuses);
    }

    // Answers a point at the last version of all, to which none can be added: by the question alone, before a row is taken.
    fn try_last(
        &self,
        pass: &mut TreePass,
        stamp: u64,
        point: &Point,
    ) -> Result<(Taken, u64), TryRefusal>
        requires opened { (p : _) × Opens self.now.rows stamp p pass.old }
        requires parts { length point.now.value ≡ self.now.rows.shape }
        requires last { stamp ≡ LAST_VERSION }
        requires begun { (known_of pass.old).since ≤ length (known_of pass.old).looks }
        requires unread { IsUnread stamp (known_of pass.old) }
        ensures ready { IsReady self.now.rows pass.new }
        ensures answers { IfOk result (λ a. (p : _) → Opens self.now.rows stamp p pass.old → Answers nondominated self.now.rows.passes (view_of p) (Update point.now) (reply_of a.0) a.1 (view_of pass.new)) }
        ensures low { IfOk result (λ a. a.1 ≤ LAST_VERSION) }
        ensures nothing { IfOk result (λ a. is_accepting (Update point.now) (reply_of a.0) ≡ false) }
        ensures refused { OnErr result ((p : _) → Opens self.now.rows stamp p pass.old → IsRefused nondominated self.now.rows.passes (view_of p) (view_of pass.new)) }
        ensures only { IfErr result (λ refusal. refusal ≡ Spent) }
        ensures spent { OnErr result ((length (seen_of pass.new) ≡ LAST_VERSION) × (is_accepting (Update point.now) (nondominated (submissions (seen_of pass.new)) (Update point.now)) ≡ true)) }
        ensures full { (known_of pass.new).full ≡ (known_of pass.old).full }
        ensures reads { (k : _) → HasPinned stamp k (known_of pass.old) → ReadsOf self.now.rows.shape (needed point.now.value self.now.rows.rows) k (known_of pass.new) }
        ensures recalled { recalls_value (memory_of pass.old) point.now.value ≡ true → (k : _) → HasPinned stamp k (known_of pass.old) → ReadsOf self.now.rows.shape (λ _. []) k (known_of pass.new) }
    {
        if self.is_covered(pass, &point.value) {
            self.refuse(pass, stamp, point);
            return Ok((Taken::Refused, stamp));
        }
        self.leave(pass);
        Err(TryRefusal::Spent)
    }

    // Submits a point, unless another update is published meanwhile.
    pub(crate) fn try_point(
        &self,
        pass: &mut TreePass,
        point: &Point,
    ) -> Result<(Taken, u64), TryRefusal>
        requires ready { IsReady self.now.rows pass.old }
        requires parts { length point.now.value ≡ self.now.rows.shape }
        ensures ready { IsReady self.now.rows pass.new }
        ensures answers { IfOk result (λ a. Answers nondominated self.now.rows.passes (view_of pass.old) (Update point.now) (reply_of a.0) a.1 (view_of pass.new)) }
        ensures low { IfOk result (λ a. a.1 ≤ LAST_VERSION) }
        ensures waits { IfOk result (λ a. is_accepting (Update point.now) (reply_of a.0) ≡ true → FewWait self.now.rows.rows self.now.rows.passes (known_of pass.new)) }
        ensures refused { OnErr result (IsRefused nondominated self.now.rows.passes (view_of pass.old) (view_of pass.new)) }
        ensures full { result ≡ Err Full → IsShort (known_of pass.new) × (length (known_of pass.old).looks ≤ (known_of pass.new).since) }
        ensures room { result ≡ Err Full → self.now.rows.passes ≡ 1 → self.now.rows.rows < 8 * (length (seen_of pass.new) + 1) + 64 }
        ensures same_full { result ≢ Err Full → (known_of pass.new).full ≡ (known_of pass.old).full }
        ensures uncovered { result ≡ Err Full → (length (seen_of pass.new) < LAST_VERSION) × (is_accepting (Update point.now) (nondominated (submissions (seen_of pass.new)) (Update point.now)) ≡ true) }
        ensures spent { result ≡ Err Spent → (length (seen_of pass.new) ≡ LAST_VERSION) × (is_accepting (Update point.now) (nondominated (submissions (seen_of pass.new)) (Update point.now)) ≡ true) }
        ensures last { length (seen_of pass.new) ≡ LAST_VERSION → is_accepting (Update point.now) (nondominated (submissions (seen_of pass.new)) (Update point.now)) ≡ true → (result ≡ Err Spent) ⊎ ((v : ℕ) × (result ≡ Err (Beaten v))) }
        ensures beaten { (v : ℕ) → result ≡ Err (Beaten v) → IsBeaten v pass.old pass.new }
        ensures reads { ReadsOf self.now.rows.shape (needed point.now.value self.now.rows.rows) (known_of pass.old) (known_of pass.new) }
        ensures recalled { recalls_value (memory_of pass.old) point.now.value ≡ true → ReadsOf self.now.rows.shape (λ _. []) (known_of pass.old) (known_of pass.new) }
    {
        let stamp = self.open(pass);
        if stamp == LAST_VERSION {
            return self.try_last(pass, stamp, point);
        }
        match self.try_build(pass, point) {
            Ok(built) => self.publish(pass, stamp, point, built),
            Err(BuildRefusal::Covered) => {
                self.refuse(pass, stamp, point);
                Ok((Taken::Refused, stamp))
            }
            Err(BuildRefusal::Full) => {
                self.leave(pass);
                Err(TryRefusal::Full)
            }
        }
    }

    /// Submits a point, unless another update is published meanwhile. Of the pinned tree it reads only rows that the update needs, and none
    /// where a value that the pass remembers covers the point. Of several answers that may come the first of these comes: `Refused`, `Spent`,
    /// `Full`, `Beaten`.
    ///
    /// # Errors
    ///
    /// `Spent` exactly where the pinned version is the last of all and no member covers the point: then the question alone decides, and no
    /// row is taken. `Full` only for a point that no member covers, below the last version, where this call found an owner of each row
    /// after it freed what no other pass may read, of which the pass keeps an evidence, and where there is one pass alone not while there
    /// are 64 rows and eight for each point that was added and for this one. `Beaten` with the current version where that is later than
    /// the one that this call pinned. A point that a member covers is answered with `Refused`.
    pub fn try_update(&self, pass: &mut TreePass, point: Point) -> Result<(Taken, u64), TryRefusal>
        requires ready { IsReady self.now.rows pass.old }
        requires parts { length point.value ≡ self.now.rows.shape }
        ensures ready { IsReady self.now.rows pass.new }
        ensures answers { IfOk result (λ a. Answers nondominated self.now.rows.passes (view_of pass.old) (Update point) (reply_of a.0) a.1 (view_of pass.new)) }
        ensures low { IfOk result (λ a. a.1 ≤ LAST_VERSION) }
        ensures waits { IfOk result (λ a. is_accepting (Update point) (reply_of a.0) ≡ true → FewWait self.now.rows.rows self.now.rows.passes (known_of pass.new)) }
        ensures refused { OnErr result (IsRefused nondominated self.now.rows.passes (view_of pass.old) (view_of pass.new)) }
        ensures full { result ≡ Err Full → IsShort (known_of pass.new) × (length (known_of pass.old).looks ≤ (known_of pass.new).since) }
        ensures room { result ≡ Err Full → self.now.rows.passes ≡ 1 → self.now.rows.rows < 8 * (length (seen_of pass.new) + 1) + 64 }
        ensures same_full { result ≢ Err Full → (known_of pass.new).full ≡ (known_of pass.old).full }
        ensures uncovered { result ≡ Err Full → (length (seen_of pass.new) < LAST_VERSION) × (is_accepting (Update point) (nondominated (submissions (seen_of pass.new)) (Update point)) ≡ true) }
        ensures spent { result ≡ Err Spent → (length (seen_of pass.new) ≡ LAST_VERSION) × (is_accepting (Update point) (nondominated (submissions (seen_of pass.new)) (Update point)) ≡ true) }
        ensures last { length (seen_of pass.new) ≡ LAST_VERSION → is_accepting (Update point) (nondominated (submissions (seen_of pass.new)) (Update point)) ≡ true → (result ≡ Err Spent) ⊎ ((v : ℕ) × (result ≡ Err (Beaten v))) }
        ensures beaten { (v : ℕ) → result ≡ Err (Beaten v) → IsBeaten v pass.old pass.new }
        ensures reads { ReadsOf self.now.rows.shape (needed point.value self.now.rows.rows) (known_of pass.old) (known_of pass.new) }
        ensures recalled { recalls_value (memory_of pass.old) point.value ≡ true → ReadsOf self.now.rows.shape (λ _. []) (known_of pass.old) (known_of pass.new) }
    {
        self.try_point(pass, &point)
    }
}
