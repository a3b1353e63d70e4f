//! The calls of the shared tree, which wait for nobody.
ghost use Rattle.std.specs.Prelude.{◌≡◌, ℕ, ◌+◌, ◌<◌, ◌≤◌, true, false, Some, IfOk, OnErr, [], length};
ghost use Rattle.era_core.specs.declared.sizes.TheConstants.{ROOT_ROWS, LAST_VERSION};
ghost use Rattle.era_rows.specs.Known.{leaving};
ghost use Rattle.era_rows.specs.Passes.{known_of, knows_of, seen_of, lists_of, marked_of, memory_of, work_of, IsPassOf};
ghost use Rattle.pls_archive.specs.declared.call.Call.TheVariants.{Covered, Member, Snapshot};
ghost use Rattle.pls_archive.specs.declared.call.Reply.TheVariants.{Points};
ghost use Rattle.pls_archive.specs.Archives.{yes_or_no};
ghost use Rattle.pls_archive.specs.History.{submissions};
ghost use Rattle.pls_archive.specs.Reply.{nondominated};
ghost use Rattle.pls_archive.specs.Rule.{is_accepting};
ghost use Rattle.pls_archive.specs.View.{IsConsistent};
ghost use Rattle.pls_archive.specs.SharedCalls.{Answers, IsRefused};
ghost use Rattle.era_one_row.specs.Ready.{HasPinned};
ghost use Rattle.nd_rows.specs.Entries.{HasParts, recalls_dominating, recalls_value};
ghost use Rattle.nd_rows.specs.Nodes.{necessary};
ghost use Rattle.nd_rows.specs.Reads.{HasKept, HasPinnedTree, ReadsIn, ReadsNecessary};
ghost use Rattle.nd_update.specs.Counted.{IsCounted};
ghost use Rattle.nd_update.specs.Resting.{IsOpen};
ghost use Rattle.nd_shared.specs.Reading.{IsUnread, ReadsOf};
ghost use Rattle.nd_shared.specs.Views.{AreListed, HasEvidence, IsReady, Opens, Pins, view_of};

use crate::told::Told;
use crate::tree::{Tree, TreePass};
use era_rows::Nothing;
use nd_rows::{covered, gather, member, recalls, recalls_better};
use pls_archive::{Call, PointList, Reply};
use pls_vectors::Vector;
use std::alloc::{AllocError, Global};
use std::snapshot;

// The reply to a question.
fn reply(yes: bool) -> Reply
    ensures { result ≡ yes_or_no yes }
{
    if yes { Reply::Yes } else { Reply::No }
}

// The points of the reply to a snapshot.
fn points_in(reply: Reply) -> PointList
    requires { (list : _) × (reply ≡ Points list) }
    ensures { reply ≡ Points result }
{
    match reply {
        Reply::Points(list) => list,
        _ => unreachable!(),
    }
}

impl Tree {
    // Pins the current version: its number and its root row.
    fn pin(&self, pass: &mut TreePass) -> (u64, u32)
        requires ready { IsReady self.now.rows pass.old }
        ensures opened { IsOpen self.now.rows result.0 pass.new }
        ensures number { pass.new.number ≡ pass.old.number }
        ensures small { (result.0 ≤ LAST_VERSION) × (result.1 < ROOT_ROWS) }
        ensures pins { Pins result.0 result.1 (knows_of pass.old) (knows_of pass.new) }
        ensures memory { memory_of pass.new ≡ memory_of pass.old }
    {
        self.rows.pin(pass)
    }

    // Begins a call: the number of the version that it is to speak of.
    pub(crate) fn open(&self, pass: &mut TreePass) -> u64
        requires ready { IsReady self.now.rows pass.old }
        ensures opens { Opens self.now.rows result pass.old pass.new }
        ensures low { result ≤ LAST_VERSION }
        ensures counted { IsCounted (known_of pass.new) (marked_of pass.new) }
        ensures copies { length (known_of pass.new).copies ≡ result + 1 }
        ensures pinned { HasPinned result (known_of pass.old) (known_of pass.new) }
        ensures unread { IsUnread result (known_of pass.new) }
        ensures memory { memory_of pass.new ≡ memory_of pass.old }
        ensures full { (known_of pass.new).full ≡ (known_of pass.old).full }
    {
        self.pin(pass).0
    }

    // Leaves the pinned version with the entry of a call that brought nothing in.
    pub(crate) fn tell(&self, pass: &mut TreePass, stamp: u64, call: &Call, reply: &Reply)
        requires opened { (p : _) × Opens self.now.rows stamp p pass.old }
        requires parts { HasParts self.now.rows.shape call.now }
        requires due { reply.now ≡ nondominated (submissions (knows_of pass.old).seen) call.now }
        requires nothing { is_accepting call.now reply.now ≡ false }
        ensures ready { IsReady self.now.rows pass.new }
        ensures answers { (p : _) → Opens self.now.rows stamp p pass.old → Answers nondominated self.now.rows.passes (view_of p) call.now reply.now stamp (view_of pass.new) }
        ensures left { known_of pass.new ≡ leaving (known_of pass.old) }
        ensures full { (known_of pass.new).full ≡ (known_of pass.old).full }
    {
        let told = Told {
            caller: self.rows.number(pass),
            stamp,
            call: snapshot::Snapshot::of(call),
            reply: snapshot::Snapshot::of(reply),
        };
        self.rows.unpin(pass, &told);
    }

    // Leaves the pinned version without an entry.
    pub(crate) fn leave(&self, pass: &mut TreePass)
        requires pass { IsPassOf self.now.rows pass.old }
        requires pinned { (n p : ℕ) × ((known_of pass.old).core.pinned ≡ Some (n, p)) }
        requires no_fresh { (known_of pass.old).core.fresh ≡ [] }
        requires idle { work_of pass.old ≡ [] }
        requires listed { AreListed pass.old.number (lists_of pass.old) }
        requires short { HasEvidence (known_of pass.old) }
        ensures ready { IsReady self.now.rows pass.new }
        ensures left { known_of pass.new ≡ leaving (known_of pass.old) }
        ensures number { pass.new.number ≡ pass.old.number }
        ensures seen { seen_of pass.new ≡ seen_of pass.old }
        ensures lists { lists_of pass.new ≡ lists_of pass.old }
        ensures consistent { IsConsistent nondominated self.now.rows.passes (view_of pass.new) }
    {
        self.rows.unpin(pass, &Nothing);
    }

    // Whether the value is covered at the pinned version, the last one that the pass knows. No row is read where a value that the pass
    // remembers covers it.
    pub(crate) fn is_covered(&self, pass: &mut TreePass, value: &Vector) -> bool
        requires tree { (n : ℕ) × HasPinnedTree self.now.rows n pass.old × (length (seen_of pass.old) ≡ n) }
        requires parts { length value.now ≡ self.now.rows.shape }
        requires idle { work_of pass.old ≡ [] }
        ensures kept { HasKept pass.old pass.new }
        ensures tree { (n : ℕ) → HasPinnedTree self.now.rows n pass.old → HasPinnedTree self.now.rows n pass.new }
        ensures reads { ReadsNecessary self.now.rows.shape value.now (known_of pass.old) (known_of pass.new) }
        ensures answer { yes_or_no result ≡ nondominated (submissions (seen_of pass.old)) (Covered value.now) }
        ensures recalled { recalls_value (memory_of pass.old) value.now ≡ true → ReadsIn [] (known_of pass.old) (known_of pass.new) }
    {
        recalls(pass, value) || covered(&self.rows, pass, value)
    }

    // Whether the value is that of a member at the pinned version, the last one that the pass knows. No row is read where a value that
    // the pass remembers dominates it.
    fn is_member(&self, pass: &mut TreePass, value: &Vector) -> bool
        requires tree { (n : ℕ) × HasPinnedTree self.now.rows n pass.old × (length (seen_of pass.old) ≡ n) }
        requires parts { length value.now ≡ self.now.rows.shape }
        requires idle { work_of pass.old ≡ [] }
        ensures kept { HasKept pass.old pass.new }
        ensures tree { (n : ℕ) → HasPinnedTree self.now.rows n pass.old → HasPinnedTree self.now.rows n pass.new }
        ensures reads { ReadsNecessary self.now.rows.shape value.now (known_of pass.old) (known_of pass.new) }
        ensures answer { yes_or_no result ≡ nondominated (submissions (seen_of pass.old)) (Member value.now) }
        ensures recalled { recalls_dominating (memory_of pass.old) value.now ≡ true → ReadsIn [] (known_of pass.old) (known_of pass.new) }
    {
        !recalls_better(pass, value) && member(&self.rows, pass, value)
    }

    /// Whether the value is covered, and the stamp of that answer: how many points were added before.
    /// Of the pinned tree it reads only rows that the question needs, and none where a value that the pass remembers covers the value.
    pub fn covered_now(&self, pass: &mut TreePass, value: Vector) -> (bool, u64)
        requires ready { IsReady self.now.rows pass.old }
        requires parts { length value ≡ self.now.rows.shape }
        ensures ready { IsReady self.now.rows pass.new }
        ensures answers { Answers nondominated self.now.rows.passes (view_of pass.old) (Covered value) (yes_or_no result.0) result.1 (view_of pass.new) }
        ensures reads { ReadsOf self.now.rows.shape (necessary value) (known_of pass.old) (known_of pass.new) }
        ensures recalled { recalls_value (memory_of pass.old) value ≡ true → ReadsOf self.now.rows.shape (λ _. []) (known_of pass.old) (known_of pass.new) }
        ensures full { (known_of pass.new).full ≡ (known_of pass.old).full }
    {
        let stamp = self.open(pass);
        let yes = self.is_covered(pass, &value);
        self.tell(pass, stamp, &Call::Covered(value), &reply(yes));
        (yes, stamp)
    }

    /// Whether the value is that of a member, and the stamp of that answer.
    /// Of the pinned tree it reads only rows that the question needs, and none where a value that the pass remembers dominates the value.
    pub fn member_now(&self, pass: &mut TreePass, value: Vector) -> (bool, u64)
        requires ready { IsReady self.now.rows pass.old }
        requires parts { length value ≡ self.now.rows.shape }
        ensures ready { IsReady self.now.rows pass.new }
        ensures answers { Answers nondominated self.now.rows.passes (view_of pass.old) (Member value) (yes_or_no result.0) result.1 (view_of pass.new) }
        ensures reads { ReadsOf self.now.rows.shape (necessary value) (known_of pass.old) (known_of pass.new) }
        ensures recalled { recalls_dominating (memory_of pass.old) value ≡ true → ReadsOf self.now.rows.shape (λ _. []) (known_of pass.old) (known_of pass.new) }
        ensures full { (known_of pass.new).full ≡ (known_of pass.old).full }
    {
        let stamp = self.open(pass);
        let yes = self.is_member(pass, &value);
        self.tell(pass, stamp, &Call::Member(value), &reply(yes));
        (yes, stamp)
    }

    /// The members in ascending lexicographic order of values, and the stamp of that answer.
    ///
    /// # Errors
    ///
    /// Where there is no memory for the list. Then the call has no entry.
    pub fn snapshot_now(
        &self,
        alloc: Global,
        pass: &mut TreePass,
    ) -> Result<(PointList, u64), AllocError>
        requires ready { IsReady self.now.rows pass.old }
        ensures ready { IsReady self.now.rows pass.new }
        ensures answers { IfOk result (λ a. Answers nondominated self.now.rows.passes (view_of pass.old) Snapshot (Points a.0) a.1 (view_of pass.new)) }
        ensures refused { OnErr result (IsRefused nondominated self.now.rows.passes (view_of pass.old) (view_of pass.new)) }
        ensures full { (known_of pass.new).full ≡ (known_of pass.old).full }
    {
        let stamp = self.open(pass);
        let Ok(list) = gather(alloc, &self.rows, pass) else {
            self.leave(pass);
            return Err(AllocError);
        };
        let reply = Reply::Points(list);
        self.tell(pass, stamp, &Call::Snapshot, &reply);
        Ok((points_in(reply), stamp))
    }
}
