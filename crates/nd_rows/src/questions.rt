//! Questions to the pinned version.
ghost use Rattle.std.specs.Prelude.{◌≡◌, ℕ, IfSome, [], take, length};
ghost use Rattle.era_rows.specs.Known.{pinned_copy};
ghost use Rattle.era_rows.specs.Passes.{known_of, seen_of, work_of, IsPassOf, HasSame};
ghost use Rattle.pls_archive.specs.Archives.{yes_or_no};
ghost use Rattle.pls_archive.specs.History.{submissions};
ghost use Rattle.pls_archive.specs.Reply.{nondominated};
ghost use Rattle.pls_archive.specs.declared.call.Call.TheVariants.{Covered, Member};
ghost use Rattle.nd_rows.specs.Nodes.{points_of, necessary};
ghost use Rattle.nd_rows.specs.Walk.{some_meets, IsRowOf};
ghost use Rattle.nd_rows.specs.Reads.{HasPinnedTree, HasKept, LooksIn, ReadsNecessary};

use crate::law::NdLaw;
use crate::question::Question;
use crate::reads::word;
use crate::remembers::remember_row;
use crate::walk::ask_pending;
use era_core::KINDS;
use era_rows::{Pass, Rows};
use pls_vectors::Vector;

// Asks the question of the points of the pinned version: whether one answers it, and its row where it was looked at. Only a leaf
// without points, alone, has no box: it is known by the word 0 of the root.
fn ask(
    rows: &Rows<NdLaw>,
    pass: &mut Pass<NdLaw>,
    value: &Vector,
    question: Question,
) -> (bool, Option<u32>)
    requires tree { (n : ℕ) × HasPinnedTree rows.now n pass.old }
    requires parts { length value.now ≡ rows.now.shape }
    requires idle { work_of pass.old ≡ [] }
    ensures looks { (n : ℕ) (tree : HasPinnedTree rows.now n pass.old) → LooksIn rows.now (necessary value.now tree.stands.0) pass.old pass.new }
    ensures work { work_of pass.new ≡ [] }
    ensures answer { (n : ℕ) (tree : HasPinnedTree rows.now n pass.old) → result.0 ≡ some_meets question (points_of tree.stands.0) value.now }
    ensures row { (n : ℕ) (tree : HasPinnedTree rows.now n pass.old) → IfSome result.1 (IsRowOf rows.now.shape (pinned_copy (known_of pass.old)) (necessary value.now tree.stands.0) (points_of tree.stands.0)) }
{
    let Some(pin) = rows.pinned(pass) else {
        unreachable!()
    };
    let first = word(rows, pass, pin.1, 0);
    if first / KINDS == 0 {
        return (false, None);
    }
    pass.work_push(pin.1 as u64);
    let mut found = None;
    let yes = ask_pending(rows, pass, value, question, &mut found);
    (yes, found)
}

/// Whether a point of the pinned version covers the value: the reply of the nondominated archive to the accepted entries up to
/// it. It reads the rows that the question needs, and no others. Where it looked at a point that covers the value, the pass
/// remembers that point's value, at a place that goes by its row; where the box of a node told the answer, it remembers nothing more.
/// The value has as many parts as there are objectives. The work list of the pass is empty before and after.
pub fn covered(rows: &Rows<NdLaw>, pass: &mut Pass<NdLaw>, value: &Vector) -> bool
    requires tree { (n : ℕ) × HasPinnedTree rows.now n pass.old }
    requires parts { length value.now ≡ rows.now.shape }
    requires idle { work_of pass.old ≡ [] }
    ensures kept { HasKept pass.old pass.new }
    ensures tree { (n : ℕ) → HasPinnedTree rows.now n pass.old → HasPinnedTree rows.now n pass.new }
    ensures reads { ReadsNecessary rows.now.shape value.now (known_of pass.old) (known_of pass.new) }
    ensures answer { (n : ℕ) → HasPinnedTree rows.now n pass.old → yes_or_no result ≡ nondominated (submissions (take n (seen_of pass.old))) (Covered value.now) }
{
    let (yes, found) = ask(rows, pass, value, Question::Covers);
    let Some(row) = found else {
        return yes;
    };
    remember_row(rows, pass, row);
    yes
}

/// Whether a point of the pinned version has the value: the reply of the nondominated archive to the accepted entries up to it.
/// It reads the rows that the question needs, and no others. The value has as many parts as there are objectives. The work list
/// of the pass is empty before and after.
pub fn member(rows: &Rows<NdLaw>, pass: &mut Pass<NdLaw>, value: &Vector) -> bool
    requires tree { (n : ℕ) × HasPinnedTree rows.now n pass.old }
    requires parts { length value.now ≡ rows.now.shape }
    requires idle { work_of pass.old ≡ [] }
    ensures same { HasSame pass.old pass.new }
    ensures tree { (n : ℕ) → HasPinnedTree rows.now n pass.old → HasPinnedTree rows.now n pass.new }
    ensures reads { ReadsNecessary rows.now.shape value.now (known_of pass.old) (known_of pass.new) }
    ensures answer { (n : ℕ) → HasPinnedTree rows.now n pass.old → yes_or_no result ≡ nondominated (submissions (take n (seen_of pass.old))) (Member value.now) }
{
    ask(rows, pass, value, Question::Equals).0
}
