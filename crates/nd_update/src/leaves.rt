//! Putting a point into a leaf of the tree that is built.
ghost use Rattle.std.specs.Prelude.{◌≡◌, ℕ, ◌+◌, ◌<◌, ◌≤◌, Some, IfSome, MatchOption, List, [], ◌∷◌, ◌++◌, length, All};
ghost use Rattle.era_core.specs.Lists.{In};
ghost use Rattle.era_core.specs.Versions.{look_up};
ghost use Rattle.era_rows.specs.Known.{known_words};
ghost use Rattle.nd_rows.specs.declared.layout.TheConstants.{IDEAL, LEAF};
ghost use Rattle.era_rows.specs.Passes.{known_of, marked_of, work_of};
ghost use Rattle.pls_vectors.specs.Box.{box_of};
ghost use Rattle.nd_rows.specs.Nodes.{Placed, rows_with};
ghost use Rattle.nd_rows.specs.Layout.{IsBoxRow, IsLinkRow, IsPointRow};
ghost use Rattle.nd_update.specs.Building.{Does, IsBuilding, Lacks};
ghost use Rattle.nd_update.specs.Counted.{IsPaid};
ghost use Rattle.nd_update.specs.Insertion.{at_places};
ghost use Rattle.nd_update.specs.Naming.{IsLeafRow};
ghost use Rattle.nd_update.specs.Needed.{ReadsOnly};
ghost use Rattle.nd_update.specs.FilledLeaves.{HasLinked, AreDivided, IsPut, values_box};

use crate::takes::take_row;
use crate::words::{read_value, read_word, write_box, write_first, write_point, write_word};
use era_core::KINDS;
use era_rows::{Pass, Rows};
use nd_rows::{FIRST_LINK, INNER, LEAF, NdLaw, VALUE};
use nd_tree::split;
use pls_archive::Point;
use pls_vectors::{Range, Vector};

// The points of a leaf that is divided.
const FULL: usize = 21;

/// A leaf of its own for the point, which the row has.
pub(crate) fn insert_alone(rows: &Rows<NdLaw>, pass: &mut Pass<NdLaw>, point: &Point) -> Option<u32>
    requires building { IsBuilding rows.now pass.old }
    requires pinned { (n p : ℕ) × ((known_of pass.old).core.pinned ≡ Some (n, p)) }
    requires paid { IsPaid 0 (known_of pass.old) (marked_of pass.old) }
    requires parts { length point.now.value ≡ rows.now.shape }
    ensures work { work_of pass.new ≡ work_of pass.old }
    ensures inserted { MatchOption result (Lacks rows.now pass.old pass.new) (λ leaf. (at : ℕ) × Does rows.now (at ∷ leaf ∷ []) [] (at ∷ leaf ∷ []) pass.old pass.new
        × IsPointRow rows.now.shape (known_words (known_of pass.new)) (record { row = at; point = point.now })
        × IsLeafRow rows.now.shape (known_words (known_of pass.new)) leaf (box_of point.now.value) (record { row = at; point = point.now } ∷ [])) }
    ensures only { ReadsOnly [] (known_of pass.old) (known_of pass.new) }
{
    let at = take_row(rows, pass)?;
    write_point(rows, pass, at, point);
    let leaf = take_row(rows, pass)?;
    write_word(rows, pass, leaf, FIRST_LINK, u64::from(at));
    write_first(rows, pass, leaf, LEAF, 1);
    write_box(rows, pass, leaf, &Range::of(point.value));
    Some(leaf)
}

// Writes a leaf with the points at these places, and the box around them.
fn write_group(
    rows: &Rows<NdLaw>,
    pass: &mut Pass<NdLaw>,
    links: &[u32; FULL],
    values: &[Vector; FULL],
    group: &[u8],
) -> Option<u32>
    requires building { IsBuilding rows.now pass.old }
    requires pinned { (n p : ℕ) × ((known_of pass.old).core.pinned ≡ Some (n, p)) }
    requires paid { IsPaid (rows.now.shape + 2) (known_of pass.old) (marked_of pass.old) }
    requires group { (0 < length group.now) × (length group.now ≤ 20) }
    requires places { All (λ k. k < 21) group.now }
    requires parts { All (λ v. length v ≡ rows.now.shape) values.now }
    ensures does { MatchOption result (Lacks rows.now pass.old pass.new) (λ leaf. Does rows.now (leaf ∷ []) [] (leaf ∷ []) pass.old pass.new) }
    ensures work { work_of pass.new ≡ work_of pass.old }
    ensures links { IfSome result (λ leaf. IsLinkRow (known_words (known_of pass.new)) LEAF leaf (at_places links.now group.now)) }
    ensures boxed { IfSome result (λ leaf. IsBoxRow rows.now.shape (known_words (known_of pass.new)) leaf (values_box (at_places values.now group.now))) }
    ensures only { ReadsOnly [] (known_of pass.old) (known_of pass.new) }
{
    let leaf = take_row(rows, pass)?;
    let mut range = Range::of(values[group[0] as usize]);
    write_word(
        rows,
        pass,
        leaf,
        FIRST_LINK,
        u64::from(links[group[0] as usize]),
    );
    for k in 1..group.len() {
        range.grow(values[group[k] as usize]);
        write_word(
            rows,
            pass,
            leaf,
            FIRST_LINK + k as u32,
            u64::from(links[group[k] as usize]),
        );
    }
    write_first(rows, pass, leaf, LEAF, group.len() as u32);
    write_box(rows, pass, leaf, &range);
    Some(leaf)
}

// Makes an inner node of a full leaf and of one point more: it gets a leaf for each group of their split.
fn divide(
    rows: &Rows<NdLaw>,
    pass: &mut Pass<NdLaw>,
    row: u32,
    at: u32,
    value: &Vector,
) -> Option<()>
    requires building { IsBuilding rows.now pass.old }
    requires pinned { (n p : ℕ) × ((known_of pass.old).core.pinned ≡ Some (n, p)) }
    requires paid { IsPaid 1 (known_of pass.old) (marked_of pass.old) }
    requires fresh { In row (known_of pass.old).core.fresh }
    requires linked { (placed : List Placed) × HasLinked rows.now.shape (known_of pass.old) row placed × (length placed ≡ 20) }
    requires parts { length value.now ≡ rows.now.shape }
    ensures work { work_of pass.new ≡ work_of pass.old }
    ensures kept { IfSome result (λ _. (k : ℕ) → IDEAL ≤ k → look_up (known_words (known_of pass.new)) row k ≡ look_up (known_words (known_of pass.old)) row k) }
    ensures divided { MatchOption result (Lacks rows.now pass.old pass.new) (λ _. (leaves : List ℕ) × Does rows.now leaves [] (row ∷ leaves) pass.old pass.new
        × ((placed : List Placed) → HasLinked rows.now.shape (known_of pass.old) row placed → length placed ≡ 20 → (q : Placed) → q.row ≡ at → q.point.value ≡ value.now
        → AreDivided rows.now.shape (known_words (known_of pass.new)) row (placed ++ q ∷ []) leaves)) }
    ensures only { (placed : List Placed) → HasLinked rows.now.shape (known_of pass.old) row placed → length placed ≡ 20 → ReadsOnly (row ∷ rows_with placed) (known_of pass.old) (known_of pass.new) }
{
    let mut links = [at; FULL];
    let mut values = [*value; FULL];
    for k in 0..FULL - 1 {
        let link = read_word(rows, pass, row, FIRST_LINK + k as u32) as u32;
        links[k] = link;
        values[k] = read_value(rows, pass, link, VALUE);
    }
    let groups = split(&values);
    for g in 0..groups.count() {
        let leaf = write_group(rows, pass, &links, &values, groups.group(g))?;
        write_word(rows, pass, row, FIRST_LINK + g as u32, u64::from(leaf));
    }
    write_first(rows, pass, row, INNER, groups.count() as u32);
    Some(())
}

/// Puts the point into a leaf in a fresh row, which has so many points and whose box encloses it. A leaf that would have 21 is divided.
pub(crate) fn insert_in_leaf(
    rows: &Rows<NdLaw>,
    pass: &mut Pass<NdLaw>,
    row: u32,
    count: u32,
    point: &Point,
) -> Option<()>
    requires building { IsBuilding rows.now pass.old }
    requires pinned { (n p : ℕ) × ((known_of pass.old).core.pinned ≡ Some (n, p)) }
    requires paid { IsPaid 0 (known_of pass.old) (marked_of pass.old) }
    requires fresh { In row (known_of pass.old).core.fresh }
    requires linked { (placed : List Placed) × HasLinked rows.now.shape (known_of pass.old) row placed × (length placed ≡ count) }
    requires few { count ≤ 20 }
    requires parts { length point.now.value ≡ rows.now.shape }
    ensures work { work_of pass.new ≡ work_of pass.old }
    ensures kept { IfSome result (λ _. (k : ℕ) → IDEAL ≤ k → look_up (known_words (known_of pass.new)) row k ≡ look_up (known_words (known_of pass.old)) row k) }
    ensures put { MatchOption result (Lacks rows.now pass.old pass.new) (λ _. (at : ℕ) × (leaves : List ℕ) × Does rows.now (at ∷ leaves) [] (row ∷ at ∷ leaves) pass.old pass.new
        × ((placed : List Placed) → HasLinked rows.now.shape (known_of pass.old) row placed → length placed ≡ count
        → IsPut rows.now.shape (known_words (known_of pass.new)) row placed point.now at leaves)) }
    ensures only { (placed : List Placed) → HasLinked rows.now.shape (known_of pass.old) row placed → length placed ≡ count → ReadsOnly (row ∷ rows_with placed) (known_of pass.old) (known_of pass.new) }
{
    let at = take_row(rows, pass)?;
    write_point(rows, pass, at, point);
    if count as usize == FULL - 1 {
        return divide(rows, pass, row, at, &point.value);
    }
    write_word(rows, pass, row, FIRST_LINK + count, u64::from(at));
    write_first(rows, pass, row, LEAF, count + 1);
    Some(())
}
