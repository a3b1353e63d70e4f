//! The points of the pinned version.
ghost use Rattle.std.specs.Prelude.{◌≡◌, ℕ, ◌+◌, ◌*◌, ◌≤◌, List, [], ◌∷◌, ◌++◌, take, length, OnOk, IfOk};
ghost use Rattle.era_core.specs.Lists.{In};
ghost use Rattle.era_rows.specs.Known.{pinned_copy};
ghost use Rattle.era_rows.specs.Passes.{known_of, seen_of, work_of, IsPassOf, HasSame};
ghost use Rattle.pls_archive.specs.declared.call.Call.TheVariants.{Snapshot};
ghost use Rattle.pls_archive.specs.declared.call.Reply.TheVariants.{Points};
ghost use Rattle.pls_archive.specs.declared.point.Point.{Point};
ghost use Rattle.pls_archive.specs.History.{submissions};
ghost use Rattle.pls_archive.specs.Reply.{nondominated};
ghost use Rattle.pls_vectors.specs.Vector.{places_of};
ghost use Rattle.nd_rows.specs.Layout.{HasPoint};
ghost use Rattle.nd_rows.specs.Nodes.{Placed, Nodes, heads, rows_with, points_of, points_with};
ghost use Rattle.nd_rows.specs.Reads.{HasPinnedTree, LooksIn, ReadsIn};
ghost use Rattle.nd_rows.specs.Walk.{HasPlaced, BeginAt, AreOnList, Gathers, kids_of};

use crate::law::NdLaw;
use crate::layout::{FIRST_LINK, LEAF, PARTS, SOL_LEN, SOL_WORDS, VALUE};
use crate::reads::word;
use crate::walk::push_links;
use era_core::{KINDS, MOST_ROWS};
use era_rows::{Pass, Rows};
use pls_archive::{Point, PointList};
use pls_vectors::{Sol, Vector, from_word};
use std::alloc::{AllocError, Global};

// The words of the solution of the point in a row.
fn read_words(rows: &Rows<NdLaw>, pass: &mut Pass<NdLaw>, row: u32) -> [u64; 32]
    requires pass { IsPassOf rows.now pass.old }
    requires row { In row (pinned_copy (known_of pass.old)).rows }
    ensures looks { LooksIn rows.now (row ∷ []) pass.old pass.new }
    ensures work { work_of pass.new ≡ work_of pass.old }
    ensures words { (p : Point) → HasPoint rows.now.shape (pinned_copy (known_of pass.old)) row p → result ≡ p.sol.words }
{
    let mut words = [0; 32];
    for k in 0..32 {
        words[k] = word(rows, pass, row, SOL_WORDS + k as u32);
    }
    words
}

// The solution of the point in a row.
fn read_sol(rows: &Rows<NdLaw>, pass: &mut Pass<NdLaw>, row: u32) -> Sol
    requires pass { IsPassOf rows.now pass.old }
    requires row { In row (pinned_copy (known_of pass.old)).rows }
    requires point { (p : Point) × HasPoint rows.now.shape (pinned_copy (known_of pass.old)) row p }
    ensures looks { LooksIn rows.now (row ∷ []) pass.old pass.new }
    ensures work { work_of pass.new ≡ work_of pass.old }
    ensures sol { (p : Point) → HasPoint rows.now.shape (pinned_copy (known_of pass.old)) row p → result ≡ p.sol }
{
    let len = word(rows, pass, row, SOL_LEN);
    let words = read_words(rows, pass, row);
    Sol::of_words(len as u16, words)
}

// The parts of the value of the point in a row, which has so many, and 0 at each place past them.
fn read_parts(rows: &Rows<NdLaw>, pass: &mut Pass<NdLaw>, row: u32, len: usize) -> [i64; 4]
    requires pass { IsPassOf rows.now pass.old }
    requires row { In row (pinned_copy (known_of pass.old)).rows }
    requires point { (p : Point) × HasPoint rows.now.shape (pinned_copy (known_of pass.old)) row p × (length p.value ≡ len) }
    ensures looks { LooksIn rows.now (row ∷ []) pass.old pass.new }
    ensures work { work_of pass.new ≡ work_of pass.old }
    ensures parts { (p : Point) → HasPoint rows.now.shape (pinned_copy (known_of pass.old)) row p → length p.value ≡ len → result ≡ places_of p.value }
{
    let mut parts = [0; 4];
    for k in 0..len {
        let found = word(rows, pass, row, VALUE + k as u32);
        parts[k] = from_word(found);
    }
    parts
}

// The value of the point in a row.
pub(crate) fn read_value(rows: &Rows<NdLaw>, pass: &mut Pass<NdLaw>, row: u32) -> Vector
    requires pass { IsPassOf rows.now pass.old }
    requires row { In row (pinned_copy (known_of pass.old)).rows }
    requires point { (p : Point) × HasPoint rows.now.shape (pinned_copy (known_of pass.old)) row p }
    ensures looks { LooksIn rows.now (row ∷ []) pass.old pass.new }
    ensures work { work_of pass.new ≡ work_of pass.old }
    ensures value { (p : Point) → HasPoint rows.now.shape (pinned_copy (known_of pass.old)) row p → result ≡ p.value }
{
    let len = word(rows, pass, row, PARTS) as usize;
    let parts = read_parts(rows, pass, row, len);
    Vector::from_places(len, parts)
}

// The point in a row.
fn read_point(rows: &Rows<NdLaw>, pass: &mut Pass<NdLaw>, row: u32) -> Point
    requires pass { IsPassOf rows.now pass.old }
    requires row { In row (pinned_copy (known_of pass.old)).rows }
    requires point { (p : Point) × HasPoint rows.now.shape (pinned_copy (known_of pass.old)) row p }
    ensures looks { LooksIn rows.now (row ∷ []) pass.old pass.new }
    ensures work { work_of pass.new ≡ work_of pass.old }
    ensures point { (p : Point) → HasPoint rows.now.shape (pinned_copy (known_of pass.old)) row p → result ≡ p }
{
    let value = read_value(rows, pass, row);
    let sol = read_sol(rows, pass, row);
    Point { value, sol }
}

// Puts the points of a leaf at the end of the list, in their order.
fn gather_points(
    rows: &Rows<NdLaw>,
    pass: &mut Pass<NdLaw>,
    row: u32,
    count: u32,
    points: &mut Vec<Point>,
) -> Result<(), AllocError>
    requires pass { IsPassOf rows.now pass.old }
    requires row { In row (pinned_copy (known_of pass.old)).rows }
    requires points { (placed : List Placed) × HasPlaced rows.now.shape (pinned_copy (known_of pass.old)) row placed × (length placed ≡ count) }
    ensures looks { (placed : List Placed) → HasPlaced rows.now.shape (pinned_copy (known_of pass.old)) row placed → length placed ≡ count → LooksIn rows.now (row ∷ rows_with placed) pass.old pass.new }
    ensures work { work_of pass.new ≡ work_of pass.old }
    ensures points { OnOk result ((placed : List Placed) → HasPlaced rows.now.shape (pinned_copy (known_of pass.old)) row placed → length placed ≡ count → points.new.items ≡ points.old.items ++ points_with placed) }
{
    for k in 0..count {
        points.try_reserve(1)?;
        let link = word(rows, pass, row, FIRST_LINK + k);
        let point = read_point(rows, pass, link as u32);
        points.push_reserved(point);
    }
    Ok(())
}

// Puts the points of a leaf at the end of the list, or the children of an inner node at the end of the work list, the first one
// last.
fn gather_node(
    rows: &Rows<NdLaw>,
    pass: &mut Pass<NdLaw>,
    row: u32,
    points: &mut Vec<Point>,
) -> Result<(), AllocError>
    requires pass { IsPassOf rows.now pass.old }
    requires node { (ns : Nodes) × BeginAt rows.now.shape (pinned_copy (known_of pass.old)) row ns × (length (work_of pass.old) + length (heads (kids_of ns)) ≤ 2 * rows.now.rows) }
    ensures looks { LooksIn rows.now (pinned_copy (known_of pass.old)).rows pass.old pass.new }
    ensures gathers { OnOk result ((ns : Nodes) → BeginAt rows.now.shape (pinned_copy (known_of pass.old)) row ns → Gathers ns (work_of pass.old) (work_of pass.new) points.old.items points.new.items) }
{
    let first = word(rows, pass, row, 0);
    let count = (first / KINDS) as u32;
    if first % KINDS == LEAF {
        return gather_points(rows, pass, row, count, points);
    }
    push_links(rows, pass, row, count);
    Ok(())
}

// Puts the points below the nodes on the work list at the end of the list, in depth-first order.
fn gather_pending(
    rows: &Rows<NdLaw>,
    pass: &mut Pass<NdLaw>,
    points: &mut Vec<Point>,
) -> Result<(), AllocError>
    requires pass { IsPassOf rows.now pass.old }
    requires nodes { (ns : Nodes) × AreOnList rows.now.shape (pinned_copy (known_of pass.old)) rows.now.rows (work_of pass.old) ns }
    ensures looks { LooksIn rows.now (pinned_copy (known_of pass.old)).rows pass.old pass.new }
    ensures points { OnOk result ((ns : Nodes) → AreOnList rows.now.shape (pinned_copy (known_of pass.old)) rows.now.rows (work_of pass.old) ns → points.new.items ≡ points.old.items ++ points_of ns) }
{
    // Each node gives its points once.
    for given in 0..MOST_ROWS {
        let len = pass.work_len();
        if len == 0 {
            return Ok(());
        }
        let row = pass.work(len - 1);
        pass.work_cut(len - 1);
        gather_node(rows, pass, row as u32, points)?;
    }
    Ok(())
}

// Puts the points of the pinned version at the end of the list, in depth-first order.
fn gather_tree(
    rows: &Rows<NdLaw>,
    pass: &mut Pass<NdLaw>,
    points: &mut Vec<Point>,
) -> Result<(), AllocError>
    requires tree { (n : ℕ) × HasPinnedTree rows.now n pass.old }
    requires idle { work_of pass.old ≡ [] }
    ensures looks { LooksIn rows.now (pinned_copy (known_of pass.old)).rows pass.old pass.new }
    ensures work { work_of pass.new ≡ [] }
    ensures points { OnOk result ((n : ℕ) (tree : HasPinnedTree rows.now n pass.old) → points.new.items ≡ points.old.items ++ points_of tree.stands.0) }
{
    let Some(pin) = rows.pinned(pass) else {
        unreachable!()
    };
    pass.work_push(pin.1 as u64);
    let gathered = gather_pending(rows, pass, points);
    pass.work_cut(0);
    gathered
}

/// The points of the pinned version in ascending lexicographic order of values: the reply of the nondominated archive to the
/// accepted entries up to it. It reads rows of that version alone. The work list of the pass is empty before and after.
///
/// # Errors
///
/// Where there is no memory for the points. The pass is then as after an answer.
pub fn gather(
    alloc: Global,
    rows: &Rows<NdLaw>,
    pass: &mut Pass<NdLaw>,
) -> Result<PointList, AllocError>
    requires tree { (n : ℕ) × HasPinnedTree rows.now n pass.old }
    requires idle { work_of pass.old ≡ [] }
    ensures same { HasSame pass.old pass.new }
    ensures tree { (n : ℕ) → HasPinnedTree rows.now n pass.old → HasPinnedTree rows.now n pass.new }
    ensures reads { ReadsIn (pinned_copy (known_of pass.old)).rows (known_of pass.old) (known_of pass.new) }
    ensures answer { IfOk result (λ list. (n : ℕ) → HasPinnedTree rows.now n pass.old → Points list ≡ nondominated (submissions (take n (seen_of pass.old))) Snapshot) }
{
    let mut points = Vec::new(alloc);
    gather_tree(rows, pass, &mut points)?;
    let list = PointList::sorted(points)?;
    Ok(list)
}
