//! The walk of a question over the nodes of the pinned version.
ghost use Rattle.std.specs.Prelude.{◌≡◌, ℕ, ℤ, ◌+◌, ◌*◌, ◌<◌, ◌≤◌, true, IsTrue, Some, None, IfSome, List, [], ◌∷◌, ◌++◌, is_some, length, reverse};
ghost use Rattle.era_core.specs.Lists.{In};
ghost use Rattle.era_core.specs.Versions.{look_up};
ghost use Rattle.era_rows.specs.Known.{pinned_copy};
ghost use Rattle.era_rows.specs.Passes.{known_of, work_of, IsPassOf};
ghost use Rattle.pls_vectors.specs.Box.{Box};
ghost use Rattle.pls_vectors.specs.Dominance.{weakly_dominates};
ghost use Rattle.nd_rows.specs.Layout.{HasWords, IsBoxRow};
ghost use Rattle.nd_rows.specs.Nodes.{Placed, Nodes, rows_with, points_with, necessary, heads, rows_of, points_of, AreFormed};
ghost use Rattle.nd_rows.specs.Reads.{LooksIn};
ghost use Rattle.nd_rows.specs.Walk.{some_meets, point_answer, box_answer, equal_answer, box_told, HasPlaced, BeginAt, Asks, AreOnList, IsRowOf, Finds, is_open, kids_of};
ghost use Rattle.nd_rows.specs.declared.question.Question.TheVariants.{Covers, Equals};

use crate::law::NdLaw;
use crate::layout::{FIRST_LINK, IDEAL, LEAF, NADIR, VALUE};
use crate::question::Question;
use crate::reads::{sided, word};
use era_core::{KINDS, MOST_ROWS};
use era_rows::{Pass, Rows};
use pls_vectors::Vector;

// What the nadir tells where the ideal covers the value.
fn by_nadir(at_ideal: bool, nadir: Option<bool>) -> Option<bool>
    ensures { result ≡ box_answer nadir (Some at_ideal) }
{
    match nadir {
        Some(_) => Some(true),
        None => { if at_ideal { Some(false) } else { None } }
    }
}

// What the box of a node tells: whether some point in it covers the value, or nothing. The ideal is read first: where it does not
// cover the value, as at most nodes, no point in the box does.
fn ask_covers(rows: &Rows<NdLaw>, pass: &mut Pass<NdLaw>, row: u32, value: &Vector) -> Option<bool>
    requires pass { IsPassOf rows.now pass.old }
    requires row { In row (pinned_copy (known_of pass.old)).rows }
    ensures looks { LooksIn rows.now (row ∷ []) pass.old pass.new }
    ensures work { work_of pass.new ≡ work_of pass.old }
    ensures answer { (b : Box) → IsBoxRow (length value.now) (pinned_copy (known_of pass.old)).cells row b → IsTrue (weakly_dominates b.ideal b.nadir) → result ≡ box_told Covers b value.now }
{
    match sided(rows, pass, row, IDEAL, value, false) {
        None => Some(false),
        Some(at_ideal) => by_nadir(at_ideal, sided(rows, pass, row, NADIR, value, false)),
    }
}

// What the ideal tells about points of the value where the value covers the nadir.
fn by_corners(at_nadir: bool, ideal: Option<bool>) -> Option<bool>
    ensures { result ≡ equal_answer (Some at_nadir) ideal }
{
    match ideal {
        None => Some(false),
        Some(at_ideal) => {
            if at_nadir {
                Some(at_ideal)
            } else if at_ideal {
                Some(false)
            } else {
                None
            }
        }
    }
}

// What the box of a node tells: whether some point in it has the value, or nothing.
fn ask_equals(rows: &Rows<NdLaw>, pass: &mut Pass<NdLaw>, row: u32, value: &Vector) -> Option<bool>
    requires pass { IsPassOf rows.now pass.old }
    requires row { In row (pinned_copy (known_of pass.old)).rows }
    ensures looks { LooksIn rows.now (row ∷ []) pass.old pass.new }
    ensures work { work_of pass.new ≡ work_of pass.old }
    ensures answer { (b : Box) → IsBoxRow (length value.now) (pinned_copy (known_of pass.old)).cells row b → result ≡ box_told Equals b value.now }
{
    match sided(rows, pass, row, NADIR, value, true) {
        None => Some(false),
        Some(at_nadir) => by_corners(at_nadir, sided(rows, pass, row, IDEAL, value, false)),
    }
}

fn ask_box(
    rows: &Rows<NdLaw>,
    pass: &mut Pass<NdLaw>,
    row: u32,
    value: &Vector,
    question: Question,
) -> Option<bool>
    requires pass { IsPassOf rows.now pass.old }
    requires row { In row (pinned_copy (known_of pass.old)).rows }
    ensures looks { LooksIn rows.now (row ∷ []) pass.old pass.new }
    ensures work { work_of pass.new ≡ work_of pass.old }
    ensures answer { (b : Box) → IsBoxRow (length value.now) (pinned_copy (known_of pass.old)).cells row b → IsTrue (weakly_dominates b.ideal b.nadir) → result ≡ box_told question b value.now }
{
    match question {
        Question::Covers => ask_covers(rows, pass, row, value),
        Question::Equals => ask_equals(rows, pass, row, value),
    }
}

// What the side of a point's value tells.
fn answer_of(question: Question, side: Option<bool>) -> bool
    ensures { result ≡ point_answer question side }
{
    match question {
        Question::Covers => side.is_some(),
        Question::Equals => side.unwrap_or(false),
    }
}

// The row of the first point of a leaf that answers the question, where one does.
fn ask_points(
    rows: &Rows<NdLaw>,
    pass: &mut Pass<NdLaw>,
    row: u32,
    count: u32,
    value: &Vector,
    question: Question,
) -> Option<u32>
    requires pass { IsPassOf rows.now pass.old }
    requires row { In row (pinned_copy (known_of pass.old)).rows }
    requires points { (placed : List Placed) × HasPlaced (length value.now) (pinned_copy (known_of pass.old)) row placed × (length placed ≡ count) }
    ensures looks { (placed : List Placed) → HasPlaced (length value.now) (pinned_copy (known_of pass.old)) row placed → length placed ≡ count → LooksIn rows.now (row ∷ rows_with placed) pass.old pass.new }
    ensures work { work_of pass.new ≡ work_of pass.old }
    ensures answer { (placed : List Placed) → HasPlaced (length value.now) (pinned_copy (known_of pass.old)) row placed → length placed ≡ count → is_some result ≡ some_meets question (points_with placed) value.now }
    ensures row { (placed : List Placed) → HasPlaced (length value.now) (pinned_copy (known_of pass.old)) row placed → length placed ≡ count → IfSome result (IsRowOf (length value.now) (pinned_copy (known_of pass.old)) (rows_with placed) (points_with placed)) }
{
    for k in 0..count {
        let point = word(rows, pass, row, FIRST_LINK + k);
        let side = sided(rows, pass, point as u32, VALUE, value, false);
        if answer_of(question, side) {
            return Some(point as u32);
        }
    }
    None
}

// Puts the children of a node at the end of the work list, the first one last.
pub(crate) fn push_links(rows: &Rows<NdLaw>, pass: &mut Pass<NdLaw>, row: u32, count: u32)
    requires pass { IsPassOf rows.now pass.old }
    requires row { In row (pinned_copy (known_of pass.old)).rows }
    requires few { count ≤ 39 }
    requires room { length (work_of pass.old) + count ≤ 2 * rows.now.rows }
    ensures looks { LooksIn rows.now (row ∷ []) pass.old pass.new }
    ensures work { (links : List ℕ) → HasWords (pinned_copy (known_of pass.old)).cells row FIRST_LINK links → length links ≡ count → reverse (work_of pass.new) ≡ links ++ reverse (work_of pass.old) }
{
    for k in 0..count {
        let link = word(rows, pass, row, count - k);
        pass.work_push(link);
    }
}

// Looks below a node whose box leaves the question open, where `first` is its word 0: at the points of a leaf, or at nothing yet
// but the links of an inner node. A point that answers the question is found.
fn ask_below(
    rows: &Rows<NdLaw>,
    pass: &mut Pass<NdLaw>,
    row: u32,
    first: u64,
    value: &Vector,
    question: Question,
    found: &mut Option<u32>,
) -> Option<bool>
    requires pass { IsPassOf rows.now pass.old }
    requires first { look_up (pinned_copy (known_of pass.old)).cells row 0 ≡ Some first }
    requires node { (ns : Nodes) × BeginAt (length value.now) (pinned_copy (known_of pass.old)) row ns × (length (work_of pass.old) + length (heads (kids_of ns)) ≤ 2 * rows.now.rows) }
    ensures looks { (ns : Nodes) → BeginAt (length value.now) (pinned_copy (known_of pass.old)) row ns → is_open value.now ns ≡ true → LooksIn rows.now (necessary value.now ns) pass.old pass.new }
    ensures asks { (ns : Nodes) → BeginAt (length value.now) (pinned_copy (known_of pass.old)) row ns → is_open value.now ns ≡ true → Asks question value.now ns result (work_of pass.old) (work_of pass.new) }
    ensures finds { (ns : Nodes) → BeginAt (length value.now) (pinned_copy (known_of pass.old)) row ns → is_open value.now ns ≡ true → Finds (length value.now) (pinned_copy (known_of pass.old)) (necessary value.now ns) (points_of ns) found.old found.new }
{
    let count = (first / KINDS) as u32;
    if first % KINDS == LEAF {
        let point = ask_points(rows, pass, row, count, value, question);
        *found = point.or(*found);
        return Some(point.is_some());
    }
    push_links(rows, pass, row, count);
    None
}

// Asks one node: whether a point below it answers the question, or nothing where its children are to be asked. A point that was
// looked at and answers it is found. Its box is read first, and its word 0 only where the box leaves the question open.
fn ask_node(
    rows: &Rows<NdLaw>,
    pass: &mut Pass<NdLaw>,
    row: u32,
    value: &Vector,
    question: Question,
    found: &mut Option<u32>,
) -> Option<bool>
    requires pass { IsPassOf rows.now pass.old }
    requires node { (ns : Nodes) × AreFormed (length value.now) ns × BeginAt (length value.now) (pinned_copy (known_of pass.old)) row ns × (length (work_of pass.old) + length (heads (kids_of ns)) ≤ 2 * rows.now.rows) }
    ensures looks { (ns : Nodes) → AreFormed (length value.now) ns → BeginAt (length value.now) (pinned_copy (known_of pass.old)) row ns → LooksIn rows.now (necessary value.now ns) pass.old pass.new }
    ensures asks { (ns : Nodes) → AreFormed (length value.now) ns → BeginAt (length value.now) (pinned_copy (known_of pass.old)) row ns → Asks question value.now ns result (work_of pass.old) (work_of pass.new) }
    ensures finds { (ns : Nodes) → AreFormed (length value.now) ns → BeginAt (length value.now) (pinned_copy (known_of pass.old)) row ns → Finds (length value.now) (pinned_copy (known_of pass.old)) (necessary value.now ns) (points_of ns) found.old found.new }
{
    match ask_box(rows, pass, row, value, question) {
        Some(answer) => Some(answer),
        None => {
            let first = word(rows, pass, row, 0);
            ask_below(rows, pass, row, first, value, question, found)
        }
    }
}

// Asks the nodes on the work list, which is empty afterwards: whether a point below them answers the question. A point that was
// looked at and answers it is found.
pub(crate) fn ask_pending(
    rows: &Rows<NdLaw>,
    pass: &mut Pass<NdLaw>,
    value: &Vector,
    question: Question,
    found: &mut Option<u32>,
) -> bool
    requires pass { IsPassOf rows.now pass.old }
    requires nodes { (ns : Nodes) × AreFormed (length value.now) ns × AreOnList (length value.now) (pinned_copy (known_of pass.old)) rows.now.rows (work_of pass.old) ns }
    ensures looks { (ns : Nodes) → AreFormed (length value.now) ns → AreOnList (length value.now) (pinned_copy (known_of pass.old)) rows.now.rows (work_of pass.old) ns → LooksIn rows.now (necessary value.now ns) pass.old pass.new }
    ensures answer { (ns : Nodes) → AreFormed (length value.now) ns → AreOnList (length value.now) (pinned_copy (known_of pass.old)) rows.now.rows (work_of pass.old) ns → result ≡ some_meets question (points_of ns) value.now }
    ensures finds { (ns : Nodes) → AreFormed (length value.now) ns → AreOnList (length value.now) (pinned_copy (known_of pass.old)) rows.now.rows (work_of pass.old) ns → Finds (length value.now) (pinned_copy (known_of pass.old)) (necessary value.now ns) (points_of ns) found.old found.new }
    ensures work { work_of pass.new ≡ [] }
{
    // Each node is asked once.
    for asked in 0..MOST_ROWS {
        let len = pass.work_len();
        if len == 0 {
            return false;
        }
        let row = pass.work(len - 1);
        pass.work_cut(len - 1);
        if ask_node(rows, pass, row as u32, value, question, found).unwrap_or(false) {
            pass.work_cut(0);
            return true;
        }
    }
    false
}
