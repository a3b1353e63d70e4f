//! Putting a point into the tree that is built: down the closest children, each of which gets a row of the pass and a box that
//! encloses the point.
ghost use Rattle.std.specs.Prelude.{◌≡◌, ℕ, ◌+◌, ◌*◌, ◌<◌, ◌≤◌, List, [], ◌∷◌, Option, Some, IfSome, MatchOption, length};
ghost use Rattle.era_core.specs.declared.sizes.TheConstants.{KINDS};
ghost use Rattle.era_core.specs.Lists.{times, In};
ghost use Rattle.era_rows.specs.Known.{pinned_copy, known_words};
ghost use Rattle.era_rows.specs.Passes.{known_of, marked_of, work_of, IsReadable};
ghost use Rattle.pls_vectors.specs.Box.{Box};
ghost use Rattle.nd_rows.specs.Nodes.{Nodes, inner, no_nodes, heads};
ghost use Rattle.nd_rows.specs.Layout.{IsLinkRow, IsBoxRow};
ghost use Rattle.nd_update.specs.Insertion.{place_among};
ghost use Rattle.nd_update.specs.Ways.{HasNode, IsOwned, IsStepped, link_count, touched, touched_box, child_row};
ghost use Rattle.nd_update.specs.Building.{Does, IsBuilding, Lacks};
ghost use Rattle.nd_update.specs.Counted.{IsPaid, WasRead};
ghost use Rattle.nd_update.specs.Left.{IsLeft};
ghost use Rattle.nd_update.specs.Needed.{ReadsOnly, on_way};
ghost use Rattle.nd_update.specs.Removal.{without_dominated};
ghost use Rattle.nd_update.specs.Inserted.{IsInserted};
ghost use Rattle.nd_update.specs.Updates.{MayUpdate};

use crate::leaves::{insert_alone, insert_in_leaf};
use crate::takes::take_row;
use crate::words::{copy_links, read_box, read_word, write_box, write_word};
use era_core::{KINDS, MOST_ROWS};
use era_rows::{Pass, Rows};
use nd_rows::{FIRST_LINK, LEAF, NdLaw};
use nd_tree::closest;
use pls_archive::Point;
use pls_vectors::{Range, Vector};

// The most children of an inner node.
const MOST_CHILDREN: usize = 5;

// The box of a node with so many links, grown by the value.
fn grown_box(
    rows: &Rows<NdLaw>,
    pass: &mut Pass<NdLaw>,
    row: u32,
    count: u64,
    value: &Vector,
) -> Range
    requires building { IsBuilding rows.now pass.old }
    requires parts { length value.now ≡ rows.now.shape }
    requires node { (ms : Nodes) × HasNode rows.now.shape (known_of pass.old) row ms × (link_count ms ≡ count) }
    ensures does { Does rows.now [] [] [] pass.old pass.new }
    ensures work { work_of pass.new ≡ work_of pass.old }
    ensures grown { (ms : Nodes) → HasNode rows.now.shape (known_of pass.old) row ms → link_count ms ≡ count → result ≡ touched_box value.now ms }
    ensures only { ReadsOnly (row ∷ []) (known_of pass.old) (known_of pass.new) }
{
    if count == 0 {
        return Range::of(*value);
    }
    let mut range = read_box(rows, pass, row);
    range.grow(*value);
    range
}

// A fresh row with the links of a node of the pinned tree, which is marked.
fn copy_node(rows: &Rows<NdLaw>, pass: &mut Pass<NdLaw>, row: u32, first: u64) -> Option<u32>
    requires building { IsBuilding rows.now pass.old }
    requires pinned { (n p : ℕ) × ((known_of pass.old).core.pinned ≡ Some (n, p)) }
    requires paid { IsPaid 0 (known_of pass.old) (marked_of pass.old) }
    requires row { In row (pinned_copy (known_of pass.old)).rows }
    requires unmarked { times row (marked_of pass.old) ≡ 0 }
    requires read { WasRead row (known_of pass.old) }
    requires links { (kind : ℕ) × (links : List ℕ) × IsLinkRow (known_words (known_of pass.old)) kind row links × (first ≡ KINDS * length links + kind) × (kind < KINDS) × (length links ≤ 20) }
    ensures does { MatchOption result (Lacks rows.now pass.old pass.new) (λ own. Does rows.now (own ∷ []) (row ∷ []) (own ∷ []) pass.old pass.new) }
    ensures work { work_of pass.new ≡ work_of pass.old }
    ensures paid { IfSome result (λ _. IsPaid 0 (known_of pass.new) (marked_of pass.new)) }
    ensures links { IfSome result (λ own. (kind : ℕ) (links : List ℕ) → IsLinkRow (known_words (known_of pass.old)) kind row links → first ≡ KINDS * length links + kind → kind < KINDS → length links ≤ 20
        → IsLinkRow (known_words (known_of pass.new)) kind own links) }
    ensures only { ReadsOnly (row ∷ []) (known_of pass.old) (known_of pass.new) }
{
    let own = take_row(rows, pass)?;
    write_word(rows, pass, own, 0, first);
    copy_links(rows, pass, row, own, (first / KINDS) as u32);
    rows.mark(pass, row);
    Some(own)
}

// A row of the pass with the links of a node: its own if that is fresh.
fn own_row(rows: &Rows<NdLaw>, pass: &mut Pass<NdLaw>, row: u32, first: u64) -> Option<u32>
    requires building { IsBuilding rows.now pass.old }
    requires pinned { (n p : ℕ) × ((known_of pass.old).core.pinned ≡ Some (n, p)) }
    requires paid { IsPaid 0 (known_of pass.old) (marked_of pass.old) }
    requires row { IsReadable row (known_of pass.old) }
    requires unmarked { In row (pinned_copy (known_of pass.old)).rows → times row (marked_of pass.old) ≡ 0 }
    requires read { WasRead row (known_of pass.old) }
    requires links { (kind : ℕ) × (links : List ℕ) × IsLinkRow (known_words (known_of pass.old)) kind row links × (first ≡ KINDS * length links + kind) × (kind < KINDS) × (length links ≤ 20) }
    ensures owned { MatchOption result (Lacks rows.now pass.old pass.new) (λ own. (taken marked : List ℕ) × Does rows.now taken marked taken pass.old pass.new × IsOwned (known_of pass.old) row own taken marked) }
    ensures work { work_of pass.new ≡ work_of pass.old }
    ensures paid { IfSome result (λ _. IsPaid 0 (known_of pass.new) (marked_of pass.new)) }
    ensures links { IfSome result (λ own. (kind : ℕ) (links : List ℕ) → IsLinkRow (known_words (known_of pass.old)) kind row links → first ≡ KINDS * length links + kind → kind < KINDS → length links ≤ 20
        → IsLinkRow (known_words (known_of pass.new)) kind own links) }
    ensures only { ReadsOnly (row ∷ []) (known_of pass.old) (known_of pass.new) }
{
    if rows.is_fresh(pass, row) {
        return Some(row);
    }
    copy_node(rows, pass, row, first)
}

// The row of the pass in which a node stands whose box encloses the value: its own if that is fresh.
fn own_node(rows: &Rows<NdLaw>, pass: &mut Pass<NdLaw>, row: u32, value: &Vector) -> Option<u32>
    requires building { IsBuilding rows.now pass.old }
    requires pinned { (n p : ℕ) × ((known_of pass.old).core.pinned ≡ Some (n, p)) }
    requires paid { IsPaid 0 (known_of pass.old) (marked_of pass.old) }
    requires parts { length value.now ≡ rows.now.shape }
    requires node { (ms : Nodes) × HasNode rows.now.shape (known_of pass.old) row ms }
    requires unmarked { In row (pinned_copy (known_of pass.old)).rows → times row (marked_of pass.old) ≡ 0 }
    ensures owned { MatchOption result (Lacks rows.now pass.old pass.new)
        (λ own. (taken marked : List ℕ) × Does rows.now taken marked (own ∷ []) pass.old pass.new × IsOwned (known_of pass.old) row own taken marked) }
    ensures work { work_of pass.new ≡ work_of pass.old }
    ensures paid { IfSome result (λ _. IsPaid 0 (known_of pass.new) (marked_of pass.new)) }
    ensures node { IfSome result (λ own. (ms : Nodes) → HasNode rows.now.shape (known_of pass.old) row ms → HasNode rows.now.shape (known_of pass.new) own (touched own value.now ms)) }
    ensures boxed { IfSome result (λ own. (ms : Nodes) → HasNode rows.now.shape (known_of pass.old) row ms → IsBoxRow rows.now.shape (known_words (known_of pass.new)) own (touched_box value.now ms)) }
    ensures only { ReadsOnly (row ∷ []) (known_of pass.old) (known_of pass.new) }
{
    let first = read_word(rows, pass, row, 0);
    let range = grown_box(rows, pass, row, first / KINDS, value);
    let own = own_row(rows, pass, row, first)?;
    write_box(rows, pass, own, &range);
    Some(own)
}

// Which child of an inner node in a fresh row is the closest.
fn closest_child(
    rows: &Rows<NdLaw>,
    pass: &mut Pass<NdLaw>,
    row: u32,
    count: u32,
    value: &Vector,
) -> u32
    requires building { IsBuilding rows.now pass.old }
    requires parts { length value.now ≡ rows.now.shape }
    requires node { (b : Box) × (kids : Nodes) × HasNode rows.now.shape (known_of pass.old) row (inner row b kids no_nodes) × (length (heads kids) ≡ count) }
    ensures does { Does rows.now [] [] [] pass.old pass.new }
    ensures work { work_of pass.new ≡ work_of pass.old }
    ensures bound { result < count }
    ensures place { (b : Box) (kids : Nodes) → HasNode rows.now.shape (known_of pass.old) row (inner row b kids no_nodes) → length (heads kids) ≡ count → result ≡ place_among value.now kids }
    ensures only { (b : Box) (kids : Nodes) → HasNode rows.now.shape (known_of pass.old) row (inner row b kids no_nodes) → length (heads kids) ≡ count → ReadsOnly (row ∷ heads kids) (known_of pass.old) (known_of pass.new) }
{
    let mut boxes = [Range::of(*value); MOST_CHILDREN];
    for k in 0..count {
        let link = read_word(rows, pass, row, FIRST_LINK + k);
        boxes[k as usize] = read_box(rows, pass, link as u32);
    }
    closest(&boxes[..count as usize], value) as u32
}

// Goes on to the closest child, which gets a row of the pass.
fn step_down(
    rows: &Rows<NdLaw>,
    pass: &mut Pass<NdLaw>,
    row: u32,
    count: u32,
    value: &Vector,
) -> Option<u32>
    requires building { IsBuilding rows.now pass.old }
    requires pinned { (n p : ℕ) × ((known_of pass.old).core.pinned ≡ Some (n, p)) }
    requires paid { IsPaid 0 (known_of pass.old) (marked_of pass.old) }
    requires fresh { In row (known_of pass.old).core.fresh }
    requires parts { length value.now ≡ rows.now.shape }
    requires node { (b : Box) × (kids : Nodes) × HasNode rows.now.shape (known_of pass.old) row (inner row b kids no_nodes) × (length (heads kids) ≡ count)
        × (In (child_row value.now kids) (pinned_copy (known_of pass.old)).rows → times (child_row value.now kids) (marked_of pass.old) ≡ 0) }
    ensures does { MatchOption result (Lacks rows.now pass.old pass.new) (λ own. (taken marked : List ℕ) × Does rows.now taken marked (own ∷ row ∷ []) pass.old pass.new
        × ((b : Box) (kids : Nodes) → HasNode rows.now.shape (known_of pass.old) row (inner row b kids no_nodes) → length (heads kids) ≡ count
        → IsOwned (known_of pass.old) (child_row value.now kids) own taken marked × IsStepped rows.now.shape (known_of pass.new) row b kids value.now own)) }
    ensures work { work_of pass.new ≡ work_of pass.old }
    ensures paid { IfSome result (λ _. IsPaid 0 (known_of pass.new) (marked_of pass.new)) }
    ensures only { (b : Box) (kids : Nodes) → HasNode rows.now.shape (known_of pass.old) row (inner row b kids no_nodes) → length (heads kids) ≡ count → ReadsOnly (row ∷ heads kids) (known_of pass.old) (known_of pass.new) }
{
    let place = FIRST_LINK + closest_child(rows, pass, row, count, value);
    let child = read_word(rows, pass, row, place) as u32;
    let own = own_node(rows, pass, child, value)?;
    write_word(rows, pass, row, place, u64::from(own));
    Some(own)
}

// Puts the point below the node in a row.
fn insert_below(rows: &Rows<NdLaw>, pass: &mut Pass<NdLaw>, root: u32, point: &Point) -> Option<u32>
    requires building { IsBuilding rows.now pass.old }
    requires pinned { (n p : ℕ) × ((known_of pass.old).core.pinned ≡ Some (n, p)) }
    requires paid { IsPaid 0 (known_of pass.old) (marked_of pass.old) }
    requires left { (t : Nodes) × MayUpdate rows.now.shape rows.now.rows point.now (pinned_copy (known_of pass.old)) t
        × ((removed : ℕ) × IsLeft rows.now.rows point.now.value rows.now.shape t (known_words (known_of pass.old)) (known_of pass.old).core.fresh (marked_of pass.old) (Some root) removed) }
    ensures does { MatchOption result (Lacks rows.now pass.old pass.new) (λ _. (taken marked : List ℕ) × ((changed : List ℕ) × Does rows.now taken marked changed pass.old pass.new)) }
    ensures work { work_of pass.new ≡ work_of pass.old }
    ensures inserted { IfSome result (λ new_root. (t : Nodes) → MayUpdate rows.now.shape rows.now.rows point.now (pinned_copy (known_of pass.old)) t
        → (removed : ℕ) → IsLeft rows.now.rows point.now.value rows.now.shape t (known_words (known_of pass.old)) (known_of pass.old).core.fresh (marked_of pass.old) (Some root) removed
        → IsInserted rows.now.rows rows.now.shape point.now t (known_words (known_of pass.new)) (known_of pass.new).core.fresh (marked_of pass.new) new_root) }
    ensures only { (t : Nodes) → MayUpdate rows.now.shape rows.now.rows point.now (pinned_copy (known_of pass.old)) t
        → (removed : ℕ) → IsLeft rows.now.rows point.now.value rows.now.shape t (known_words (known_of pass.old)) (known_of pass.old).core.fresh (marked_of pass.old) (Some root) removed
        → ReadsOnly (on_way point.now.value (without_dominated rows.now.rows point.now.value t) 0) (known_of pass.old) (known_of pass.new) }
{
    let own = own_node(rows, pass, root, &point.value)?;
    let mut row = own;
    for stepped in 0..MOST_ROWS {
        let first = read_word(rows, pass, row, 0);
        let count = (first / KINDS) as u32;
        if first % KINDS == LEAF {
            insert_in_leaf(rows, pass, row, count, point)?;
            return Some(own);
        }
        row = step_down(rows, pass, row, count, &point.value)?;
    }
    unreachable!()
}

/// Puts the point into what is left of the pinned tree, which has this root row, if any node is left: the root row of the new
/// tree. The rows on the way are marked. None where no row is free.
pub(crate) fn insert(
    rows: &Rows<NdLaw>,
    pass: &mut Pass<NdLaw>,
    root: Option<u32>,
    point: &Point,
) -> Option<u32>
    requires building { IsBuilding rows.now pass.old }
    requires pinned { (n p : ℕ) × ((known_of pass.old).core.pinned ≡ Some (n, p)) }
    requires paid { IsPaid 0 (known_of pass.old) (marked_of pass.old) }
    requires left { (t : Nodes) × MayUpdate rows.now.shape rows.now.rows point.now (pinned_copy (known_of pass.old)) t
        × ((removed : ℕ) × IsLeft rows.now.rows point.now.value rows.now.shape t (known_words (known_of pass.old)) (known_of pass.old).core.fresh (marked_of pass.old) root removed) }
    ensures does { MatchOption result (Lacks rows.now pass.old pass.new) (λ _. (taken marked : List ℕ) × ((changed : List ℕ) × Does rows.now taken marked changed pass.old pass.new)) }
    ensures work { work_of pass.new ≡ work_of pass.old }
    ensures inserted { IfSome result (λ new_root. (t : Nodes) → MayUpdate rows.now.shape rows.now.rows point.now (pinned_copy (known_of pass.old)) t
        → (removed : ℕ) → IsLeft rows.now.rows point.now.value rows.now.shape t (known_words (known_of pass.old)) (known_of pass.old).core.fresh (marked_of pass.old) root removed
        → IsInserted rows.now.rows rows.now.shape point.now t (known_words (known_of pass.new)) (known_of pass.new).core.fresh (marked_of pass.new) new_root) }
    ensures only { (t : Nodes) → MayUpdate rows.now.shape rows.now.rows point.now (pinned_copy (known_of pass.old)) t
        → (removed : ℕ) → IsLeft rows.now.rows point.now.value rows.now.shape t (known_words (known_of pass.old)) (known_of pass.old).core.fresh (marked_of pass.old) root removed
        → ReadsOnly (on_way point.now.value (without_dominated rows.now.rows point.now.value t) 0) (known_of pass.old) (known_of pass.new) }
{
    match root {
        None => insert_alone(rows, pass, point),
        Some(root) => insert_below(rows, pass, root, point),
    }
}
