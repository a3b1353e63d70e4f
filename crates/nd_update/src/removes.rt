//! Taking the points that a value weakly dominates out of the pinned tree.
ghost use Rattle.std.specs.Prelude.{◌≡◌, ℕ, ℤ, ◌+◌, ◌*◌, ◌%◌, ◌<◌, ◌≤◌, nat_lt, true, List, Some, None, [], ◌∷◌, ◌++◌, IfSome, length, take, drop, if◌then◌else◌};
ghost use Rattle.era_core.specs.declared.sizes.TheConstants.{KINDS, ROOT_ROWS};
ghost use Rattle.era_core.specs.Lists.{times, In};
ghost use Rattle.era_core.specs.Versions.{look_up};
ghost use Rattle.pls_archive.specs.Lists.{one_if};
ghost use Rattle.era_rows.specs.Known.{pinned_copy, known_words};
ghost use Rattle.era_rows.specs.Passes.{known_of, marked_of, work_of};
ghost use Rattle.pls_vectors.specs.Box.{Box};
ghost use Rattle.pls_vectors.specs.Dominance.{weakly_dominates};
ghost use Rattle.nd_rows.specs.declared.layout.TheConstants.{FIRST_LINK};
ghost use Rattle.nd_rows.specs.Layout.{HasWords, IsBoxRow, IsLinkRow, IsTreeOf};
ghost use Rattle.nd_rows.specs.Nodes.{Placed, Nodes, no_nodes, leaf, inner, heads, rows_with, points_of, AreFormed};
ghost use Rattle.nd_rows.specs.Walk.{HasPlaced};
ghost use Rattle.nd_update.specs.Building.{Does, Lacks, IsBuilding};
ghost use Rattle.nd_update.specs.Counted.{IsPaid, WasRead};
ghost use Rattle.nd_update.specs.Left.{IsLeft, entry, next, AreAllListed, hits, gone_word, is_touched, alive, hits_of, hits_in, IsHitLeaf, IsBoxed, IsNodeLeft, AreKidsLeft};
ghost use Rattle.nd_update.specs.Naming.{names_of, IsLeafRow, IsInnerRow};
ghost use Rattle.nd_update.specs.Needed.{ReadsOnly, opened};
ghost use Rattle.nd_update.specs.Removal.{staying, going, without_dominated, dropped};
ghost use Rattle.nd_update.specs.Sweeps.{Lists, Settles, Sweeps};
ghost use mathlib.Core.Option.{some};
ghost use lib.ListN.{get_elem?};

use crate::takes::take_row;
use crate::words::{read_box, read_word, write_box, write_first, write_word};
use era_core::{KINDS, MOST_ROWS, ROOT_ROWS};
use era_rows::{Pass, Rows};
use nd_rows::{FIRST_LINK, INNER, LEAF, NADIR, NdLaw, VALUE, sided, word};
use pls_vectors::Vector;

// What the words of the list say beside a row: it stands there as it did, what is left stands there, nothing is left; a leaf, or an
// inner node and how many children it has, is still to be settled.
const STAYS: u64 = 0;

const CHANGED: u64 = 1;

const GONE: u64 = 2;

const LEAVES: u64 = 3;

const INNERS: u64 = 4;

// The most points of a leaf.
const MOST_POINTS: usize = 20;

/// What is left of a tree: its root row, if any node is left, and how many points went.
#[derive(Drop)]
pub(crate) struct Left {
    pub(crate) root: Option<u32>,
    pub(crate) removed: u32,
}

// A word of the list.
fn told(what: u64, row: u32) -> u64
    requires { what < 100 }
    ensures { result ≡ what * ROOT_ROWS + row }
{
    what * ROOT_ROWS + u64::from(row)
}

// Puts the children of a node at the end of the list, in order.
fn list_links(rows: &Rows<NdLaw>, pass: &mut Pass<NdLaw>, row: u32, count: u32)
    requires building { IsBuilding rows.now pass.old }
    requires row { In row (pinned_copy (known_of pass.old)).rows }
    requires links { (links : List ℕ) × HasWords (pinned_copy (known_of pass.old)).cells row FIRST_LINK links × (length links ≡ count) }
    requires few { count ≤ 39 }
    requires room { length (work_of pass.old) + count ≤ 2 * rows.now.rows }
    ensures does { Does rows.now [] [] [] pass.old pass.new }
    ensures work { (links : List ℕ) → HasWords (pinned_copy (known_of pass.old)).cells row FIRST_LINK links → length links ≡ count → work_of pass.new ≡ work_of pass.old ++ links }
    ensures only { ReadsOnly (row ∷ []) (known_of pass.old) (known_of pass.new) }
{
    for k in 0..count {
        let link = word(rows, pass, row, FIRST_LINK + k);
        pass.work_push(link);
    }
}

// Looks at the node at place k of the list, which has points below it. Where the value weakly dominates its nadir, points below it may
// go; else its word 0 is not read.
fn list_node(rows: &Rows<NdLaw>, pass: &mut Pass<NdLaw>, k: usize, value: &Vector)
    requires building { IsBuilding rows.now pass.old }
    requires parts { length value.now ≡ rows.now.shape }
    requires node { (ns : Nodes) × (others : List ℕ) × Lists rows.now ns others pass.old × (length others ≡ k) × (0 < length (heads ns)) }
    ensures does { Does rows.now [] [] [] pass.old pass.new }
    ensures listed { (ns : Nodes) (others : List ℕ) → AreFormed rows.now.shape ns → Lists rows.now ns others pass.old → length others ≡ k → 0 < length (heads ns)
        → work_of pass.new ≡ (others ++ entry value.now ns ∷ []) ++ heads (next value.now ns) }
    ensures only { (ns : Nodes) (others : List ℕ) → Lists rows.now ns others pass.old → length others ≡ k → 0 < length (heads ns)
        → ReadsOnly (take 1 (heads ns)) (known_of pass.old) (known_of pass.new) }
{
    let row = pass.work(k) as u32;
    let side = sided(rows, pass, row, NADIR, value, true);
    if side.is_none() {
        return;
    }
    let first = word(rows, pass, row, 0);
    let count = (first / KINDS) as u32;
    if first % KINDS == LEAF {
        pass.work_set(k, told(LEAVES, row));
        return;
    }
    pass.work_set(k, told(INNERS + count as u64, row));
    list_links(rows, pass, row, count);
}

// Puts all nodes on the list that may change, each of which has points below it.
fn list_nodes(rows: &Rows<NdLaw>, pass: &mut Pass<NdLaw>, value: &Vector)
    requires building { IsBuilding rows.now pass.old }
    requires parts { length value.now ≡ rows.now.shape }
    requires tree { (t : Nodes) × AreFormed rows.now.shape t × Lists rows.now t [] pass.old }
    ensures does { Does rows.now [] [] [] pass.old pass.new }
    ensures listed { (t : Nodes) → AreFormed rows.now.shape t → Lists rows.now t [] pass.old → (n : ℕ) × AreAllListed value.now t n (work_of pass.new) }
    ensures only { (t : Nodes) → AreFormed rows.now.shape t → Lists rows.now t [] pass.old → ReadsOnly (opened value.now t) (known_of pass.old) (known_of pass.new) }
{
    for k in 0..MOST_ROWS as usize {
        if k == pass.work_len() {
            return;
        }
        list_node(rows, pass, k, value);
    }
}

// Puts all nodes of the pinned tree, whose root row is given, on the list that may change. Only a leaf without points, alone, has no
// box: it is known by the word 0 of the root, and is not looked at.
fn list_tree(rows: &Rows<NdLaw>, pass: &mut Pass<NdLaw>, root: u32, value: &Vector)
    requires building { IsBuilding rows.now pass.old }
    requires parts { length value.now ≡ rows.now.shape }
    requires tree { (t : Nodes) × IsTreeOf rows.now.shape (pinned_copy (known_of pass.old)) t }
    requires root { (pinned_copy (known_of pass.old)).root ≡ root }
    requires idle { work_of pass.old ≡ [] }
    ensures does { Does rows.now [] [] [] pass.old pass.new }
    ensures listed { (t : Nodes) → IsTreeOf rows.now.shape (pinned_copy (known_of pass.old)) t → (n : ℕ) × AreAllListed value.now t n (work_of pass.new) }
    ensures only { (t : Nodes) → IsTreeOf rows.now.shape (pinned_copy (known_of pass.old)) t → ReadsOnly (opened value.now t) (known_of pass.old) (known_of pass.new) }
{
    let first = word(rows, pass, root, 0);
    pass.work_push(root as u64);
    if first / KINDS == 0 {
        return;
    }
    list_nodes(rows, pass, value);
}

// Which points of a leaf the value weakly dominates.
fn dominated(
    rows: &Rows<NdLaw>,
    pass: &mut Pass<NdLaw>,
    row: u32,
    count: u32,
    value: &Vector,
) -> [bool; MOST_POINTS]
    requires building { IsBuilding rows.now pass.old }
    requires parts { length value.now ≡ rows.now.shape }
    requires row { In row (pinned_copy (known_of pass.old)).rows }
    requires points { (placed : List Placed) × HasPlaced rows.now.shape (pinned_copy (known_of pass.old)) row placed × (length placed ≡ count) }
    requires few { count ≤ 20 }
    ensures does { Does rows.now [] [] [] pass.old pass.new }
    ensures work { work_of pass.new ≡ work_of pass.old }
    ensures hits { (placed : List Placed) → HasPlaced rows.now.shape (pinned_copy (known_of pass.old)) row placed → length placed ≡ count → result ≡ hits_of value.now placed }
    ensures only { (placed : List Placed) → HasPlaced rows.now.shape (pinned_copy (known_of pass.old)) row placed → length placed ≡ count → ReadsOnly (row ∷ rows_with placed) (known_of pass.old) (known_of pass.new) }
{
    let mut hits = [false; MOST_POINTS];
    for k in 0..count {
        let point = word(rows, pass, row, FIRST_LINK + k);
        let side = sided(rows, pass, point as u32, VALUE, value, true);
        hits[k as usize] = side.is_some();
    }
    hits
}

// 1 where it is so.
fn one(hit: bool) -> u32
    ensures { result ≡ one_if hit }
{
    if hit { 1 } else { 0 }
}

// How many of them it does.
fn count_hits(hits: &[bool; MOST_POINTS]) -> u32
    ensures { result ≡ hits_in hits.now }
{
    let mut count = 0;
    for k in 0..MOST_POINTS {
        count += one(hits[k]);
    }
    count
}

// Copies a link into a fresh row, unless its point goes: the place of the next one.
fn copy_link(
    rows: &Rows<NdLaw>,
    pass: &mut Pass<NdLaw>,
    row: u32,
    k: u32,
    own: u32,
    place: u32,
    hit: bool,
) -> u32
    requires building { IsBuilding rows.now pass.old }
    requires row { In row (pinned_copy (known_of pass.old)).rows }
    requires own { In own (known_of pass.old).core.fresh }
    requires places { (k < 20) × (place < 20) }
    requires link { (x : ℕ) × (look_up (pinned_copy (known_of pass.old)).cells row (FIRST_LINK + k) ≡ Some x) }
    ensures does { Does rows.now [] [] (own ∷ []) pass.old pass.new }
    ensures work { work_of pass.new ≡ work_of pass.old }
    ensures links { (x : ℕ) (links : List ℕ) → look_up (pinned_copy (known_of pass.old)).cells row (FIRST_LINK + k) ≡ Some x → HasWords (known_words (known_of pass.old)) own FIRST_LINK links → length links ≡ place
        → HasWords (known_words (known_of pass.new)) own FIRST_LINK (if hit then links else links ++ x ∷ []) }
    ensures place { result ≡ (if hit then place else place + 1) }
    ensures only { ReadsOnly (row ∷ []) (known_of pass.old) (known_of pass.new) }
{
    if hit {
        return place;
    }
    let link = word(rows, pass, row, FIRST_LINK + k);
    write_word(rows, pass, own, FIRST_LINK + place, link);
    place + 1
}

// Ends the copy of a node whose links stand in a fresh row: word 0, and the box, as the row of the node has it.
fn end_copy(rows: &Rows<NdLaw>, pass: &mut Pass<NdLaw>, row: u32, own: u32, kind: u64, count: u32)
    requires building { IsBuilding rows.now pass.old }
    requires row { In row (pinned_copy (known_of pass.old)).rows }
    requires own { In own (known_of pass.old).core.fresh }
    requires kind { kind < KINDS }
    requires boxed { (b : Box) × IsBoxed rows.now.shape (pinned_copy (known_of pass.old)) row b }
    ensures does { Does rows.now [] [] (own ∷ []) pass.old pass.new }
    ensures work { work_of pass.new ≡ work_of pass.old }
    ensures read { 0 < rows.now.shape → WasRead row (known_of pass.new) }
    ensures links { (links : List ℕ) → HasWords (known_words (known_of pass.old)) own FIRST_LINK links → count ≡ length links → length links ≤ 20
        → IsLinkRow (known_words (known_of pass.new)) kind own links }
    ensures boxed { (b : Box) → IsBoxed rows.now.shape (pinned_copy (known_of pass.old)) row b → IsBoxRow rows.now.shape (known_words (known_of pass.new)) own b }
    ensures only { ReadsOnly (row ∷ []) (known_of pass.old) (known_of pass.new) }
{
    write_first(rows, pass, own, kind, count);
    let range = read_box(rows, pass, row);
    write_box(rows, pass, own, &range);
}

// Copies the links to the points that stay, and the box, into a fresh row.
fn copy_leaf(
    rows: &Rows<NdLaw>,
    pass: &mut Pass<NdLaw>,
    row: u32,
    count: u32,
    hits: &[bool; MOST_POINTS],
    own: u32,
)
    requires building { IsBuilding rows.now pass.old }
    requires row { In row (pinned_copy (known_of pass.old)).rows }
    requires own { In own (known_of pass.old).core.fresh }
    requires leaf { (v : List ℤ) × (b : Box) × (placed : List Placed) × IsHitLeaf rows.now.shape (pinned_copy (known_of pass.old)) row count hits.now v b placed }
    ensures does { Does rows.now [] [] (own ∷ []) pass.old pass.new }
    ensures work { work_of pass.new ≡ work_of pass.old }
    ensures leaf { (v : List ℤ) (b : Box) (placed : List Placed) → IsHitLeaf rows.now.shape (pinned_copy (known_of pass.old)) row count hits.now v b placed
        → IsLeafRow rows.now.shape (known_words (known_of pass.new)) own b (staying v placed) }
    ensures only { ReadsOnly (row ∷ []) (known_of pass.old) (known_of pass.new) }
{
    let mut place = 0;
    for k in 0..count {
        place = copy_link(rows, pass, row, k, own, place, hits[k as usize]);
    }
    end_copy(rows, pass, row, own, LEAF, place);
}

// Marks a point, if it goes.
fn mark_link(rows: &Rows<NdLaw>, pass: &mut Pass<NdLaw>, row: u32, k: u32, hit: bool)
    requires building { IsBuilding rows.now pass.old }
    requires row { In row (pinned_copy (known_of pass.old)).rows }
    requires place { k < 20 }
    requires link { (x : ℕ) × (look_up (pinned_copy (known_of pass.old)).cells row (FIRST_LINK + k) ≡ Some x) × In x (pinned_copy (known_of pass.old)).rows × (times x (marked_of pass.old) ≡ 0) }
    ensures does { (x : ℕ) → look_up (pinned_copy (known_of pass.old)).cells row (FIRST_LINK + k) ≡ Some x → Does rows.now [] (if hit then x ∷ [] else []) [] pass.old pass.new }
    ensures work { work_of pass.new ≡ work_of pass.old }
    ensures only { ReadsOnly (row ∷ []) (known_of pass.old) (known_of pass.new) }
{
    if !hit {
        return;
    }
    let link = word(rows, pass, row, FIRST_LINK + k);
    rows.mark(pass, link as u32);
}

// Marks a leaf and its points that go.
fn mark_leaf(
    rows: &Rows<NdLaw>,
    pass: &mut Pass<NdLaw>,
    row: u32,
    count: u32,
    hits: &[bool; MOST_POINTS],
)
    requires building { IsBuilding rows.now pass.old }
    requires row { In row (pinned_copy (known_of pass.old)).rows }
    requires leaf { (v : List ℤ) × (b : Box) × (placed : List Placed) × IsHitLeaf rows.now.shape (pinned_copy (known_of pass.old)) row count hits.now v b placed
        × ((x : ℕ) → times x (marked_of pass.old) + times x (row ∷ rows_with placed) ≤ 1) }
    ensures does { (v : List ℤ) (b : Box) (placed : List Placed) → IsHitLeaf rows.now.shape (pinned_copy (known_of pass.old)) row count hits.now v b placed
        → Does rows.now [] (row ∷ rows_with (going v placed)) [] pass.old pass.new }
    ensures work { work_of pass.new ≡ work_of pass.old }
    ensures only { ReadsOnly (row ∷ []) (known_of pass.old) (known_of pass.new) }
{
    rows.mark(pass, row);
    for k in 0..count {
        mark_link(rows, pass, row, k, hits[k as usize]);
    }
}

// What is left of a leaf some of whose points go, as a word of the list.
fn left_of_leaf(
    rows: &Rows<NdLaw>,
    pass: &mut Pass<NdLaw>,
    row: u32,
    count: u32,
    hits: &[bool; MOST_POINTS],
    hit: u32,
) -> Option<u64>
    requires building { IsBuilding rows.now pass.old }
    requires pinned { (n p : ℕ) × ((known_of pass.old).core.pinned ≡ Some (n, p)) }
    requires row { In row (pinned_copy (known_of pass.old)).rows }
    requires leaf { (v : List ℤ) × (b : Box) × (placed : List Placed) × IsHitLeaf rows.now.shape (pinned_copy (known_of pass.old)) row count hits.now v b placed }
    requires hit { (hit ≡ hits_in hits.now) × (0 < hit) }
    requires paid { IsPaid 0 (known_of pass.old) (marked_of pass.old) }
    ensures lacks { result ≡ None → Lacks rows.now pass.old pass.new }
    ensures does { IfSome result (λ _. (taken : List ℕ) × (length taken ≤ 1) × Does rows.now taken [] taken pass.old pass.new) }
    ensures work { work_of pass.new ≡ work_of pass.old }
    ensures left { IfSome result (λ w. (v : List ℤ) (b : Box) (placed : List Placed) → IsHitLeaf rows.now.shape (pinned_copy (known_of pass.old)) row count hits.now v b placed
        → (taken : List ℕ) × Does rows.now taken [] taken pass.old pass.new
        × IsNodeLeft rows.now.rows v rows.now.shape (leaf row b placed no_nodes) (known_words (known_of pass.new)) taken (row ∷ rows_with (going v placed)) hit w) }
    ensures only { ReadsOnly (row ∷ []) (known_of pass.old) (known_of pass.new) }
{
    if hit == count {
        return Some(told(GONE, 0));
    }
    let own = take_row(rows, pass)?;
    copy_leaf(rows, pass, row, count, hits, own);
    Some(told(CHANGED, own))
}

// Settles the leaf at place k of the list: how many of its points go. None where no row is free.
fn settle_leaf(
    rows: &Rows<NdLaw>,
    pass: &mut Pass<NdLaw>,
    k: usize,
    row: u32,
    value: &Vector,
) -> Option<u32>
    requires building { IsBuilding rows.now pass.old }
    requires pinned { (n p : ℕ) × ((known_of pass.old).core.pinned ≡ Some (n, p)) }
    requires parts { length value.now ≡ rows.now.shape }
    requires leaf { (b : Box) × (placed : List Placed) × (later : Nodes) × (others : List ℕ) × (removed : ℕ)
        × Settles rows.now value.now (leaf row b placed later) others pass.old removed × (length others ≡ k) × (0 < length placed) }
    requires paid { IsPaid 0 (known_of pass.old) (marked_of pass.old) }
    ensures lacks { result ≡ None → Lacks rows.now pass.old pass.new }
    ensures does { IfSome result (λ _. (taken marked : List ℕ) × Does rows.now taken marked taken pass.old pass.new) }
    ensures paid { IfSome result (λ _. IsPaid 0 (known_of pass.new) (marked_of pass.new)) }
    ensures settled { IfSome result (λ more. (b : Box) (placed : List Placed) (later : Nodes) (others : List ℕ) (removed : ℕ)
        → Settles rows.now value.now (leaf row b placed later) others pass.old removed → length others ≡ k → 0 < length placed
        → Sweeps rows.now value.now (leaf row b placed later) others pass.new (removed + more)) }
    ensures only { (b : Box) (placed : List Placed) (later : Nodes) (others : List ℕ) (removed : ℕ)
        → Settles rows.now value.now (leaf row b placed later) others pass.old removed → length others ≡ k → 0 < length placed
        → ReadsOnly (row ∷ rows_with placed) (known_of pass.old) (known_of pass.new) }
{
    let count = (read_word(rows, pass, row, 0) / KINDS) as u32;
    let hits = dominated(rows, pass, row, count, value);
    let hit = count_hits(&hits);
    if hit == 0 {
        pass.work_set(k, told(STAYS, row));
        return Some(0);
    }
    let left = left_of_leaf(rows, pass, row, count, &hits, hit)?;
    mark_leaf(rows, pass, row, count, &hits);
    pass.work_set(k, left);
    Some(hit)
}

// Whether one of the nodes on the list from a place on has changed or is gone.
fn is_changed(pass: &Pass<NdLaw>, from: usize) -> bool
    requires { from ≤ length (work_of pass.now) }
    ensures { result ≡ is_touched (drop from (work_of pass.now)) }
{
    for k in from..pass.work_len() {
        if pass.work(k) >= ROOT_ROWS {
            return true;
        }
    }
    false
}

// How many of them are left.
fn count_left(pass: &Pass<NdLaw>, from: usize) -> u32
    requires from { from ≤ length (work_of pass.now) }
    requires few { length (work_of pass.now) ≤ from + 20 }
    ensures { result ≡ length (alive (drop from (work_of pass.now))) }
{
    let mut count = 0;
    for k in from..pass.work_len() {
        count += one(pass.work(k) < GONE * ROOT_ROWS);
    }
    count
}

// The row of the first of them that is left.
fn first_left(pass: &Pass<NdLaw>, from: usize) -> u32
    requires from { from ≤ length (work_of pass.now) }
    requires some { 0 < length (alive (drop from (work_of pass.now))) }
    ensures { (x : ℕ) (xs : List ℕ) → alive (drop from (work_of pass.now)) ≡ x ∷ xs → result ≡ x }
{
    for k in from..pass.work_len() {
        let found = pass.work(k);
        if found < GONE * ROOT_ROWS {
            return (found % ROOT_ROWS) as u32;
        }
    }
    unreachable!()
}

// Writes the link to a child into a fresh row, if its word tells that it is left: the place of the next one.
fn copy_child(rows: &Rows<NdLaw>, pass: &mut Pass<NdLaw>, own: u32, place: u32, found: u64) -> u32
    requires building { IsBuilding rows.now pass.old }
    requires own { In own (known_of pass.old).core.fresh }
    requires place { place < 20 }
    ensures does { Does rows.now [] [] (own ∷ []) pass.old pass.new }
    ensures work { work_of pass.new ≡ work_of pass.old }
    ensures links { (links : List ℕ) → HasWords (known_words (known_of pass.old)) own FIRST_LINK links → length links ≡ place
        → HasWords (known_words (known_of pass.new)) own FIRST_LINK (links ++ alive (found ∷ [])) }
    ensures place { result ≡ place + length (alive (found ∷ [])) }
    ensures only { ReadsOnly [] (known_of pass.old) (known_of pass.new) }
{
    if found >= GONE * ROOT_ROWS {
        return place;
    }
    write_word(rows, pass, own, FIRST_LINK + place, found % ROOT_ROWS);
    place + 1
}

// Writes the links to the children that are left, and the box, into a fresh row.
fn copy_inner(rows: &Rows<NdLaw>, pass: &mut Pass<NdLaw>, row: u32, from: usize, own: u32)
    requires building { IsBuilding rows.now pass.old }
    requires row { In row (pinned_copy (known_of pass.old)).rows }
    requires own { In own (known_of pass.old).core.fresh }
    requires from { from ≤ length (work_of pass.old) }
    requires few { length (work_of pass.old) ≤ from + 20 }
    requires boxed { (b : Box) × IsBoxed rows.now.shape (pinned_copy (known_of pass.old)) row b }
    ensures does { Does rows.now [] [] (own ∷ []) pass.old pass.new }
    ensures work { work_of pass.new ≡ work_of pass.old }
    ensures read { WasRead row (known_of pass.new) }
    ensures inner { (b : Box) (named : Nodes) → IsBoxed rows.now.shape (pinned_copy (known_of pass.old)) row b → alive (drop from (work_of pass.old)) ≡ heads named
        → IsInnerRow rows.now.shape (known_words (known_of pass.new)) own b named }
    ensures only { ReadsOnly (row ∷ []) (known_of pass.old) (known_of pass.new) }
{
    let mut place = 0;
    for k in from..pass.work_len() {
        place = copy_child(rows, pass, own, place, pass.work(k));
    }
    end_copy(rows, pass, row, own, INNER, place);
}

// What is left of an inner node some of whose children, which are on the list from a place on, changed.
fn left_of_inner(rows: &Rows<NdLaw>, pass: &mut Pass<NdLaw>, row: u32, from: usize) -> Option<u64>
    requires building { IsBuilding rows.now pass.old }
    requires pinned { (n p : ℕ) × ((known_of pass.old).core.pinned ≡ Some (n, p)) }
    requires row { In row (pinned_copy (known_of pass.old)).rows }
    requires from { from ≤ length (work_of pass.old) }
    requires few { length (work_of pass.old) ≤ from + 20 }
    requires kids { (v : List ℤ) × (b : Box) × (kids named : Nodes) × IsBoxed rows.now.shape (pinned_copy (known_of pass.old)) row b
        × AreKidsLeft rows.now.rows v rows.now.shape (drop from (work_of pass.old)) kids named (known_words (known_of pass.old)) (known_of pass.old).core.fresh }
    requires paid { IsPaid 0 (known_of pass.old) (marked_of pass.old) }
    ensures lacks { result ≡ None → Lacks rows.now pass.old pass.new }
    ensures does { IfSome result (λ _. (taken : List ℕ) × (length taken ≤ 1) × (0 < length taken → WasRead row (known_of pass.new)) × Does rows.now taken [] taken pass.old pass.new) }
    ensures work { work_of pass.new ≡ work_of pass.old }
    ensures left { IfSome result (λ w. (v : List ℤ) (b : Box) (kids named : Nodes) → IsBoxed rows.now.shape (pinned_copy (known_of pass.old)) row b
        → AreKidsLeft rows.now.rows v rows.now.shape (drop from (work_of pass.old)) kids named (known_words (known_of pass.old)) (known_of pass.old).core.fresh
        → (taken : List ℕ) × Does rows.now taken [] taken pass.old pass.new
        × IsNodeLeft rows.now.rows v rows.now.shape (inner row b kids no_nodes) (known_words (known_of pass.new)) (names_of rows.now.rows (without_dominated rows.now.rows v kids) named ++ taken) (row ∷ dropped v kids) (hits v (points_of kids)) w) }
    ensures only { ReadsOnly (row ∷ []) (known_of pass.old) (known_of pass.new) }
{
    let count = count_left(pass, from);
    if count == 0 {
        return Some(told(GONE, 0));
    }
    if count == 1 {
        return Some(told(CHANGED, first_left(pass, from)));
    }
    let own = take_row(rows, pass)?;
    copy_inner(rows, pass, row, from, own);
    Some(told(CHANGED, own))
}

// Settles the inner node at place k of the list, whose children are the last ones on it and leave it. None where no row is free.
fn settle_inner(
    rows: &Rows<NdLaw>,
    pass: &mut Pass<NdLaw>,
    k: usize,
    row: u32,
    count: u32,
) -> Option<()>
    requires building { IsBuilding rows.now pass.old }
    requires pinned { (n p : ℕ) × ((known_of pass.old).core.pinned ≡ Some (n, p)) }
    requires node { (v : List ℤ) × (b : Box) × (kids later : Nodes) × (others : List ℕ) × (removed : ℕ)
        × Settles rows.now v (inner row b kids later) others pass.old removed × (length others ≡ k) × (weakly_dominates v b.nadir ≡ true) × (length (heads kids) ≡ count) }
    requires paid { IsPaid 0 (known_of pass.old) (marked_of pass.old) }
    ensures lacks { result ≡ None → Lacks rows.now pass.old pass.new }
    ensures does { IfSome result (λ _. (taken marked : List ℕ) × Does rows.now taken marked taken pass.old pass.new) }
    ensures paid { IfSome result (λ _. IsPaid 0 (known_of pass.new) (marked_of pass.new)) }
    ensures settled { IfSome result (λ _. (v : List ℤ) (b : Box) (kids later : Nodes) (others : List ℕ) (removed : ℕ)
        → Settles rows.now v (inner row b kids later) others pass.old removed → length others ≡ k → weakly_dominates v b.nadir ≡ true → length (heads kids) ≡ count
        → Sweeps rows.now v (inner row b kids later) others pass.new removed) }
    ensures only { ReadsOnly (row ∷ []) (known_of pass.old) (known_of pass.new) }
{
    let from = pass.work_len() - count as usize;
    if !is_changed(pass, from) {
        pass.work_cut(from);
        pass.work_set(k, told(STAYS, row));
        return Some(());
    }
    let left = left_of_inner(rows, pass, row, from)?;
    rows.mark(pass, row);
    pass.work_cut(from);
    pass.work_set(k, left);
    Some(())
}

// Settles the node at place k of the list, after all behind it: how many of its own points go. None where no row is free.
fn settle(rows: &Rows<NdLaw>, pass: &mut Pass<NdLaw>, k: usize, value: &Vector) -> Option<u32>
    requires building { IsBuilding rows.now pass.old }
    requires pinned { (n p : ℕ) × ((known_of pass.old).core.pinned ≡ Some (n, p)) }
    requires parts { length value.now ≡ rows.now.shape }
    requires node { (ns : Nodes) × (others : List ℕ) × (removed : ℕ) × Settles rows.now value.now ns others pass.old removed × (length others ≡ k) }
    requires paid { IsPaid 0 (known_of pass.old) (marked_of pass.old) }
    ensures lacks { result ≡ None → Lacks rows.now pass.old pass.new }
    ensures does { IfSome result (λ _. (taken marked : List ℕ) × Does rows.now taken marked taken pass.old pass.new) }
    ensures paid { IfSome result (λ _. IsPaid 0 (known_of pass.new) (marked_of pass.new)) }
    ensures settled { IfSome result (λ more. (ns : Nodes) (others : List ℕ) (removed : ℕ)
        → Settles rows.now value.now ns others pass.old removed → length others ≡ k
        → Sweeps rows.now value.now ns others pass.new (removed + more)) }
    ensures only { (ns : Nodes) (others : List ℕ) (removed : ℕ) → Settles rows.now value.now ns others pass.old removed → length others ≡ k
        → ReadsOnly (opened value.now ns) (known_of pass.old) (known_of pass.new) }
{
    let found = pass.work(k);
    let row = (found % ROOT_ROWS) as u32;
    let what = found / ROOT_ROWS;
    if what == STAYS {
        return Some(0);
    }
    if what == LEAVES {
        return settle_leaf(rows, pass, k, row, value);
    }
    settle_inner(rows, pass, k, row, (what - INNERS) as u32)?;
    Some(0)
}

// Settles all nodes of the list from its end: how many points go. None where no row is free.
fn settle_all(rows: &Rows<NdLaw>, pass: &mut Pass<NdLaw>, value: &Vector) -> Option<u32>
    requires building { IsBuilding rows.now pass.old }
    requires pinned { (n p : ℕ) × ((known_of pass.old).core.pinned ≡ Some (n, p)) }
    requires parts { length value.now ≡ rows.now.shape }
    requires listed { (t : Nodes) × (n : ℕ) × IsTreeOf rows.now.shape (pinned_copy (known_of pass.old)) t × AreAllListed value.now t n (work_of pass.old) }
    requires no_fresh { (known_of pass.old).core.fresh ≡ [] }
    requires no_marks { marked_of pass.old ≡ [] }
    ensures lacks { result ≡ None → Lacks rows.now pass.old pass.new }
    ensures does { IfSome result (λ _. (taken marked : List ℕ) × Does rows.now taken marked taken pass.old pass.new) }
    ensures paid { IfSome result (λ _. IsPaid 0 (known_of pass.new) (marked_of pass.new)) }
    ensures swept { IfSome result (λ removed. (t : Nodes) (n : ℕ) → IsTreeOf rows.now.shape (pinned_copy (known_of pass.old)) t → AreAllListed value.now t n (work_of pass.old)
        → Sweeps rows.now value.now t [] pass.new removed) }
    ensures only { (t : Nodes) (n : ℕ) → IsTreeOf rows.now.shape (pinned_copy (known_of pass.old)) t → AreAllListed value.now t n (work_of pass.old)
        → ReadsOnly (opened value.now t) (known_of pass.old) (known_of pass.new) }
{
    let len = pass.work_len();
    let mut removed = 0;
    for settled in 0..len {
        removed += settle(rows, pass, len - 1 - settled, value)?;
    }
    Some(removed)
}

// The root row that the only word of the list tells.
fn root_left(pass: &Pass<NdLaw>) -> Option<u32>
    requires { 0 < length (work_of pass.now) }
    ensures { (w : ℕ) → get_elem? (work_of pass.now) 0 ≡ some w → result ≡ (if nat_lt w gone_word then Some (w % ROOT_ROWS) else None) }
{
    let found = pass.work(0);
    if found < GONE * ROOT_ROWS {
        Some((found % ROOT_ROWS) as u32)
    } else {
        None
    }
}

// What is left, by the only word of the list, where so many points went.
fn all_left(pass: &Pass<NdLaw>, removed: Option<u32>) -> Option<Left>
    requires { IfSome removed (λ _. 0 < length (work_of pass.now)) }
    ensures none { result ≡ None → removed ≡ None }
    ensures left { IfSome result (λ l. (removed ≡ Some l.removed) × ((w : ℕ) → get_elem? (work_of pass.now) 0 ≡ some w → l.root ≡ (if nat_lt w gone_word then Some (w % ROOT_ROWS) else None))) }
{
    let removed = removed?;
    let root = root_left(pass);
    Some(Left { root, removed })
}

/// What is left of the pinned tree, whose root row is given, without the points that the value weakly dominates. The nodes that
/// changed are written into fresh rows, and the rows that go are marked. None where no row is free, of which the pass then keeps an
/// evidence.
pub(crate) fn remove(
    rows: &Rows<NdLaw>,
    pass: &mut Pass<NdLaw>,
    root: u32,
    value: &Vector,
) -> Option<Left>
    requires building { IsBuilding rows.now pass.old }
    requires pinned { (n p : ℕ) × ((known_of pass.old).core.pinned ≡ Some (n, p)) }
    requires tree { (t : Nodes) × IsTreeOf rows.now.shape (pinned_copy (known_of pass.old)) t }
    requires root { (pinned_copy (known_of pass.old)).root ≡ root }
    requires parts { length value.now ≡ rows.now.shape }
    requires no_fresh { (known_of pass.old).core.fresh ≡ [] }
    requires no_marks { marked_of pass.old ≡ [] }
    requires idle { work_of pass.old ≡ [] }
    ensures lacks { result ≡ None → Lacks rows.now pass.old pass.new }
    ensures does { IfSome result (λ _. (taken marked : List ℕ) × Does rows.now taken marked taken pass.old pass.new) }
    ensures paid { IfSome result (λ _. IsPaid 0 (known_of pass.new) (marked_of pass.new)) }
    ensures work { work_of pass.new ≡ [] }
    ensures left { IfSome result (λ l. (t : Nodes) → IsTreeOf rows.now.shape (pinned_copy (known_of pass.old)) t
        → IsLeft rows.now.rows value.now rows.now.shape t (known_words (known_of pass.new)) (known_of pass.new).core.fresh (marked_of pass.new) l.root l.removed) }
    ensures only { (t : Nodes) → IsTreeOf rows.now.shape (pinned_copy (known_of pass.old)) t → ReadsOnly (opened value.now t) (known_of pass.old) (known_of pass.new) }
{
    list_tree(rows, pass, root, value);
    let removed = settle_all(rows, pass, value);
    let left = all_left(pass, removed);
    pass.work_cut(0);
    left
}
