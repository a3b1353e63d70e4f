//! Walks of a tree of rows, each over a stack of the rows still to come with the levels that are left below them.

ghost use Rattle.std.specs.Prelude.{◌≡◌, ℕ, ◌-◌, ◌/◌, ◌^◌, ◌<◌, ◌≤◌, true, false, ◌&&◌, ◌==◌, min, nat_lt, nat_le, if◌then◌else◌, [], ◌++◌, map, reverse, length, is_some, slice_index_or, IfOk, OnOk, IfSome};
ghost use Rattle.std.specs.List.{list_all};
ghost use Rattle.era_core.specs.Lists.{In, is_in, all_different};
ghost use Rattle.era_core.specs.Words.{words_len, cell, links, tree_at};
ghost use Rattle.era_core.specs.Machine.{are_linked, is_new_tree};

mod marks;

use crate::sizes::{KINDS, MOST_LINKS, MOST_ROWS, WIDTH};
pub(crate) use marks::{mark, rows_without};
use std::alloc::{AllocError, Global};

// The word of a row at a place.
fn word_at(words: &[u64], passes: u32, rows: u32, row: u32, place: u32) -> u64
    requires long { length words.now ≡ words_len passes rows }
    requires row_in_range { row < rows }
    requires place_in_range { place < WIDTH }
    ensures { result ≡ cell passes rows words.now row place }
{
    let first = 1 + passes as usize + rows as usize + WIDTH as usize * row as usize;
    words[first + place as usize]
}

// How many links the row has, as many as it has room for at most.
fn links_len(words: &[u64], passes: u32, rows: u32, row: u32) -> u32
    requires long { length words.now ≡ words_len passes rows }
    requires row_in_range { row < rows }
    ensures { result ≡ min MOST_LINKS (cell passes rows words.now row 0 / KINDS) }
{
    (word_at(words, passes, rows, row, 0) / KINDS).min(u64::from(MOST_LINKS)) as u32
}

// Puts the links of a row onto the stack, the first on top, each with one level less than the row has left.
fn push_links(
    todo: &mut Vec<(u32, u32)>,
    words: &[u64],
    passes: u32,
    rows: u32,
    row: u32,
    levels: u32,
) -> Result<(), AllocError>
    requires long { length words.now ≡ words_len passes rows }
    requires row_in_range { row < rows }
    requires links_in_range { 0 < levels → (y : ℕ) → In y (links passes rows words.now row) → y < 2 ^ 32 }
    ensures { OnOk result (todo.new.items ≡ todo.old.items ++ (if levels == 0 then [] else reverse (map (λ y. (y, levels - 1)) (links passes rows words.now row)))) }
{
    if levels == 0 {
        return Ok(());
    }
    let mut place = links_len(words, passes, rows, row);
    while place > 0 {
        todo.push((word_at(words, passes, rows, row, place) as u32, levels - 1))?;
        place -= 1;
    }
    Ok(())
}

/// The rows of the tree at a row, each before its links and links in order.
pub(crate) fn tree_rows(
    alloc: Global,
    words: &[u64],
    passes: u32,
    rows: u32,
    root: u32,
) -> Result<Vec<u32>, AllocError>
    requires long { length words.now ≡ words_len passes rows }
    requires few_rows { rows ≤ MOST_ROWS }
    requires in_range { (x : ℕ) → In x (tree_at passes rows words.now root) → x < rows }
    ensures { IfOk result (λ found. found.items ≡ tree_at passes rows words.now root) }
{
    let mut found = Vec::new(alloc);
    let mut todo = Vec::new(alloc);
    todo.push((root, rows))?;
    while let Some((row, levels)) = todo.pop() {
        found.push(row)?;
        push_links(&mut todo, words, passes, rows, row, levels)?;
    }
    Ok(found)
}

/// Whether a row stands in the tree at another: the walk stops where it is found.
pub(crate) fn stands_in_tree(
    alloc: Global,
    words: &[u64],
    passes: u32,
    rows: u32,
    root: u32,
    wanted: u32,
) -> Result<bool, AllocError>
    requires long { length words.now ≡ words_len passes rows }
    requires few_rows { rows ≤ MOST_ROWS }
    requires in_range { (x : ℕ) → In x (tree_at passes rows words.now root) → x < rows }
    ensures { IfOk result (λ found. found ≡ is_in wanted (tree_at passes rows words.now root)) }
{
    let mut todo = Vec::new(alloc);
    todo.push((root, rows))?;
    while let Some((row, levels)) = todo.pop() {
        if row == wanted {
            return Ok(true);
        }
        push_links(&mut todo, words, passes, rows, row, levels)?;
    }
    Ok(false)
}

// Whether the row claims no more links than it has words for, and each link is a row.
fn is_linked(words: &[u64], passes: u32, rows: u32, row: u32) -> bool
    requires long { length words.now ≡ words_len passes rows }
    requires row_in_range { row < rows }
    ensures { result ≡ (nat_le (cell passes rows words.now row 0 / KINDS) MOST_LINKS && list_all (λ y. nat_lt y rows) (links passes rows words.now row)) }
{
    if word_at(words, passes, rows, row, 0) / KINDS > u64::from(MOST_LINKS) {
        return false;
    }
    let count = links_len(words, passes, rows, row);
    for place in 1..count + 1 {
        if word_at(words, passes, rows, row, place) >= u64::from(rows) {
            return false;
        }
    }
    true
}

// Whether the row has a mark and its links are in order.
fn may_come(words: &[u64], passes: u32, rows: u32, row: u32, marks: &[bool]) -> bool
    requires long { length words.now ≡ words_len passes rows }
    requires marks_len { length marks.now ≡ rows }
    ensures come { result ≡ (slice_index_or marks.now row false && (nat_le (cell passes rows words.now row 0 / KINDS) MOST_LINKS && list_all (λ y. nat_lt y rows) (links passes rows words.now row))) }
    ensures in_range { result ≡ true → row < rows }
{
    row < rows && marks[row as usize] && is_linked(words, passes, rows, row)
}

// The rows of the tree at a row, where each of them has a mark, none comes twice, and their links are in order. A row
// that comes loses its mark, and the walk stops at the first row that has none.
fn marked_tree(
    alloc: Global,
    words: &[u64],
    passes: u32,
    rows: u32,
    root: u32,
    marks: &mut [bool],
) -> Result<Option<Vec<u32>>, AllocError>
    requires long { length words.now ≡ words_len passes rows }
    requires few_rows { rows ≤ MOST_ROWS }
    requires marks_len { length marks.old ≡ rows }
    ensures found { IfOk result (λ o. IfSome o (λ found. found.items ≡ tree_at passes rows words.now root)) }
    ensures allowed { IfOk result (λ o. is_some o ≡ (are_linked passes rows words.now (tree_at passes rows words.now root) && all_different (tree_at passes rows words.now root) && list_all (λ x. slice_index_or marks.old x false) (tree_at passes rows words.now root))) }
    ensures lost { (x : ℕ) → slice_index_or marks.old x false ≡ false → slice_index_or marks.new x false ≡ false }
{
    let mut found = Vec::new(alloc);
    let mut todo = Vec::new(alloc);
    todo.push((root, rows))?;
    while let Some((row, levels)) = todo.pop() {
        if !may_come(words, passes, rows, row, marks) {
            return Ok(None);
        }
        marks[row as usize] = false;
        found.push(row)?;
        push_links(&mut todo, words, passes, rows, row, levels)?;
    }
    Ok(Some(found))
}

/// The rows of the tree at a row, where it may be published: each row is fresh or in the old tree, none comes twice,
/// none claims more links than it has words for, and each link is a row. Else `None`: the walk stops at the first row
/// that breaks this. All marks are clear before and after, also where memory runs out.
pub(crate) fn new_tree(
    alloc: Global,
    words: &[u64],
    passes: u32,
    rows: u32,
    root: u32,
    fresh: &[u32],
    old: &[u32],
    marks: &mut [bool],
) -> Result<Option<Vec<u32>>, AllocError>
    requires long { length words.now ≡ words_len passes rows }
    requires few_rows { rows ≤ MOST_ROWS }
    requires marks_len { length marks.old ≡ rows }
    requires fresh_in_range { (x : ℕ) → In x fresh.now → x < rows }
    requires old_in_range { (x : ℕ) → In x old.now → x < rows }
    requires clear { (x : ℕ) → slice_index_or marks.old x false ≡ false }
    ensures found { IfOk result (λ o. IfSome o (λ found. found.items ≡ tree_at passes rows words.now root)) }
    ensures allowed { IfOk result (λ o. is_some o ≡ is_new_tree passes rows words.now fresh.now old.now (tree_at passes rows words.now root)) }
    ensures clear { (x : ℕ) → slice_index_or marks.new x false ≡ false }
{
    mark(marks, fresh, true);
    mark(marks, old, true);
    let found = marked_tree(alloc, words, passes, rows, root, marks);
    mark(marks, fresh, false);
    mark(marks, old, false);
    found
}
