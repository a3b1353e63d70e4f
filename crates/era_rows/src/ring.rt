//! The retired rows of a pass: a ring of words, each a version and a row, in the order of the versions.
ghost use Rattle.std.specs.Prelude.{◌≡◌, ℕ, ◌+◌, ◌<◌, ◌≤◌, [], ◌++◌, map, length, vec_capacity};
ghost use Rattle.std.specs.VecDeque.{deque_capacity};
ghost use Rattle.era_core.specs.Lists.{times, In};
ghost use Rattle.era_rows.specs.Held.{rows_at};
ghost use Rattle.era_rows.specs.Ring.{pairs_in, AreInOrder, is_first_clear, is_own_next};

use era_core::{LAST_VERSION, ROOT_ROWS, is_clear, packed};
use std::collections::VecDeque;

/// Whether there is a retired row, and no reservation blocks the one that waits longest, where this is the least version that
/// one names.
pub(crate) fn is_oldest_clear(retired: &VecDeque<u64>, least: Option<u64>) -> bool
    ensures { result ≡ is_first_clear least (pairs_in retired.now.items) }
{
    match retired.front() {
        None => false,
        Some(word) => is_clear(least, *word / ROOT_ROWS),
    }
}

/// Retires the marked rows at a version.
pub(crate) fn retire(retired: &mut VecDeque<u64>, marked: &mut Vec<u32>, version: u64)
    requires version { version ≤ LAST_VERSION }
    requires rows { (r : ℕ) → In r marked.old.items → r < ROOT_ROWS }
    requires room { length retired.old.items + length marked.old.items ≤ deque_capacity retired.old }
    ensures retired { pairs_in retired.new.items ≡ pairs_in retired.old.items ++ map (λ x. (version, x)) marked.old.items }
    ensures marked { marked.new.items ≡ [] }
    ensures retired_capacity { deque_capacity retired.new ≡ deque_capacity retired.old }
    ensures marked_capacity { vec_capacity marked.new ≡ vec_capacity marked.old }
{
    for i in 0..marked.len() {
        retired.push_back_reserved(packed(version, marked[i]));
    }
    marked.clear();
}

// Whether the first of these words, of which so many are still to come, comes before the first of the others.
fn is_own_first(words: &VecDeque<u64>, left: usize, more: &VecDeque<u64>) -> bool
    requires { left ≤ length words.now.items }
    ensures { result ≡ is_own_next left words.now.items more.now.items }
{
    match more.front() {
        None => true,
        Some(other) => left > 0 && words[0] / ROOT_ROWS <= *other / ROOT_ROWS,
    }
}

/// Merges more retired rows into these, in the order of their versions.
pub(crate) fn merge(retired: &mut VecDeque<u64>, mut more: VecDeque<u64>)
    requires room { length retired.old.items + length more.items ≤ deque_capacity retired.old }
    requires in_order { AreInOrder (pairs_in retired.old.items) × AreInOrder (pairs_in more.items) }
    ensures in_order { AreInOrder (pairs_in retired.new.items) }
    ensures all { (n x : ℕ) → times x (rows_at n (pairs_in retired.new.items)) ≡ times x (rows_at n (pairs_in retired.old.items)) + times x (rows_at n (pairs_in more.items)) }
    ensures capacity { deque_capacity retired.new ≡ deque_capacity retired.old }
{
    let mut left = retired.len();
    while left > 0 || !more.is_empty() {
        let first = if is_own_first(retired, left, &more) {
            left -= 1;
            retired.pop_front()
        } else {
            more.pop_front()
        };
        let Some(word) = first else { unreachable!() };
        retired.push_back_reserved(word);
    }
}
