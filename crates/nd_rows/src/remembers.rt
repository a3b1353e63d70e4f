//! The values of submitted points that a pass remembers.
ghost use Rattle.std.specs.List.{list_any};
ghost use Rattle.std.specs.Prelude.{◌≡◌, ℤ, ◌<◌, ◌%◌, ◌^◌, nat_le, nat_lt, true, Some, List, [], ◌∷◌, length, slice_set};
ghost use Rattle.era_core.specs.Lists.{In};
ghost use Rattle.era_rows.specs.Known.{pinned_copy};
ghost use Rattle.era_rows.specs.declared.memory.TheConstants.{MEMORY_PLACES};
ghost use Rattle.era_rows.specs.Passes.{known_of, knows_of, seen_of, marked_of, work_of, memory_of, IsPassOf};
ghost use Rattle.pls_archive.specs.declared.call.Call.TheVariants.{Member};
ghost use Rattle.pls_archive.specs.declared.call.Reply.TheVariants.{No};
ghost use Rattle.pls_archive.specs.declared.point.Point.{Point};
ghost use Rattle.pls_archive.specs.Lists as lists;
ghost use Rattle.pls_archive.specs.History.{submissions};
ghost use Rattle.pls_archive.specs.Reply.{has_value, nondominated, some_weakly_dominates};
ghost use Rattle.pls_vectors.specs.Dominance.{IsValue};
ghost use Rattle.nd_rows.specs.Entries.{memory_words, held_covers, held_dominates, held_meets, recalls_value, recalls_dominating};
ghost use Rattle.nd_rows.specs.Layout.{HasPoint};
ghost use Rattle.nd_rows.specs.Reads.{ReadsIn, HasKept};
ghost use mathlib.Core.Option.{some};
ghost use lib.ListN.{get_elem?};

use crate::law::NdLaw;
use crate::points::read_value;
use crate::reads::part_word;
use era_rows::{MEMORY_PLACES, MEMORY_WORDS, Pass, Rows};
use pls_vectors::Vector;

// The words of the parts of a value, and 0 at each place past them.
fn words_of(value: &Vector) -> [u64; MEMORY_WORDS]
    ensures words { result ≡ memory_words value.now }
    ensures value { IsValue value.now }
{
    let mut words = [0; MEMORY_WORDS];
    for k in 0..value.len() {
        words[k] = part_word(value, k);
    }
    words
}

// The held word less the wanted one, without its highest bit where the held word has that. Where the wanted word is below 2^63, the
// highest bit of the result tells that the held word is less.
fn shortfall(held: u64, wanted: u64) -> u64
    ensures { wanted < 2 ^ 63 → nat_lt result (2 ^ 63) ≡ nat_le wanted held }
{
    held.wrapping_sub(wanted) & !held
}

// Whether each word of the first four is at least the wanted one, without a branch between them. A value has at most four parts, and a
// wanted word past them is 0.
fn are_at_least(words: &[u64; MEMORY_WORDS], wanted: &[u64; MEMORY_WORDS]) -> bool
    ensures { (v : List ℤ) → IsValue v → wanted.now ≡ memory_words v → result ≡ held_covers v (Some words.now) }
{
    let mut short = shortfall(words[0], wanted[0]);
    short |= shortfall(words[1], wanted[1]);
    short |= shortfall(words[2], wanted[2]);
    short |= shortfall(words[3], wanted[3]);
    short >> 63 == 0
}

// Whether a part of the value has another word here, without a branch between the parts. Where the words are of a value that weakly
// dominates this one, it is then another value.
fn is_other(words: &[u64; MEMORY_WORDS], value: &Vector) -> bool
    ensures { held_covers value.now (Some words.now) ≡ true → result ≡ held_dominates value.now (Some words.now) }
{
    let mut other = 0;
    for k in 0..value.len() {
        other |= words[k] ^ part_word(value, k);
    }
    other != 0
}

// Whether the words are of a value that weakly dominates this one, whose words are the wanted ones, and of another value where that is
// asked.
fn are_met(
    words: &[u64; MEMORY_WORDS],
    wanted: &[u64; MEMORY_WORDS],
    value: &Vector,
    other: bool,
) -> bool
    ensures { IsValue value.now → wanted.now ≡ memory_words value.now → result ≡ held_meets other value.now (Some words.now) }
{
    if !are_at_least(words, wanted) {
        return false;
    }
    !other || is_other(words, value)
}

// The same of the words at a place, if the pass remembers any there.
fn recalls_at(
    pass: &Pass<NdLaw>,
    place: usize,
    wanted: &[u64; MEMORY_WORDS],
    value: &Vector,
    other: bool,
) -> bool
    requires { place < MEMORY_PLACES }
    ensures { IsValue value.now → wanted.now ≡ memory_words value.now
        → (held : _) × (get_elem? (memory_of pass.now) place ≡ some held) × (result ≡ held_meets other value.now held) }
{
    match pass.remembered(place) {
        Some(words) => are_met(&words, wanted, value, other),
        None => false,
    }
}

// Whether the words at some place are of a value that weakly dominates this one, and of another value where that is asked.
fn recalls_some(pass: &Pass<NdLaw>, value: &Vector, other: bool) -> bool
    ensures { result ≡ list_any (held_meets other value.now) (memory_of pass.now) }
{
    let wanted = words_of(value);
    for place in 0..MEMORY_PLACES {
        if recalls_at(pass, place, &wanted, value, other) {
            return true;
        }
    }
    false
}

/// Whether a value that the pass remembers weakly dominates this one. Then a point that was submitted does.
pub fn recalls(pass: &Pass<NdLaw>, value: &Vector) -> bool
    requires parts { length value.now ≡ (known_of pass.now).shape }
    ensures submitted { result ≡ true → some_weakly_dominates (submissions (seen_of pass.now)) value.now ≡ true }
    ensures memory { result ≡ recalls_value (memory_of pass.now) value.now }
{
    recalls_some(pass, value, false)
}

/// Whether a value that the pass remembers dominates this one: weakly dominates it, and is another value. Then this one is no member's.
pub fn recalls_better(pass: &Pass<NdLaw>, value: &Vector) -> bool
    requires parts { length value.now ≡ (known_of pass.now).shape }
    ensures not_member { result ≡ true → nondominated (submissions (seen_of pass.now)) (Member value.now) ≡ No }
    ensures memory { result ≡ recalls_dominating (memory_of pass.now) value.now }
{
    recalls_some(pass, value, true)
}

/// Remembers the value of a point that was submitted, at a place, and no other value there.
pub fn remember(pass: &mut Pass<NdLaw>, place: usize, value: &Vector)
    requires place { place < MEMORY_PLACES }
    requires parts { length value.now ≡ (known_of pass.old).shape }
    requires submitted { has_value (submissions (seen_of pass.old)) value.now ≡ true }
    ensures pass { (r : _) → IsPassOf r pass.old → IsPassOf r pass.new }
    ensures number { pass.new.number ≡ pass.old.number }
    ensures known { knows_of pass.new ≡ knows_of pass.old }
    ensures marks { marked_of pass.new ≡ marked_of pass.old }
    ensures work { work_of pass.new ≡ work_of pass.old }
    ensures memory { memory_of pass.new ≡ slice_set (memory_of pass.old) place (Some (memory_words value.now)) }
{
    pass.remember(place, words_of(value));
}

// Remembers the value of the point in a row, which was submitted.
pub(crate) fn remember_row(rows: &Rows<NdLaw>, pass: &mut Pass<NdLaw>, row: u32)
    requires pass { IsPassOf rows.now pass.old }
    requires row { In row (pinned_copy (known_of pass.old)).rows }
    requires point { (p : Point) × HasPoint rows.now.shape (pinned_copy (known_of pass.old)) row p × lists.In p (submissions (seen_of pass.old)) }
    ensures pass { IsPassOf rows.now pass.new }
    ensures reads { ReadsIn (row ∷ []) (known_of pass.old) (known_of pass.new) }
    ensures kept { HasKept pass.old pass.new }
    ensures memory { (p : Point) → HasPoint rows.now.shape (pinned_copy (known_of pass.old)) row p → memory_of pass.new ≡ slice_set (memory_of pass.old) (row % MEMORY_PLACES) (Some (memory_words p.value)) }
{
    let value = read_value(rows, pass, row);
    remember(pass, row as usize % MEMORY_PLACES, &value);
}
