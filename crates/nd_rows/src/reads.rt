//! Reading the rows of a pinned version.
ghost use Rattle.std.specs.Prelude.{◌≡◌, ℕ, ℤ, ◌+◌, ◌<◌, ◌≤◌, Some, List, [], ◌∷◌, length, slice_index_or, pos, IsTrue, ◌^◌, nat_le, nat_lt, if◌then◌else◌};
ghost use Rattle.era_core.specs.Lists.{In};
ghost use Rattle.era_core.specs.Versions.{look_up};
ghost use Rattle.era_rows.specs.Known.{pinned_copy};
ghost use Rattle.era_rows.specs.Passes.{known_of, work_of, IsPassOf};
ghost use Rattle.pls_vectors.specs.Dominance.{is_part};
ghost use Rattle.pls_vectors.specs.Word.{to_word};
ghost use Rattle.nd_rows.specs.Layout.{HasValue};
ghost use Rattle.nd_rows.specs.Reads.{LooksIn};
ghost use Rattle.nd_rows.specs.Walk.{side_of};

use crate::law::NdLaw;
use era_core::WIDTH;
use era_rows::{Pass, Rows};
use pls_vectors::{Vector, to_word};

/// The word of a row of the pinned version at a place.
pub fn word(rows: &Rows<NdLaw>, pass: &mut Pass<NdLaw>, row: u32, place: u32) -> u64
    requires pass { IsPassOf rows.now pass.old }
    requires row { In row (pinned_copy (known_of pass.old)).rows }
    requires place { place < WIDTH }
    ensures looks { LooksIn rows.now (row ∷ []) pass.old pass.new }
    ensures work { work_of pass.new ≡ work_of pass.old }
    ensures word { (w : ℕ) → look_up (pinned_copy (known_of pass.old)).cells row place ≡ Some w → result ≡ w }
{
    rows.read(pass, row, place)
}

/// The word of part `k` of a value.
pub fn part_word(value: &Vector, k: usize) -> u64
    requires { k < length value.now }
    ensures value { result ≡ to_word (slice_index_or value.now k (pos 0)) }
    ensures in_range { IsTrue (is_part (slice_index_or value.now k (pos 0))) }
{
    to_word(value.part(k))
}

// The found word less the wanted one, or the wanted one less the found one where they are turned round. Where both are below 2^63, its
// highest bit tells that the first of them is less.
fn difference(turned: bool, found: u64, wanted: u64) -> u64
    ensures { found < 2 ^ 63 → wanted < 2 ^ 63 → nat_lt result (2 ^ 63) ≡ (if turned then nat_le found wanted else nat_le wanted found) }
{
    if turned {
        wanted.wrapping_sub(found)
    } else {
        found.wrapping_sub(wanted)
    }
}

/// Whether the parts that stand in a row of the pinned version from a place on are at least those of the value, or at most where they
/// are turned round; and if so, whether all are equal. It compares all parts, without a branch between them.
pub fn sided(
    rows: &Rows<NdLaw>,
    pass: &mut Pass<NdLaw>,
    row: u32,
    place: u32,
    value: &Vector,
    turned: bool,
) -> Option<bool>
    requires pass { IsPassOf rows.now pass.old }
    requires row { In row (pinned_copy (known_of pass.old)).rows }
    requires place { place + 4 ≤ WIDTH }
    ensures looks { LooksIn rows.now (row ∷ []) pass.old pass.new }
    ensures work { work_of pass.new ≡ work_of pass.old }
    ensures answer { (x : List ℤ) → HasValue (length value.now) (pinned_copy (known_of pass.old)).cells row place x → result ≡ side_of turned x value.now }
{
    let mut short = 0;
    let mut other = 0;
    for k in 0..value.len() {
        let found = word(rows, pass, row, place + k as u32);
        let wanted = part_word(value, k);
        short |= difference(turned, found, wanted);
        other |= found ^ wanted;
    }
    if short >> 63 == 1 {
        None
    } else {
        Some(other == 0)
    }
}
