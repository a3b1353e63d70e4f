//! Parts and solutions as words.
ghost use Rattle.std.specs.Prelude.{◌≡◌, ◌≤◌, ◌^◌, IsTrue};
ghost use Rattle.pls_vectors.specs.Dominance.{is_part};
ghost use Rattle.pls_vectors.specs.Word.{to_word, from_word};

use crate::vector::PART_BOUND;

/// The word of a part: the part plus `2^40`.
pub fn to_word(part: i64) -> u64
    requires { IsTrue (is_part part) }
    ensures value { result ≡ to_word part }
    ensures bound { result ≤ 2 ^ 41 }
    ensures back { from_word result ≡ part }
{
    (part + PART_BOUND) as u64
}

/// The part of a word: the word less `2^40`.
pub fn from_word(word: u64) -> i64
    requires { word ≤ 2 ^ 41 }
    ensures value { result ≡ from_word word }
    ensures in_range { IsTrue (is_part result) }
    ensures back { to_word result ≡ word }
{
    word as i64 - PART_BOUND
}
