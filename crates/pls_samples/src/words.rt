//! Words without order, and the values and points that they choose.
ghost use Rattle.std.specs.Prelude.{◌≡◌, ◌≤◌, length};

use pls_archive::Point;
use pls_vectors::{Sol, Vector};

/// The next word of a generator, whose upper bits are the better ones.
pub fn next_word(word: u64) -> u64 {
    word.wrapping_mul(6_364_136_223_846_793_005)
        .wrapping_add(1_442_695_040_888_963_407)
}

/// Parts that a word chooses: their sum is mostly that of the others, so that many are in no order, and some are equal.
fn parts_of(word: u64) -> [u8; 4] {
    let a = ((word >> 8) % 40) as u8;
    let b = ((word >> 24) % 40) as u8;
    let c = ((word >> 40) % 40) as u8;
    let less = if word % 16 < 3 {
        ((word >> 52) % 5) as u8
    } else {
        0
    };
    [a, b, 60 - a - less, 60 - b + c / 8]
}

/// The value of so many parts that a word chooses: of two parts, the first and the third.
pub fn vector_of(word: u64, objectives: u8) -> Vector
    requires objectives { (2 ≤ objectives) × (objectives ≤ 4) }
    ensures { length result ≡ objectives }
{
    let [a, b, c, d] = parts_of(word);
    match objectives {
        2 => Vector::from_places(2, [a as i64, c as i64, 0, 0]),
        3 => Vector::from_places(3, [a as i64, b as i64, c as i64, 0]),
        _ => Vector::from_places(4, [a as i64, b as i64, c as i64, d as i64]),
    }
}

/// The point of so many parts that a word chooses, with a choice of nothing among so many items.
pub fn point_of(word: u64, objectives: u8, items: u16) -> Point
    requires objectives { (2 ≤ objectives) × (objectives ≤ 4) }
    requires items { (1 ≤ items) × (items ≤ 256) }
    ensures { length result.value ≡ objectives }
{
    Point {
        value: vector_of(word, objectives),
        sol: Sol::bits(items),
    }
}
