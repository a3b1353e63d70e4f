//! Values of two parts, and points of them.
ghost use Rattle.std.specs.Prelude.{◌≡◌, ◌≤◌, length};

use pls_archive::Point;
use pls_vectors::{Sol, Vector};

/// The value of these two parts.
pub fn value(a: u8, b: u8) -> Vector
    ensures { length result ≡ 2 }
{
    Vector::from_places(2, [a as i64, b as i64, 0, 0])
}

/// The point of these two parts, with a choice of nothing among so many items.
pub fn point(a: u8, b: u8, items: u16) -> Point
    requires items { (1 ≤ items) × (items ≤ 256) }
    ensures { length result.value ≡ 2 }
{
    Point {
        value: value(a, b),
        sol: Sol::bits(items),
    }
}
