//! How the ND-tree divides a full leaf, and to which child a value goes.
ghost use Rattle.std.specs.Prelude.{◌≡◌, All, length, if◌then◌else◌};

use nd_tree::{closest, split};
use pls_samples::value;
use pls_vectors::{Range, Vector};
use std::test::*;

/// How many vectors are divided: one more than a leaf keeps.
const FULL: usize = 21;

#[test]
fn finds_the_first_of_the_closest(rt: HostRuntime) {
    let boxes = [
        Range::of(value(0, 20)),
        Range::of(value(20, 0)),
        Range::of(value(10, 10)),
    ];
    let cases = [(1, 19, 0), (5, 15, 0), (15, 5, 1), (11, 9, 2), (20, 20, 2)];
    for (a, b, place) in cases {
        assert_eq!(rt; closest(&boxes, &value(a, b)), place, "at {a}, {b}");
    }
}

/// `(x, y)`, or `(x, y, 0)`.
fn vector(three: bool, x: u8, y: i16) -> Vector
    ensures { length result ≡ (if three then 3 else 2) }
{
    if three {
        Vector::from_places(3, [x as i64, y as i64, 0, 0])
    } else {
        Vector::from_places(2, [x as i64, y as i64, 0, 0])
    }
}

/// For each of these numbers the vector of it and of `sum` less it.
fn on_a_line(three: bool, sum: u8, xs: &[u8; FULL]) -> [Vector; FULL]
    ensures { All (λ v. length v ≡ (if three then 3 else 2)) result }
{
    let mut values = [vector(three, 0, 0); FULL];
    for i in 0..FULL {
        let x = xs[i];
        values[i] = vector(three, x, sum as i16 - x as i16);
    }
    values
}

#[test]
fn divides_vectors_on_a_line(rt: HostRuntime) {
    let rising = [
        0, 1, 2, 3, 4, 5, 6, 7, 8, 9, 10, 11, 12, 13, 14, 15, 16, 17, 18, 19, 20,
    ];
    let sevenfold = [
        0, 0, 0, 0, 0, 0, 0, 1, 1, 1, 1, 1, 1, 1, 2, 2, 2, 2, 2, 2, 2,
    ];
    let cases: [(bool, u8, &[u8; FULL], &[&[u8]]); 3] = [
        (
            true,
            20,
            &rising,
            &[
                &[0],
                &[20, 18],
                &[1, 2, 3, 4, 5, 6, 7, 8, 9, 10, 11, 12],
                &[19, 13, 14, 15, 16, 17],
            ],
        ),
        (
            false,
            100,
            &rising,
            &[
                &[0],
                &[20, 14, 15, 16, 17, 18, 19],
                &[1, 2, 3, 4, 5, 6, 7, 8, 9, 10, 11, 12, 13],
            ],
        ),
        // of equally far vectors the earlier begins a group, and of equally close boxes the earlier is joined
        (
            false,
            2,
            &sevenfold,
            &[
                &[0, 2, 3, 4, 5, 6, 7, 8, 9, 10, 11, 12, 13],
                &[14, 15, 16, 17, 18, 19, 20],
                &[1],
            ],
        ),
    ];
    for (three, sum, xs, groups) in cases {
        let split = split(&on_a_line(three, sum, xs));
        assert_eq!(rt; split.count(), groups.len());
        for k in 0..groups.len() {
            assert_eq!(rt; split.group(k), groups[k]);
        }
    }
}
