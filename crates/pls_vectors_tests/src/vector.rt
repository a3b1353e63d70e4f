//! Vectors of two to four parts, and their comparisons.

use crate::made::vector;
use pls_vectors::Vector;
use std::cmp::Ordering;

#[test]
fn takes_two_to_four_parts_in_range(rt: HostRuntime) {
    let cases: [(&[i64], bool); 10] = [
        (&[], false),
        (&[1], false),
        (&[1, 2], true),
        (&[1, 2, 3, 4], true),
        (&[1, 2, 3, 4, 5], false),
        (&[0, 1_099_511_627_776], true),
        (&[0, 1_099_511_627_777], false),
        (&[-1_099_511_627_776, 0], true),
        (&[-1_099_511_627_777, 0], false),
        (&[0, 0, 0, i64::MIN], false),
    ];
    for (parts, valid) in cases {
        assert_eq!(rt; Vector::new(parts).is_some(), valid, "at {parts:?}");
    }
}

#[test]
fn keeps_the_parts(rt: HostRuntime) {
    let places = Vector::from_places(2, [7, -8, 0, 0]);
    assert_eq!(rt; Some(places), Vector::new(&[7, -8]));
    let v = vector(&rt, &[7, -8, 9]);
    assert_eq!(rt; v.len(), 3);
    assert_eq!(rt; [v.part(0), v.part(1), v.part(2)], [7, -8, 9]);
}

#[test]
fn compares_part_by_part(rt: HostRuntime) {
    // a, b, whether a covers b, whether a dominates b, and their lexicographic order
    let cases = [
        ([1, 2, 3], [1, 2, 3], true, false, Ordering::Equal),
        ([1, 2, 4], [1, 2, 3], true, true, Ordering::Greater),
        ([1, 2, 3], [1, 2, 4], false, false, Ordering::Less),
        ([2, 2, 3], [1, 2, 3], true, true, Ordering::Greater),
        ([5, 0, 0], [4, 9, 9], false, false, Ordering::Greater),
        ([-2, 9, 9], [-1, 0, 0], false, false, Ordering::Less),
        ([-1, -1, -1], [-2, -3, -4], true, true, Ordering::Greater),
    ];
    for (a, b, covers, dominates, order) in cases {
        let v = vector(&rt, &a);
        let w = vector(&rt, &b);
        assert_eq!(rt; v.covers(&w), covers, "{a:?} covers {b:?}");
        assert_eq!(rt; v.dominates(&w), dominates, "{a:?} dominates {b:?}");
        assert_eq!(rt; v.lex(&w), order, "{a:?} by {b:?}");
    }
}
