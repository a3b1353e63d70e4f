//! The bounding box of vectors, and what it tells of a value.

use crate::made::vector;
use pls_vectors::{Decision, Range};

#[test]
fn decides_by_both_corners(rt: HostRuntime) {
    let mut range = Range::of(vector(&rt, &[4, 1]));
    range.grow(vector(&rt, &[2, 5]));
    assert_eq!(rt; range.ideal(), vector(&rt, &[4, 5]));
    assert_eq!(rt; range.nadir(), vector(&rt, &[2, 1]));
    let cases = [
        ([2, 1], Decision::AllCover),
        ([1, 1], Decision::AllCover),
        ([4, 5], Decision::CoversAll),
        ([9, 5], Decision::CoversAll),
        ([5, 0], Decision::Apart),
        ([3, 3], Decision::Mixed),
        ([2, 9], Decision::Mixed),
    ];
    for (value, decision) in cases {
        assert_eq!(rt;
            range.decide(&vector(&rt, &value)),
            decision,
            "at {value:?}"
        );
    }
    assert_eq!(rt; range.gap(&vector(&rt, &[5, 0])), 52);
    let one = vector(&rt, &[7, -7]);
    assert_eq!(rt; Range::of(one).decide(&one), Decision::AllCover);
    assert_eq!(rt; Range::of(one).gap(&one), 0);
}
