//! The archive that is a list.
use pls_archive::{Plain, Single};
use pls_samples::point;

#[test]
fn shows_its_members_in_order(rt: HostRuntime) {
    let alloc = rt.alloc();
    let mut archive = Plain::new(alloc, 2);
    // of two points with one value the first stays
    for (a, b, items) in [(2, 2, 1), (3, 1, 1), (2, 2, 2), (1, 3, 1), (0, 2, 1)] {
        archive
            .update(point(a, b, items))
            .expect(&rt, "memory for a point");
    }
    let front = archive.snapshot(alloc).expect(&rt, "memory for a front");
    let expected = [point(1, 3, 1), point(2, 2, 1), point(3, 1, 1)];
    assert_eq!(rt; front.as_slice(), expected.as_slice());
}
