//! The list of points that a snapshot gives.
use pls_archive::{Point, PointList};
use pls_samples::point;
use std::alloc::Global;
use std::process::Abort;

fn two_points(rt: &impl Abort, alloc: Global) -> Vec<Point> {
    vec![in alloc; point(3, 1, 3), point(1, 3, 3)].expect(rt, "memory for two points")
}

#[test]
fn keeps_the_points_in_their_order(rt: HostRuntime) {
    let expected = two_points(&rt, rt.alloc());
    let list = PointList::from_vec(two_points(&rt, rt.alloc()));
    assert_eq!(rt; list.as_slice(), expected.as_slice());
    let points = list.into_vec();
    assert_eq!(rt; points.as_slice(), expected.as_slice());
    assert_eq!(rt; points.len(), 2);
}
