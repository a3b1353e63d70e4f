//! The ND-tree.
ghost use Rattle.std.specs.Prelude.{◌≡◌, ◌≤◌, length};

use nd_tree::NdTree;
use pls_archive::{Plain, Point, Single, Taken};
use pls_samples::{next_word, point_of};
use pls_vectors::{Sol, Vector};
use std::alloc::Global;
use std::process::Abort;

/// A point of these parts, with a choice of nothing among one item.
fn point(a: u8, b: u8, c: u8) -> Point
    ensures { length result.value ≡ 3 }
{
    Point {
        value: Vector::from_places(3, [a as i64, b as i64, c as i64, 0]),
        sol: Sol::bits(1),
    }
}

#[test]
fn divides_a_full_leaf(rt: HostRuntime) {
    let mut archive = NdTree::new(rt.alloc(), 3);
    for i in 0..21u8 {
        let taken = archive
            .update(point(i, 20 - i, 0))
            .expect(&rt, "memory for a point");
        assert_eq!(rt; taken, Taken::Added { removed: 0 }, "update {i}");
    }
    let taken = archive
        .update(point(20, 20, 1))
        .expect(&rt, "memory for a point");
    assert_eq!(rt; taken, Taken::Added { removed: 21 });
}

/// A thousand submissions of so many parts, to both archives.
fn replies_as_plain(rt: &impl Abort, alloc: Global, objectives: u8)
    requires some { 2 ≤ objectives }
    requires few { objectives ≤ 4 }
{
    let mut tree = NdTree::new(alloc, objectives);
    let mut plain = Plain::new(alloc, objectives);
    let mut word = 20_260_401u64 + objectives as u64;
    for k in 0..1_000u32 {
        word = next_word(word);
        let items = (k % 200) as u16 + 1;
        let submitted = &point_of(word, objectives, items);
        let v = &submitted.value;
        assert_eq!(rt;
            tree.member(v),
            plain.member(v),
            "member {k} of {objectives} parts"
        );
        assert_eq!(rt;
            tree.covered(v),
            plain.covered(v),
            "covered {k} of {objectives} parts"
        );
        let by_tree = tree.update(*submitted);
        let by_tree = by_tree.expect(rt, "memory for a point");
        let by_plain = plain.update(*submitted);
        let by_plain = by_plain.expect(rt, "memory for a point");
        assert_eq!(rt; by_tree, by_plain, "update {k} of {objectives} parts");
    }
    let by_tree = tree.snapshot(alloc).expect(rt, "memory for a front");
    let by_plain = plain.snapshot(alloc).expect(rt, "memory for a front");
    assert_eq!(rt;
        by_tree.as_slice(),
        by_plain.as_slice(),
        "snapshot of {objectives} parts"
    );
}

#[test]
fn replies_as_the_plain_archive(rt: HostRuntime) {
    for objectives in [2, 3, 4] {
        replies_as_plain(&rt, rt.alloc(), objectives);
    }
}
