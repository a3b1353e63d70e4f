//! Nine calls at archives on one thread.
ghost use Rattle.std.specs.Prelude.{◌≡◌};

use nd_tree::NdTree;
use pls_archive::{Plain, Single, Taken};
use pls_samples::{point, value};
use std::alloc::Global;
use std::process::Abort;

/// Makes the calls at an archive that is new, and looks at each reply.
fn make_calls<S: Single>(rt: &impl Abort, alloc: Global, archive: &mut S)
    requires { S.objectives archive.old ≡ 2 }
{
    let updates = [
        (1, 3, 1, Taken::Added { removed: 0 }),
        (3, 1, 1, Taken::Added { removed: 0 }),
        (2, 2, 1, Taken::Added { removed: 0 }),
        (2, 2, 2, Taken::Refused),
        (3, 3, 1, Taken::Added { removed: 3 }),
    ];
    for (a, b, items, expected) in updates {
        let taken = archive
            .update(point(a, b, items))
            .expect(rt, "memory for a point");
        assert_eq!(rt; taken, expected, "update by {a}, {b}");
    }
    assert!(rt; archive.covered(&value(2, 1)));
    assert!(rt; !archive.member(&value(2, 2)));
    assert!(rt; archive.member(&value(3, 3)));
    let front = archive.snapshot(alloc).expect(rt, "memory for a front");
    assert_eq!(rt; front.as_slice(), [point(3, 3, 1)].as_slice());
}

#[test]
fn the_plain_archive_replies(rt: HostRuntime) {
    make_calls(&rt, rt.alloc(), &mut Plain::new(rt.alloc(), 2));
}

#[test]
fn the_nd_tree_replies(rt: HostRuntime) {
    make_calls(&rt, rt.alloc(), &mut NdTree::new(rt.alloc(), 2));
}
