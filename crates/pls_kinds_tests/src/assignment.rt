//! The linear assignment.

use crate::made::with_entries;
use crate::walks::check_walk;
use pls_perms::Assignment;
use pls_problem::Instance;
use pls_vectors::Vector;
use std::test::Fail;

#[test]
fn shows_its_costs(rt: HostRuntime) -> Result<(), Fail> {
    let k = Assignment::new(rt.alloc(), 2, 2, &[1, 2, 3, 4, 5, 6, 7, 8])?;
    assert_eq!(rt; (k.objectives(), k.size()), (2, 2));
    assert_eq!(rt; [k.cost(0, 0, 0), k.cost(0, 0, 1)], [1, 2]);
    assert_eq!(rt; [k.cost(0, 1, 0), k.cost(0, 1, 1)], [3, 4]);
    assert_eq!(rt; [k.cost(1, 0, 1), k.cost(1, 1, 0)], [6, 7]);
    Ok(())
}

#[test]
fn decides_and_values_permutations(rt: HostRuntime) -> Result<(), Fail> {
    let k = Assignment::new(
        rt.alloc(),
        2,
        3,
        &[1, 2, 4, 8, 16, 32, 64, 128, 256, 9, 0, 0, 0, 9, 0, 0, 0, 9],
    )?;
    let permutations: [(&[u16], [i64; 2]); 3] = [
        (&[0, 1, 2], [-273, -27]),
        (&[1, 2, 0], [-98, 0]),
        (&[2, 1, 0], [-84, -9]),
    ];
    for (columns, value) in permutations {
        let sol = with_entries(&rt, columns);
        assert!(rt; k.is_feasible(&sol), "{columns:?}");
        assert_eq!(rt; Some(k.value(&sol)), Vector::new(&value), "{columns:?}");
    }
    let others: [&[u16]; 5] = [
        &[0, 1],
        &[0, 1, 1],
        &[0, 1, 3],
        &[0, 1, 2, 0],
        &[0, 1, 2, 3],
    ];
    for columns in others {
        assert!(rt; !k.is_feasible(&with_entries(&rt, columns)), "{columns:?}");
    }
    let mut beyond = with_entries(&rt, &[0, 1, 2, 3]);
    assert!(rt; beyond.len() == 4);
    beyond.swap(0, 3);
    assert!(rt; !k.is_feasible(&beyond), "one entry too many");
    Ok(())
}

#[test]
fn walks_the_neighbours(rt: HostRuntime) -> Result<(), Fail> {
    let one = Instance::Assignment(Assignment::new(rt.alloc(), 2, 1, &[3, 4])?);
    check_walk(&rt, &one, &[0], &[]);
    let two = Instance::Assignment(Assignment::new(rt.alloc(), 2, 2, &[1, 5, 5, 1, 5, 1, 1, 5])?);
    check_walk(&rt, &two, &[0, 1], &[([-10, -2], &[1, 0])]);
    check_walk(&rt, &two, &[1, 0], &[([-2, -10], &[0, 1])]);
    let three = Instance::Assignment(Assignment::new(
        rt.alloc(),
        2,
        3,
        &[1, 2, 4, 8, 16, 32, 64, 128, 256, 9, 0, 0, 0, 9, 0, 0, 0, 9],
    )?);
    check_walk(
        &rt,
        &three,
        &[0, 1, 2],
        &[
            ([-266, -9], &[1, 0, 2]),
            ([-84, -9], &[2, 1, 0]),
            ([-161, -9], &[0, 2, 1]),
        ],
    );
    Ok(())
}
