//! The tour.

use crate::made::{FOUR_CITIES, instance_of, with_entries};
use crate::walks::check_walk;
use pls_perms::Tour;
use pls_problem::Instance;
use pls_vectors::Vector;
use std::test::Fail;

#[test]
fn shows_its_edges(rt: HostRuntime) -> Result<(), Fail> {
    let k = Tour::new(rt.alloc(), 2, 3, &[1, 2, 3, 4, 5, 6])?;
    assert_eq!(rt; (k.objectives(), k.size()), (2, 3));
    assert_eq!(rt; [k.edge(0, 0), k.edge(0, 1), k.edge(0, 2)], [1, 2, 3]);
    assert_eq!(rt; [k.edge(1, 0), k.edge(1, 1), k.edge(1, 2)], [4, 5, 6]);
    Ok(())
}

#[test]
fn decides_and_values_tours(rt: HostRuntime) -> Result<(), Fail> {
    let k = Tour::new(rt.alloc(), 2, 4, &[1, 9, 1, 1, 9, 1, 9, 1, 5, 5, 1, 9])?;
    let tours: [(&[u16], [i64; 2]); 3] = [
        (&[0, 1, 2, 3], [-4, -28]),
        (&[0, 2, 1, 3], [-20, -12]),
        (&[0, 1, 3, 2], [-20, -20]),
    ];
    for (cities, value) in tours {
        let tour = with_entries(&rt, cities);
        assert!(rt; k.is_feasible(&tour), "{cities:?}");
        assert_eq!(rt; Some(k.value(&tour)), Vector::new(&value), "{cities:?}");
    }
    let others: [&[u16]; 5] = [
        &[1, 0, 2, 3],
        &[0, 1, 1, 3],
        &[0, 1, 2, 4],
        &[0, 1, 2],
        &[0, 1, 2, 3, 4],
    ];
    for cities in others {
        assert!(rt; !k.is_feasible(&with_entries(&rt, cities)), "{cities:?}");
    }
    Ok(())
}

#[test]
fn walks_the_neighbours(rt: HostRuntime) -> Result<(), Fail> {
    let neighbours: [([i64; 2], &[u16]); 3] = [
        ([-20, -12], &[0, 2, 1, 3]),
        ([-4, -28], &[0, 3, 2, 1]),
        ([-20, -20], &[0, 1, 3, 2]),
    ];
    let four = Tour::new(rt.alloc(), 2, 4, &[1, 9, 1, 1, 9, 1, 9, 1, 5, 5, 1, 9])?;
    check_walk(&rt, &Instance::Tour(four), &[0, 1, 2, 3], &neighbours);
    let read = instance_of(&rt, rt.alloc(), FOUR_CITIES);
    check_walk(&rt, &read, &[0, 1, 2, 3], &neighbours);
    let three = Tour::new(rt.alloc(), 2, 3, &[1, 2, 3, 4, 5, 6])?;
    check_walk(
        &rt,
        &Instance::Tour(three),
        &[0, 1, 2],
        &[([-6, -15], &[0, 2, 1])],
    );
    Ok(())
}
