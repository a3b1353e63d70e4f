//! The knapsack.

use crate::made::choice;
use crate::walks::check_walk;
use pls_knapsack::Knapsack;
use pls_problem::Instance;
use pls_vectors::Vector;
use std::test::Fail;

#[test]
fn shows_its_numbers(rt: HostRuntime) -> Result<(), Fail> {
    let k = Knapsack::new(
        rt.alloc(),
        3,
        &[3, 1, 2, 1, 4, 2],
        &[5, 6],
        &[2, 3, 4, 7, 8, 9],
    )?;
    assert_eq!(rt; (k.size(), k.objectives(), k.rules()), (3, 2, 2));
    assert_eq!(rt; (k.profit(0, 2), k.profit(1, 1)), (2, 4));
    assert_eq!(rt; (k.weight(0, 1), k.weight(1, 2)), (3, 9));
    assert_eq!(rt; (k.capacity(0), k.capacity(1)), (5, 6));
    Ok(())
}

#[test]
fn decides_and_values_choices(rt: HostRuntime) -> Result<(), Fail> {
    let k = Knapsack::new(rt.alloc(), 3, &[3, 1, 2, 1, 3, 2], &[5], &[2, 3, 4])?;
    let within: [(&[u16], [i64; 2]); 5] = [
        (&[], [0, 0]),
        (&[0], [3, 1]),
        (&[1], [1, 3]),
        (&[2], [2, 2]),
        (&[0, 1], [4, 4]),
    ];
    for (items, value) in within {
        let sol = choice(&rt, 3, items);
        assert!(rt; k.is_feasible(&sol), "{items:?}");
        assert_eq!(rt; Some(k.value(&sol)), Vector::new(&value), "{items:?}");
    }
    let beyond: [&[u16]; 3] = [&[0, 2], &[1, 2], &[0, 1, 2]];
    for items in beyond {
        assert!(rt; !k.is_feasible(&choice(&rt, 3, items)), "{items:?}");
    }
    assert!(rt; !k.is_feasible(&choice(&rt, 4, &[0])), "of four items");
    Ok(())
}

#[test]
fn fills_greedily(rt: HostRuntime) -> Result<(), Fail> {
    let k = Knapsack::new(rt.alloc(), 3, &[3, 1, 2, 1, 3, 2], &[5], &[2, 3, 4])?;
    assert_eq!(rt; k.greedy(&[]), choice(&rt, 3, &[]));
    assert_eq!(rt; k.greedy(&[0, 1, 2]), choice(&rt, 3, &[0, 1]));
    assert_eq!(rt; k.greedy(&[2, 0, 1]), choice(&rt, 3, &[2]));
    assert_eq!(rt;
        k.greedy(&[0, 2, 1]),
        choice(&rt, 3, &[0, 1]),
        "past an item that does not fit"
    );
    Ok(())
}

#[test]
fn walks_the_neighbours(rt: HostRuntime) -> Result<(), Fail> {
    let both_fit = Instance::Knapsack(Knapsack::new(rt.alloc(), 2, &[3, 1, 1, 3], &[10], &[2, 3])?);
    check_walk(&rt, &both_fit, &[0, 1], &[([1, 3], &[1]), ([3, 1], &[0])]);
    let none_fits = Instance::Knapsack(Knapsack::new(rt.alloc(), 1, &[1, 1], &[0], &[1])?);
    check_walk(&rt, &none_fits, &[], &[]);
    let one_fits = Instance::Knapsack(Knapsack::new(rt.alloc(), 2, &[1, 1, 1, 1], &[2], &[2, 2])?);
    check_walk(&rt, &one_fits, &[0], &[([0, 0], &[]), ([1, 1], &[1])]);
    let two_fit = Instance::Knapsack(Knapsack::new(
        rt.alloc(),
        3,
        &[3, 1, 2, 1, 3, 2],
        &[5],
        &[2, 3, 4],
    )?);
    check_walk(
        &rt,
        &two_fit,
        &[2],
        &[([0, 0], &[]), ([3, 1], &[0]), ([1, 3], &[1])],
    );
    Ok(())
}
