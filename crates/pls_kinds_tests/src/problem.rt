//! Instances that are read, written, made, begun from and walked over.

use crate::made::{FOUR_CITIES, instance_of, with_entries};
use pls_problem::{Kind, MakeSpec, make, starts, write};
use pls_vectors::{Sol, Vector};
use std::test::Fail;

const TWO_ITEMS: &str = "pls1 knapsack 2 2 1\n10\n3 1\n1 3\n2 3\n";

const THREE_ITEMS: &str = "pls1 knapsack 2 3 1\n5\n3 1 2\n1 3 2\n2 3 4\n";

#[test]
fn writes_the_text_of_an_instance(rt: HostRuntime) -> Result<(), Fail> {
    let cases = [
        (TWO_ITEMS, TWO_ITEMS),
        (
            "pls1\tknapsack 2 1 2 # sizes\r\n0005 6 7 8#9\n9 10",
            "pls1 knapsack 2 1 2\n5 6\n7\n8\n9\n10\n",
        ),
        (
            "pls1 assignment 2 2 1 05 5 1 5 1 1 5",
            "pls1 assignment 2 2\n1 5\n5 1\n5 1\n1 5\n",
        ),
        (FOUR_CITIES, FOUR_CITIES),
    ];
    for (text, written) in cases {
        let instance = instance_of(&rt, rt.alloc(), text);
        let bytes = write(rt.alloc(), &instance)?;
        assert_eq!(rt; bytes.as_slice(), written.as_bytes(), "at {text}");
    }
    Ok(())
}

#[test]
fn makes_instances(rt: HostRuntime) -> Result<(), Fail> {
    // kind, objectives, size, rules and seed; the text was computed by a program of its own in another language
    let cases = [
        (
            Kind::Knapsack,
            2,
            1,
            1,
            9,
            "pls1 knapsack 2 1 1\n8\n96\n29\n16\n",
        ),
        (
            Kind::Knapsack,
            2,
            3,
            2,
            7,
            "pls1 knapsack 2 3 2\n74 101\n62 17 79\n57 43 66\n9 73 66\n70 42 91\n",
        ),
        (
            Kind::Knapsack,
            3,
            2,
            2,
            u64::MAX,
            "pls1 knapsack 3 2 2\n40 45\n87 13\n36 88\n42 81\n25 56\n58 32\n",
        ),
        (
            Kind::Assignment,
            2,
            2,
            1,
            7,
            "pls1 assignment 2 2\n62 17\n79 57\n43 66\n9 73\n",
        ),
        (
            Kind::Tour,
            3,
            3,
            8,
            u64::MAX,
            "pls1 tour 3 3\n87 13 36\n88 42 81\n25 56 58\n",
        ),
        (
            Kind::Tour,
            2,
            3,
            1,
            5,
            "pls1 tour 2 3\n59 51 44\n47 100 95\n",
        ),
    ];
    for (kind, objectives, size, rules, seed, text) in cases {
        assert!(rt; 2 <= objectives && objectives <= 4);
        assert!(rt; kind.least_size() <= size && size <= 256);
        assert!(rt; 1 <= rules && rules <= 8);
        let spec = MakeSpec {
            kind,
            objectives,
            size,
            rules,
            seed,
        };
        let bytes = write(rt.alloc(), &make(rt.alloc(), spec)?)?;
        assert_eq!(rt; bytes.as_slice(), text.as_bytes(), "seed {seed}");
    }
    Ok(())
}

#[test]
fn begins_from_seeds(rt: HostRuntime) -> Result<(), Fail> {
    // a seed, and the items of its starts as bits; the shuffles were computed by a program of its own in another language
    let cases = [(0, [3, 4, 4]), (1, [3, 4, 3]), (7, [3, 3, 3])];
    let instance = instance_of(&rt, rt.alloc(), THREE_ITEMS);
    for (seed, items) in cases {
        let sols = starts(rt.alloc(), &instance, seed, 3)?;
        assert_eq!(rt; sols.len(), 3);
        for (sol, bits) in sols.iter().zip(&items) {
            assert_eq!(rt; (sol.len(), sol.word(0)), (3, *bits), "seed {seed}");
        }
    }
    Ok(())
}

#[test]
fn begins_from_permutations(rt: HostRuntime) -> Result<(), Fail> {
    // a text, a seed, and the entries of its starts, computed by a program of its own in another language
    let cases: [(&str, u64, [&[u16]; 2]); 4] = [
        ("pls1 assignment 2 2 1 5 5 1 5 1 1 5", 0, [&[0, 1], &[0, 1]]),
        ("pls1 assignment 2 2 1 5 5 1 5 1 1 5", 7, [&[0, 1], &[1, 0]]),
        (FOUR_CITIES, 0, [&[0, 1, 2, 3], &[0, 3, 1, 2]]),
        (FOUR_CITIES, 7, [&[0, 2, 1, 3], &[0, 2, 1, 3]]),
    ];
    for (text, seed, wanted) in cases {
        let instance = instance_of(&rt, rt.alloc(), text);
        let sols = starts(rt.alloc(), &instance, seed, 2)?;
        assert_eq!(rt; sols.len(), 2);
        for (sol, shown) in sols.iter().zip(&wanted) {
            assert_eq!(rt; *sol, with_entries(&rt, shown), "seed {seed} of {text}");
        }
    }
    Ok(())
}

#[test]
fn shows_what_is_printed(rt: HostRuntime) {
    let items = instance_of(&rt, rt.alloc(), TWO_ITEMS);
    let mut one = Sol::bits(2);
    one.set_bit(1, true);
    assert_eq!(rt; (items.kind(), items.original(3)), (Kind::Knapsack, 3));
    assert_eq!(rt;
        [items.shown_at(&one, 0), items.shown_at(&one, 1)],
        [None, Some(1)]
    );
    let cities = instance_of(&rt, rt.alloc(), FOUR_CITIES);
    let around = Sol::of_entries(&[0, 2, 1, 3]);
    assert_eq!(rt; around.len(), 4);
    assert_eq!(rt; (cities.kind(), cities.original(-20)), (Kind::Tour, 20));
    assert_eq!(rt; cities.shown_at(&around, 1), Some(2));
    assert!(rt; cities.is_feasible(&around));
    assert!(rt; !cities.is_feasible(&Sol::of_entries(&[1, 0, 2, 3])));
}

#[test]
fn walks_over_neighbours(rt: HostRuntime) {
    let instance = instance_of(&rt, rt.alloc(), TWO_ITEMS);
    assert_eq!(rt; (instance.objectives(), instance.size()), (2, 2));
    let mut both = Sol::bits(2);
    both.set_bit(0, true);
    both.set_bit(1, true);
    assert!(rt; instance.is_feasible(&both));
    assert!(rt; !instance.is_feasible(&Sol::bits(3)));
    assert_eq!(rt; Some(instance.value(&both)), Vector::new(&[4, 4]));
    let mut walk = instance.walk(&both);
    let first = instance.next_value(&mut walk);
    let mut one = Sol::bits(256);
    instance.solution(&walk, &mut one);
    assert_eq!(rt;
        (first, one.len(), one.word(0)),
        (Vector::new(&[1, 3]), 2, 2)
    );
    let second = instance.next(&mut walk);
    assert!(rt; second.is_some());
    if let Some((value, sol)) = second {
        assert_eq!(rt; (Some(value), sol.word(0)), (Vector::new(&[3, 1]), 1));
    }
    assert!(rt; instance.next(&mut walk).is_none());
    assert!(rt; instance.next_value(&mut walk).is_none());
}
