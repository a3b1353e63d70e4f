//! Texts of instances, and their faults.

use pls_problem::BadInstance::{Extra, Head, Range, Shape, Short, Word};
use pls_problem::{BadInstance, Kind, read};

// A text, and the kind and the size of its instance, or its first fault.
const TEXTS: [(&[u8], Result<(Kind, u16), BadInstance>); 36] = [
    (
        b"pls1 knapsack 2 2 1\n10\n3 1\n1 3\n2 3\n",
        Ok((Kind::Knapsack, 2)),
    ),
    (b"pls1 knapsack 2 2 1\n10\n3 1\n1 3\n2", Err(Short(32))),
    (b"", Err(Short(0))),
    (b"pls1", Err(Short(4))),
    (
        b"pls1 knapsack 2 2 1\n10\n3 1\n1 3\n2 3\n7\n",
        Err(Extra(35)),
    ),
    (
        b"pls1 knapsack 2 2 1\n10\n3 1\n1 3\n2 3\n\t# done\n",
        Ok((Kind::Knapsack, 2)),
    ),
    (b"pls1 knapsack 2 1 1\n5\n1000001\n1\n1\n", Err(Range(22))),
    (
        b"pls1 knapsack 2 1 1\n5\n1000000\n1\n1\n",
        Ok((Kind::Knapsack, 1)),
    ),
    (
        b"pls1 knapsack 2 1 1\n5 00000000000000001 1 1",
        Ok((Kind::Knapsack, 1)),
    ),
    (
        b"pls1 knapsack 2 1 1\n9999999999999999999999999999999999999999",
        Err(Range(20)),
    ),
    (b"pls3 knapsack", Err(Head(0))),
    (b"\0", Err(Head(0))),
    (b"pls1 lot", Err(Shape(5))),
    (b"pls1#c\nlot", Err(Shape(7))),
    (b"pls1 knapsack two", Err(Word(14))),
    (b"pls1 knapsack 5 1 1 and any rest", Err(Range(14))),
    (b"pls1 knapsack 2 257 1", Err(Range(16))),
    (b"pls1 knapsack 2 1 9", Err(Range(18))),
    (
        b"pls1 knapsack 2 1 1 1000000000 1 1 1",
        Ok((Kind::Knapsack, 1)),
    ),
    (b"pls1 knapsack 2 1 1 1000000001 1 1 1", Err(Range(20))),
    (
        b"pls1 assignment 2 2\n1 5 5 1\n5 1 1 5\n",
        Ok((Kind::Assignment, 2)),
    ),
    (b"pls1 assignment 2 1 0 1000000", Ok((Kind::Assignment, 1))),
    (b"pls1 assignment 2 1 0 1000001", Err(Range(22))),
    (b"pls1 assignment 2 2\n1 5 5 1\n5 1 1", Err(Short(33))),
    (b"pls1 assignment 2 2\n1 5 5 1\n5 1 1 5\n5", Err(Extra(36))),
    (b"pls1 assignment 2 0", Err(Range(18))),
    (b"pls1 assignment 2 257", Err(Range(18))),
    (b"pls1 assignment", Err(Short(15))),
    (b"pls1 tour 2 3\n1 2 3\n4 5 6\n", Ok((Kind::Tour, 3))),
    (b"pls1 tour 2 3\n1 2 3\n4 5", Err(Short(23))),
    (b"pls1 tour 2 3 1 2 3 4 5 6 7", Err(Extra(26))),
    (b"pls1 tour 2 2 1 1", Err(Range(12))),
    (b"pls1 tour 2 257", Err(Range(12))),
    (b"pls1 tour 1 3", Err(Range(10))),
    (b"pls1 tour 2 3 1 2 3 4 5 -6", Err(Word(24))),
    (b"pls1 tours 2 3", Err(Shape(5))),
];

#[test]
fn reads_an_instance_or_its_first_fault(rt: HostRuntime) {
    for (text, want) in TEXTS {
        assert!(rt; text.len() < 1000);
        let got = match read(rt.alloc(), text) {
            Ok(instance) => Ok((instance.kind(), instance.size())),
            Err(fault) => Err(fault),
        };
        assert_eq!(rt; got, want);
    }
}
