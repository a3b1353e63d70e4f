//! Instances and solutions that the tests make.

use pls_problem::{Instance, Kind, read};
use pls_vectors::Sol;
use std::alloc::Global;
use std::process::Abort;

/// A tour of four cities.
pub const FOUR_CITIES: &str = "pls1 tour 2 4\n1 9 1 1 9 1\n9 1 5 5 1 9\n";

/// The instance of a text.
pub fn instance_of(rt: &impl Abort, alloc: Global, text: &str) -> Instance {
    assert!(rt; text.len() < 1000);
    read(alloc, text.as_bytes()).expect(rt, "an instance")
}

/// A choice among n items.
pub fn choice(rt: &impl Abort, n: u16, items: &[u16]) -> Sol {
    assert!(rt; 1 <= n && n <= 256);
    let mut sol = Sol::bits(n);
    for item in items {
        assert!(rt; *item < sol.len(), "item {item} of {n}");
        sol.set_bit(*item, true);
    }
    sol
}

/// A solution with these entries: the columns of an assignment, or the cities of a tour.
pub fn with_entries(rt: &impl Abort, entries: &[u16]) -> Sol {
    assert!(rt; 1 <= entries.len() && entries.len() <= 256);
    assert!(rt; entries.iter().all(|entry| *entry < 256));
    Sol::of_entries(entries)
}

/// A solution of an instance: the choice of these items, or the solution with these entries.
pub fn solution_of(rt: &impl Abort, instance: &Instance, shown: &[u16]) -> Sol {
    match instance.kind() {
        Kind::Knapsack => choice(rt, instance.size(), shown),
        Kind::Assignment | Kind::Tour => with_entries(rt, shown),
    }
}
