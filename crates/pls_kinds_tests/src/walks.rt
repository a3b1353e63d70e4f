//! Walks over the neighbours of a solution, of whatever kind the instance is.

use crate::made::solution_of;
use pls_problem::Instance;
use pls_vectors::{Sol, Vector};
use std::process::Abort;

/// Walks from a solution to the end of its neighbours, and compares each with the value and the items or entries that
/// are wanted: by one walk with its solutions, and by another with its value first and its solution over another one.
pub fn check_walk(
    rt: &impl Abort,
    instance: &Instance,
    start: &[u16],
    neighbours: &[([i64; 2], &[u16])],
) {
    let start = solution_of(rt, instance, start);
    assert!(rt; instance.is_feasible(&start));
    let mut walk = instance.walk(&start);
    let mut by_value = instance.walk(&start);
    // none of its words is 0
    let mut sol = Sol::order(256);
    for (value, shown) in neighbours {
        let wanted = solution_of(rt, instance, shown);
        assert_eq!(rt;
            instance.next(&mut walk),
            Vector::new(value).map(|vector| (vector, wanted))
        );
        assert_eq!(rt; instance.next_value(&mut by_value), Vector::new(value));
        instance.solution(&by_value, &mut sol);
        assert_eq!(rt; sol, wanted);
    }
    assert!(rt; instance.next(&mut walk).is_none());
    assert!(rt; instance.next(&mut walk).is_none(), "after the end");
    assert!(rt; instance.next_value(&mut by_value).is_none());
}
