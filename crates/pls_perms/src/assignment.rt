ghost use Rattle.std.specs.Prelude.{◌≡◌, ◌↔◌, ℕ, ◌+◌, ◌<◌, ◌≤◌, ◌++◌, [], true, IsNone, IfOk, IfSome, option_to_list, option_map, length, slice_index};
ghost use Rattle.pls_perms.specs.Assignment.{instance_from, IsWithinLimits, cost, total_cost, value, feasible, neighbours};

mod laws;

use crate::pair::Pair;
use crate::sums::{MOST_OBJECTIVES, Sums};
use crate::walk::Walk;
use crate::{permutation, sums, table};
pub use laws::assignment_laws;
use pls_vectors::{Sol, Vector};
use std::alloc::{AllocError, Global};
use std::marker::Model;

/// An instance of the linear assignment problem: each row costs something in each column, by each of
/// several matrices.
///
/// It has 1 to 256 rows and as many columns, and 2 to 4 matrices; costs are at most 1,000,000. A solution
/// is a permutation: its entry `i` is the column of row `i`.
#[derive(Debug, Drop)]
pub struct Assignment {
    agents: u16,
    objectives: u8,
    /// The costs of each row and column, row by row.
    table: Vec<Sums>,
}

impl Model for Assignment {
    ghost use Rattle.pls_perms.specs.Assignment.{AssignmentInstance};

    ghost Value = { AssignmentInstance };

    ghost use Rattle.pls_perms.specs.AssignmentWalk.{instance_in, IsStored};

    ghost view = { instance_in };

    ghost invariant = { IsStored };
}

impl Assignment {
    ghost use Rattle.pls_perms.specs.AssignmentWalk.{IsWalkOf, current, left};

    /// The instance with these costs, row after row and matrix after matrix.
    pub fn new(
        alloc: Global,
        objectives: u8,
        agents: u16,
        costs: &[u32],
    ) -> Result<Assignment, AllocError>
        requires { IsWithinLimits (instance_from objectives agents costs.now) }
        ensures { IfOk result (λ k. k ≡ instance_from objectives agents costs.now) }
    {
        let places = agents as usize * agents as usize;
        let table = table::table_of(alloc, places, costs)?;
        Ok(Assignment {
            agents,
            objectives,
            table,
        })
    }

    /// How many matrices there are.
    pub fn objectives(&self) -> u8
        ensures value { result ≡ self.now.objectives }
        ensures limits { IsWithinLimits self.now }
    {
        self.objectives
    }

    /// How many rows and columns there are.
    pub fn size(&self) -> u16
        ensures value { result ≡ self.now.agents }
        ensures limits { IsWithinLimits self.now }
    {
        self.agents
    }

    /// The cost in a row and a column of a matrix.
    pub fn cost(&self, matrix: u8, row: u16, column: u16) -> u32
        requires matrix_in { matrix < self.now.objectives }
        requires row_in { row < self.now.agents }
        requires column_in { column < self.now.agents }
        ensures { result ≡ cost self.now matrix row column }
    {
        self.costs(row, column)[matrix as usize]
    }

    /// Whether the solution is a permutation of this instance's columns.
    pub fn is_feasible(&self, sol: &Sol) -> bool
        ensures { result ≡ feasible self.now sol.now }
    {
        permutation::is_permutation(self.size(), sol)
    }

    /// The value of a feasible solution: minus its total cost by each matrix.
    pub fn value(&self, sol: &Sol) -> Vector
        requires { feasible self.now sol.now ≡ true }
        ensures value { result ≡ value self.now sol.now }
        ensures parts { length result ≡ self.now.objectives }
    {
        sums::vector_of(&self.total(sol), self.objectives())
    }

    /// The walk over the neighbours of a feasible solution, at most 32,640, which has given none of them.
    pub fn walk(&self, sol: &Sol) -> Walk
        requires { feasible self.now sol.now ≡ true }
        ensures made { IsWalkOf self.now result }
        ensures left { left self.now result ≡ neighbours self.now sol.now }
        ensures few { length (neighbours self.now sol.now) ≤ 32640 }
    {
        Walk {
            start: *sol,
            sums: self.total(sol),
            pair: Pair::start(0),
        }
    }

    /// The next neighbour and its value, or None where all were given.
    pub fn next(&self, walk: &mut Walk) -> Option<(Vector, Sol)>
        requires { IsWalkOf self.now walk.old }
        ensures made { IsWalkOf self.now walk.new }
        ensures step { left self.now walk.old ≡ option_to_list result ++ left self.now walk.new }
        ensures end { IsNone result ↔ (left self.now walk.old ≡ []) }
        ensures feasible { IfSome result (λ p. feasible self.now p.1 ≡ true) }
        ensures value { IfSome result (λ p. p.0 ≡ value self.now p.1) }
        ensures parts { IfSome result (λ p. length p.0 ≡ self.now.objectives) }
    {
        let Some(value) = self.next_value(walk) else {
            return None;
        };
        let mut sol = walk.start;
        sol.swap(walk.pair.first, walk.pair.second);
        Some((value, sol))
    }

    /// The value of the next neighbour, or None where all were given. [`Assignment::solution`] then writes
    /// the neighbour itself.
    pub fn next_value(&self, walk: &mut Walk) -> Option<Vector>
        requires { IsWalkOf self.now walk.old }
        ensures made { IsWalkOf self.now walk.new }
        ensures step { left self.now walk.old
            ≡ option_to_list (option_map (λ v. (v, current walk.new)) result) ++ left self.now walk.new }
        ensures end { IsNone result ↔ (left self.now walk.old ≡ []) }
        ensures feasible { IfSome result (λ v. feasible self.now (current walk.new) ≡ true) }
        ensures value { IfSome result (λ v. v ≡ value self.now (current walk.new)) }
        ensures parts { IfSome result (λ v. length v ≡ self.now.objectives) }
    {
        let Some(pair) = walk.pair.next(self.size()) else {
            return None;
        };
        walk.pair = pair;
        let sums = self.sums_exchanged(walk);
        Some(sums::vector_of(&sums, self.objectives()))
    }

    /// Writes the neighbour whose value was given last over a solution; before the first one, the start.
    pub fn solution(&self, walk: &Walk, into: &mut Sol)
        requires { IsWalkOf self.now walk.now }
        ensures { into.new ≡ current walk.now }
    {
        *into = walk.start;
        into.swap(walk.pair.first, walk.pair.second);
    }

    /// The total costs of the neighbour that is next, from those of the start.
    fn sums_exchanged(&self, walk: &Walk) -> Sums
        requires limits { IsWithinLimits self.now }
        requires made { IsWalkOf self.now walk.now }
        requires ordered { walk.now.pair.first < walk.now.pair.second }
        ensures { (matrix : ℕ) → matrix < 4 → slice_index result matrix ≡ total_cost self.now (current walk.now) matrix }
    {
        let Pair { first, second } = walk.pair;
        let before = walk.start.entry(first) as u16;
        let after = walk.start.entry(second) as u16;
        sums::changed(
            &walk.sums,
            self.costs(first, after),
            self.costs(second, before),
            self.costs(first, before),
            self.costs(second, after),
        )
    }

    /// The total cost of a permutation by each matrix.
    fn total(&self, sol: &Sol) -> Sums
        requires { feasible self.now sol.now ≡ true }
        ensures stored { length sol.now.words ≡ 32 }
        ensures some { 1 ≤ self.now.agents }
        ensures few { self.now.agents ≤ 256 }
        ensures total { (matrix : ℕ) → matrix < 4 → slice_index result matrix ≡ total_cost self.now sol.now matrix }
    {
        let mut total = [0; MOST_OBJECTIVES];
        for i in 0..sol.len() {
            sums::add(&mut total, self.costs(i, sol.entry(i) as u16));
        }
        total
    }

    /// The costs in a row and a column, and 0 by the matrices that the instance does not have.
    fn costs(&self, row: u16, column: u16) -> &Sums
        requires row_in { row < self.now.agents }
        requires column_in { column < self.now.agents }
        ensures costs { (matrix : ℕ) → matrix < 4 → slice_index result.now matrix ≡ cost self.now matrix row column }
        ensures limits { IsWithinLimits self.now }
    {
        let _ = &self.agents;
        &self.table[row as usize * self.agents as usize + column as usize]
    }
}
