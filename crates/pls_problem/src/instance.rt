#![tactic(auto, unfolding(crate::specs::Instance::feasible, crate::specs::Instance::value, crate::specs::Instance::neighbours, crate::specs::Walk::IsWalkOf, crate::specs::Walk::current, crate::specs::Walk::left, crate::specs::Starts::start_of))]

ghost use Rattle.std.specs.Prelude.{◌≡◌, ◌↔◌, ◌<◌, ◌≤◌, ◌++◌, [], true, IsNone, IsTrue, IfSome, option_map, option_to_list, length, slice_index};
ghost use Rattle.pls_vectors.specs.Dominance.{is_part};
ghost use Rattle.pls_vectors.specs.Solution.{entry};
ghost use Rattle.pls_problem.specs.Instance.{objectives, size, feasible, value, neighbours, original, shown_at};
ghost use Rattle.pls_problem.specs.Kinds.{kind_of};
ghost use Rattle.pls_problem.specs.Starts.{IsOrder, least_shuffled, start_of};

use crate::kind::Kind;
use pls_knapsack::Knapsack;
use pls_perms::{Assignment, Tour, TourWalk};
use pls_vectors::{Sol, Vector};

/// An instance of any kind of problem.
#[derive(Debug, Drop)]
pub enum Instance {
    /// A knapsack.
    Knapsack(Knapsack),
    /// An assignment.
    Assignment(Assignment),
    /// A tour.
    Tour(Tour),
}

/// A walk over the neighbours of a feasible solution.
#[derive(Clone, Copy, Debug)]
pub enum Walk {
    /// Over those of a choice of a knapsack's items.
    Knapsack(pls_knapsack::Walk),
    /// Over those of an assignment.
    Assignment(pls_perms::Walk),
    /// Over those of a tour.
    Tour(TourWalk),
}

impl Instance {
    ghost use Rattle.pls_problem.specs.Walk.{IsWalkOf, current, left};

    /// How many objectives there are, 2 to 4.
    pub fn objectives(&self) -> u8
        ensures value { result ≡ objectives self.now }
        ensures some { 2 ≤ result }
        ensures few { result ≤ 4 }
    {
        match self {
            Instance::Knapsack(knapsack) => knapsack.objectives(),
            Instance::Assignment(assignment) => assignment.objectives(),
            Instance::Tour(tour) => tour.objectives(),
        }
    }

    /// How many items, agents or cities a solution is of, 1 to 256.
    pub fn size(&self) -> u16
        ensures value { result ≡ size self.now }
        ensures some { 1 ≤ result }
        ensures few { result ≤ 256 }
    {
        match self {
            Instance::Knapsack(knapsack) => knapsack.size(),
            Instance::Assignment(assignment) => assignment.size(),
            Instance::Tour(tour) => tour.size(),
        }
    }

    /// The kind of problem.
    pub fn kind(&self) -> Kind
        ensures { result ≡ kind_of self.now }
    {
        match self {
            Instance::Knapsack(_) => Kind::Knapsack,
            Instance::Assignment(_) => Kind::Assignment,
            Instance::Tour(_) => Kind::Tour,
        }
    }

    /// Whether the solution is feasible.
    pub fn is_feasible(&self, sol: &Sol) -> bool
        ensures { result ≡ feasible self.now sol.now }
    {
        match self {
            Instance::Knapsack(knapsack) => knapsack.is_feasible(sol),
            Instance::Assignment(assignment) => assignment.is_feasible(sol),
            Instance::Tour(tour) => tour.is_feasible(sol),
        }
    }

    /// The value of a feasible solution, in which larger is better.
    pub fn value(&self, sol: &Sol) -> Vector
        requires { feasible self.now sol.now ≡ true }
        ensures value { result ≡ value self.now sol.now }
        ensures parts { length result ≡ objectives self.now }
    {
        match self {
            Instance::Knapsack(knapsack) => knapsack.value(sol),
            Instance::Assignment(assignment) => assignment.value(sol),
            Instance::Tour(tour) => tour.value(sol),
        }
    }

    /// The start that an order stands for: of a knapsack what a greedy fill takes along it, else the permutation itself.
    pub(crate) fn start_along(&self, order: &[u16]) -> Sol
        requires order { IsOrder self.now order.now }
        requires some { 1 ≤ length order.now }
        requires few { length order.now ≤ 256 }
        ensures value { result ≡ start_of self.now order.now }
        ensures feasible { feasible self.now result ≡ true }
    {
        match self {
            Instance::Knapsack(knapsack) => knapsack.greedy(order),
            Instance::Assignment(_) => Sol::of_entries(order),
            Instance::Tour(_) => Sol::of_entries(order),
        }
    }

    /// The least place that a shuffle moves: a tour begins at city 0.
    pub(crate) fn least_shuffled(&self) -> usize
        ensures value { result ≡ least_shuffled self.now }
        ensures few { result ≤ 1 }
    {
        match self {
            Instance::Knapsack(_) | Instance::Assignment(_) => 0,
            Instance::Tour(_) => 1,
        }
    }

    /// The walk over the neighbours of a feasible solution, at most 32,640, which has given none of them.
    pub fn walk(&self, sol: &Sol) -> Walk
        requires { feasible self.now sol.now ≡ true }
        ensures made { IsWalkOf self.now result }
        ensures left { left self.now result ≡ neighbours self.now sol.now }
        ensures few { length (neighbours self.now sol.now) ≤ 32640 }
    {
        match self {
            Instance::Knapsack(knapsack) => Walk::Knapsack(knapsack.walk(sol)),
            Instance::Assignment(assignment) => Walk::Assignment(assignment.walk(sol)),
            Instance::Tour(tour) => Walk::Tour(tour.walk(sol)),
        }
    }

    /// The value of the next neighbour, or None where all were given. `solution` gives the neighbour itself.
    pub fn next_value(&self, walk: &mut Walk) -> Option<Vector>
        requires { IsWalkOf self.now walk.old }
        ensures made { IsWalkOf self.now walk.new }
        ensures step { left self.now walk.old ≡ option_to_list (option_map (λ v. (v, current walk.new)) result) ++ left self.now walk.new }
        ensures end { IsNone result ↔ (left self.now walk.old ≡ []) }
        ensures feasible { IfSome result (λ v. feasible self.now (current walk.new) ≡ true) }
        ensures value { IfSome result (λ v. v ≡ value self.now (current walk.new)) }
        ensures parts { IfSome result (λ v. length v ≡ objectives self.now) }
    {
        match (self, walk) {
            (Instance::Knapsack(knapsack), Walk::Knapsack(walk)) => knapsack.next_value(walk),
            (Instance::Assignment(assignment), Walk::Assignment(walk)) => assignment.next_value(
                walk,
            ),
            (Instance::Tour(tour), Walk::Tour(walk)) => tour.next_value(walk),
            _ => unreachable!(),
        }
    }

    /// Puts the neighbour that the walk gave last into `into`, which may hold any solution.
    pub fn solution(&self, walk: &Walk, into: &mut Sol)
        requires { IsWalkOf self.now walk.now }
        ensures { into.new ≡ current walk.now }
    {
        match (self, walk) {
            (Instance::Knapsack(knapsack), Walk::Knapsack(walk)) => knapsack.solution(walk, into),
            (Instance::Assignment(assignment), Walk::Assignment(walk)) => assignment.solution(
                walk, into,
            ),
            (Instance::Tour(tour), Walk::Tour(walk)) => tour.solution(walk, into),
            _ => unreachable!(),
        }
    }

    /// The next neighbour and its value, or None where all were given.
    pub fn next(&self, walk: &mut Walk) -> Option<(Vector, Sol)>
        requires { IsWalkOf self.now walk.old }
        ensures made { IsWalkOf self.now walk.new }
        ensures step { left self.now walk.old ≡ option_to_list result ++ left self.now walk.new }
        ensures end { IsNone result ↔ (left self.now walk.old ≡ []) }
        ensures feasible { IfSome result (λ p. feasible self.now p.1 ≡ true) }
        ensures value { IfSome result (λ p. p.0 ≡ value self.now p.1) }
        ensures parts { IfSome result (λ p. length p.0 ≡ objectives self.now) }
    {
        match (self, walk) {
            (Instance::Knapsack(knapsack), Walk::Knapsack(walk)) => knapsack.next(walk),
            (Instance::Assignment(assignment), Walk::Assignment(walk)) => assignment.next(walk),
            (Instance::Tour(tour), Walk::Tour(walk)) => tour.next(walk),
            _ => unreachable!(),
        }
    }

    /// A part of a value as the instance has it: costs and lengths, which are negated in a value, as they are.
    pub fn original(&self, part: i64) -> i64
        requires { IsTrue (is_part part) }
        ensures { result ≡ original self.now part }
    {
        match self {
            Instance::Knapsack(_) => part,
            Instance::Assignment(_) | Instance::Tour(_) => -part,
        }
    }

    /// What a solution shows at a place: of a choice the item, where it is chosen; of a permutation the entry.
    pub fn shown_at(&self, sol: &Sol, place: u16) -> Option<u16>
        requires { place < sol.now.len }
        ensures { result ≡ shown_at self.now sol.now place }
    {
        match self {
            Instance::Knapsack(_) => sol.bit(place).then_some(place),
            Instance::Assignment(_) | Instance::Tour(_) => Some(entry_of(sol, place)),
        }
    }
}

/// The entry at a place of a permutation.
fn entry_of(sol: &Sol, place: u16) -> u16
    requires { place < sol.now.len }
    ensures { result ≡ entry sol.now place }
{
    let _len = sol.len();
    sol.entry(place) as u16
}
