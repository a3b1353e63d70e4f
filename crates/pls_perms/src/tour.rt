ghost use Rattle.std.specs.Prelude.{◌≡◌, ℕ, ◌<◌, ◌≤◌, IfOk, slice_index};
ghost use Rattle.pls_perms.specs.Tour.{instance_from, IsWithinLimits, edge, edge_count};

mod laws;
mod lengths;
mod places;
mod walk;

use crate::sums::Sums;
use crate::table;
pub use laws::tour_laws;
use std::alloc::{AllocError, Global};
use std::marker::Model;
pub use walk::TourWalk;

/// An instance of the symmetric travelling salesman problem with several lists of edges.
///
/// It has 3 to 256 cities and 2 to 4 lists; edges are at most 1,000,000.
#[derive(Debug, Drop)]
pub struct Tour {
    cities: u16,
    objectives: u8,
    /// What each edge costs, at its place in the lists.
    edges: Vec<Sums>,
}

impl Model for Tour {
    ghost use Rattle.pls_perms.specs.Tour.{TourInstance};

    ghost Value = { TourInstance };

    ghost use Rattle.pls_perms.specs.StoredTour.{instance_in, IsStored};

    ghost view = { instance_in };

    ghost invariant = { IsStored };
}

impl Tour {
    /// The instance with these edges, list by list: `(0, 1)`, `(0, 2)`, .., `(1, 2)`, ..
    pub fn new(
        alloc: Global,
        objectives: u8,
        cities: u16,
        edges: &[u32],
    ) -> Result<Tour, AllocError>
        requires { IsWithinLimits (instance_from objectives cities edges.now) }
        ensures { IfOk result (λ k. k ≡ instance_from objectives cities edges.now) }
    {
        let edges = table::table_of(alloc, places::edge_count(cities), edges)?;
        Ok(Tour {
            cities,
            objectives,
            edges,
        })
    }

    /// How many lists of edges there are.
    pub fn objectives(&self) -> u8
        ensures value { result ≡ self.now.objectives }
        ensures limits { IsWithinLimits self.now }
    {
        self.objectives
    }

    /// How many cities there are.
    pub fn size(&self) -> u16
        ensures value { result ≡ self.now.cities }
        ensures limits { IsWithinLimits self.now }
    {
        self.cities
    }

    /// The edge at a place of a list.
    pub fn edge(&self, list: u8, place: u32) -> u32
        requires list_in { list < self.now.objectives }
        requires place_in { place < edge_count self.now.cities }
        ensures { result ≡ edge self.now list place }
    {
        self.costs(place)[list as usize]
    }

    /// What an edge costs in each list.
    fn costs(&self, place: u32) -> &Sums
        requires { place < edge_count self.now.cities }
        ensures value { (list : ℕ) → list < 4 → slice_index result.now list ≡ edge self.now list place }
        ensures limits { IsWithinLimits self.now }
    {
        &self.edges[place as usize]
    }
}
