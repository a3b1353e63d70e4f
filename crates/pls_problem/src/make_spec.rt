ghost use Rattle.std.specs.Prelude.{◌≡◌};
ghost use Rattle.pls_problem.specs.Made.{sizes_in};

use crate::kind::Kind;
use crate::sizes::Sizes;

/// What an instance is made from.
#[derive(Clone, Copy, Debug, PartialEq, Eq)]
pub struct MakeSpec {
    /// The kind of problem.
    pub kind: Kind,
    /// How many objectives it has, 2 to 4.
    pub objectives: u8,
    /// How many items, agents or cities: 1 to 256, for a tour 3 to 256.
    pub size: u16,
    /// How many weight rows, 1 to 8; of a knapsack alone.
    pub rules: u8,
    /// What the generator of its numbers is seeded with.
    pub seed: u64,
}

impl MakeSpec {
    /// The kind and the sizes of the instance.
    pub(crate) fn sizes(&self) -> Sizes
        ensures { result ≡ sizes_in self.now }
    {
        Sizes {
            kind: self.kind,
            objectives: self.objectives,
            size: self.size,
            rules: self.rules,
        }
    }
}
