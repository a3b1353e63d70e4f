ghost use Rattle.std.specs.Prelude.{◌≡◌, ◌++◌, IfOk};
ghost use Rattle.pls_problem.specs.Kinds.{instance_of};
ghost use Rattle.pls_problem.specs.Sizes.{AreWithinLimits, AreNumbersOf, amount_count, capacity_count, in_text};

use crate::instance::Instance;
use crate::kind::Kind;
use pls_knapsack::Knapsack;
use pls_perms::{Assignment, Tour};
use std::alloc::{AllocError, Global};

/// The kind and the sizes of an instance, which say how many numbers its text has.
#[derive(Clone, Copy, Debug)]
pub struct Sizes {
    pub kind: Kind,
    pub objectives: u8,
    /// How many items, agents or cities.
    pub size: u16,
    /// How many weight rows; of no meaning but for a knapsack.
    pub rules: u8,
}

impl Sizes {
    /// How many capacities the instance has.
    pub fn capacities(&self) -> u32
        ensures { result ≡ capacity_count self.now }
    {
        match self.kind {
            Kind::Knapsack => self.rules as u32,
            Kind::Assignment | Kind::Tour => 0,
        }
    }

    /// How many profits and weights, costs or edges it has.
    pub fn amounts(&self) -> u32
        requires { AreWithinLimits self.now }
        ensures { result ≡ amount_count self.now }
    {
        let objectives = self.objectives as u32;
        let size = self.size as u32;
        match self.kind {
            Kind::Knapsack => (objectives + self.rules as u32) * size,
            Kind::Assignment => objectives * size * size,
            Kind::Tour => objectives * (size * (size - 1) / 2),
        }
    }

    /// The instance with these numbers.
    pub fn instance(
        &self,
        alloc: Global,
        capacities: &[u32],
        amounts: &[u32],
    ) -> Result<Instance, AllocError>
        requires sizes { AreWithinLimits self.now }
        requires numbers { AreNumbersOf self.now capacities.now amounts.now }
        ensures { IfOk result (λ i. i ≡ instance_of self.now.kind (in_text self.now) (capacities.now ++ amounts.now)) }
    {
        match self.kind {
            Kind::Knapsack => self.knapsack(alloc, capacities, amounts),
            Kind::Assignment => Ok(Instance::Assignment(Assignment::new(
                alloc,
                self.objectives,
                self.size,
                amounts,
            )?)),
            Kind::Tour => Ok(Instance::Tour(Tour::new(
                alloc,
                self.objectives,
                self.size,
                amounts,
            )?)),
        }
    }

    /// The knapsack with these capacities, and these profits and weights.
    fn knapsack(
        &self,
        alloc: Global,
        capacities: &[u32],
        amounts: &[u32],
    ) -> Result<Instance, AllocError>
        requires kind { self.now.kind ≡ Kind.Knapsack }
        requires sizes { AreWithinLimits self.now }
        requires numbers { AreNumbersOf self.now capacities.now amounts.now }
        ensures { IfOk result (λ i. i ≡ instance_of self.now.kind (in_text self.now) (capacities.now ++ amounts.now)) }
    {
        let (profits, weights) = amounts.split_at(self.objectives as usize * self.size as usize);
        Ok(Instance::Knapsack(Knapsack::new(alloc, self.size, profits, capacities, weights)?))
    }
}
