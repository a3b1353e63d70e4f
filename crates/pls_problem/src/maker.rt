ghost use Rattle.std.specs.Prelude.{◌≡◌, ◌*◌, ◌/◌, ◌^◌, ◌<◌, ◌≤◌, All, IfOk, length, sum};
ghost use Rattle.pls_problem.specs.Made.{IsWithinLimits, drawn, half_sums, made, made_capacities, made_from};
ghost use Rattle.pls_problem.specs.Sizes.{AreWithinLimits, AreNumbersOf, amount_count};

use crate::instance::Instance;
use crate::kind::Kind;
use crate::make_spec::MakeSpec;
use crate::rows::row_of;
use crate::sizes::Sizes;
use rand_core::{Rng, SeedableRng};
use rand_xoshiro::Xoshiro256PlusPlus;
use std::alloc::{AllocError, Global};

/// Makes an instance from a seed: its numbers are 1 to 100, from the words of Xoshiro256++ seeded with
/// it, and the capacity of each weight row is half the row's sum, rounded down.
pub fn make(alloc: Global, spec: MakeSpec) -> Result<Instance, AllocError>
    requires { IsWithinLimits spec }
    ensures { IfOk result (λ instance. instance ≡ made spec) }
{
    let mut words = Xoshiro256PlusPlus::seed_from_u64(spec.seed);
    make_from(alloc, &mut words, &spec.sizes())
}

/// Makes an instance from a stream of words.
fn make_from<R: Rng>(alloc: Global, words: &mut R, sizes: &Sizes) -> Result<Instance, AllocError>
    requires { AreWithinLimits sizes.now }
    ensures { IfOk result (λ i. i ≡ made_from sizes.now (R.stream words.old)) }
{
    let amounts = draw(alloc, words, sizes.amounts())?;
    let capacities = capacities(alloc, sizes, &amounts)?;
    sizes.instance(alloc, &capacities, &amounts)
}

/// The capacities of a knapsack with these profits and weights; none for the other kinds.
fn capacities(alloc: Global, sizes: &Sizes, amounts: &[u32]) -> Result<Vec<u32>, AllocError>
    requires limits { AreWithinLimits sizes.now }
    requires count { length amounts.now ≡ amount_count sizes.now }
    requires small { All (λ n. n ≤ 100) amounts.now }
    ensures value { IfOk result (λ c. c.items ≡ made_capacities sizes.now.kind sizes.now.objectives sizes.now.size sizes.now.rules amounts.now) }
    ensures numbers { IfOk result (λ c. AreNumbersOf sizes.now c.items amounts.now) }
{
    match sizes.kind {
        Kind::Knapsack => {
            let profits = sizes.objectives as usize * sizes.size as usize;
            let sums = half_sums(alloc, sizes.rules, sizes.size, &amounts[profits..])?;
            Ok(sums)
        }
        Kind::Assignment | Kind::Tour => Ok(Vec::new(alloc)),
    }
}

/// Draws so many numbers, each 1 to 100.
fn draw<R: Rng>(alloc: Global, words: &mut R, count: u32) -> Result<Vec<u32>, AllocError>
    ensures drawn { IfOk result (λ numbers. (numbers.items, R.stream words.new) ≡ drawn count (R.stream words.old)) }
    ensures count { IfOk result (λ numbers. length numbers.items ≡ count) }
    ensures small { IfOk result (λ numbers. All (λ n. n ≤ 100) numbers.items) }
{
    let mut numbers = Vec::with_capacity(alloc, count as usize)?;
    for _ in 0..count {
        numbers.push_reserved(1 + (words.next_u64() % 100) as u32);
    }
    Ok(numbers)
}

/// Half the sum of each row of weights, rounded down.
fn half_sums(alloc: Global, rules: u8, items: u16, weights: &[u32]) -> Result<Vec<u32>, AllocError>
    requires rows { length weights.now ≡ rules * items }
    requires few { items ≤ 256 }
    requires small { All (λ n. n ≤ 100) weights.now }
    ensures sums { IfOk result (λ sums. sums.items ≡ half_sums rules items weights.now) }
    ensures small { IfOk result (λ sums. All (λ n. n ≤ 1000000000) sums.items) }
{
    let mut sums = Vec::with_capacity(alloc, rules as usize)?;
    for row in 0..rules {
        sums.push_reserved(half_sum(row_of(weights, items, row)));
    }
    Ok(sums)
}

/// Half the sum of some weights, rounded down.
fn half_sum(weights: &[u32]) -> u32
    requires { sum weights.now < 2 ^ 32 }
    ensures { result ≡ sum weights.now / 2 }
{
    let sum: u32 = weights.iter().sum();
    sum / 2
}
