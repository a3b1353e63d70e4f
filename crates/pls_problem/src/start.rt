ghost use Rattle.std.specs.Prelude.{◌≡◌, ◌≤◌, true, All, IfOk, length};
ghost use Rattle.std.specs.List.{range_with_len};
ghost use Rattle.pls_problem.specs.Instance.{feasible, size};
ghost use Rattle.pls_problem.specs.Starts.{shuffled_order, start_of, starts, starts_from};

use crate::instance::Instance;
use crate::shuffle::shuffle;
use pls_vectors::Sol;
use rand_core::{Rng, SeedableRng};
use rand_xoshiro::Xoshiro256PlusPlus;
use std::alloc::{AllocError, Global};

/// The starts of a search. One stream of words, of Xoshiro256++ seeded with the seed, serves all of
/// them in order, and each begins with a shuffle of 0, 1, .., n-1: of a knapsack it is what a greedy fill
/// takes along that, of the other kinds the permutation itself. In a tour city 0 stays first.
pub fn starts(
    alloc: Global,
    instance: &Instance,
    seed: u64,
    count: u32,
) -> Result<Vec<Sol>, AllocError>
    ensures value { IfOk result (λ sols. sols.items ≡ starts instance.now seed count) }
    ensures count { IfOk result (λ sols. length sols.items ≡ count) }
    ensures feasible { IfOk result (λ sols. All (λ s. feasible instance.now s ≡ true) sols.items) }
{
    let mut words = Xoshiro256PlusPlus::seed_from_u64(seed);
    starts_from(alloc, instance, &mut words, count)
}

/// So many starts from one stream of words.
fn starts_from<R: Rng>(
    alloc: Global,
    instance: &Instance,
    words: &mut R,
    count: u32,
) -> Result<Vec<Sol>, AllocError>
    ensures value { IfOk result (λ sols. sols.items ≡ starts_from instance.now count (R.stream words.old)) }
    ensures count { IfOk result (λ sols. length sols.items ≡ count) }
    ensures feasible { IfOk result (λ sols. All (λ s. feasible instance.now s ≡ true) sols.items) }
{
    let mut order = vec![in alloc; 0; instance.size() as usize]?;
    let mut starts = Vec::with_capacity(alloc, count as usize)?;
    for _ in 0..count {
        starts.push_reserved(draw_start(instance, words, &mut order));
    }
    Ok(starts)
}

/// The start that a shuffle of 0, 1, .., n-1 stands for.
fn draw_start<R: Rng>(instance: &Instance, words: &mut R, order: &mut [u16]) -> Sol
    requires items { length order.old ≡ size instance.now }
    requires some { 1 ≤ length order.old }
    requires few { length order.old ≤ 256 }
    ensures value { result ≡ start_of instance.now (shuffled_order instance.now (R.stream words.old)).0 }
    ensures rest { R.stream words.new ≡ (shuffled_order instance.now (R.stream words.old)).1 }
    ensures feasible { feasible instance.now result ≡ true }
{
    set_in_order(order);
    shuffle(words, order, instance.least_shuffled());
    instance.start_along(order)
}

/// Sets the entries to 0, 1, .., n-1.
fn set_in_order(entries: &mut [u16])
    requires { length entries.old ≤ 256 }
    ensures { entries.new ≡ range_with_len 0 (length entries.old) }
{
    for (place, entry) in entries.iter_mut().enumerate() {
        *entry = place as u16;
    }
}
