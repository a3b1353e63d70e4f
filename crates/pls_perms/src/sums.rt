ghost use Rattle.std.specs.Prelude.{◌≡◌, ℕ, ◌+◌, ◌<◌, ◌≤◌, ◌^◌, pos, neg_ℤ, map, slice_index};
ghost use Rattle.std.specs.List.{range_with_len};

use pls_vectors::Vector;

/// The most objectives.
pub const MOST_OBJECTIVES: usize = 4;

/// A number for each objective: at a place of the table, or summed. It is 0 at an objective that the
/// instance does not have, so that each takes the same few instructions.
pub type Sums = [u32; MOST_OBJECTIVES];

/// Adds to each sum its number.
pub fn add(sums: &mut Sums, numbers: &Sums)
    requires { (k : ℕ) → k < 4 → slice_index sums.old k + slice_index numbers.now k < 2 ^ 32 }
    ensures { (k : ℕ) → k < 4 → slice_index sums.new k ≡ slice_index sums.old k + slice_index numbers.now k }
{
    for k in 0..MOST_OBJECTIVES {
        sums[k] += numbers[k];
    }
}

/// The sums once two numbers of each objective are added, and two others taken away.
pub fn changed(
    sums: &Sums,
    added: &Sums,
    added_too: &Sums,
    removed: &Sums,
    removed_too: &Sums,
) -> Sums
    requires fit { (k : ℕ) → k < 4 → slice_index sums.now k + (slice_index added.now k + slice_index added_too.now k) < 2 ^ 32 }
    requires kept { (k : ℕ) → k < 4
        → slice_index removed.now k + slice_index removed_too.now k ≤ slice_index sums.now k + (slice_index added.now k + slice_index added_too.now k) }
    ensures { (k : ℕ) → k < 4
        → slice_index result k + (slice_index removed.now k + slice_index removed_too.now k)
        ≡ slice_index sums.now k + (slice_index added.now k + slice_index added_too.now k) }
{
    let mut changed = [0; MOST_OBJECTIVES];
    for k in 0..MOST_OBJECTIVES {
        changed[k] = sums[k] + (added[k] + added_too[k]) - (removed[k] + removed_too[k]);
    }
    changed
}

/// The vector of minus the first sums, of which the others are 0.
pub fn vector_of(sums: &Sums, objectives: u8) -> Vector
    requires some { 2 ≤ objectives }
    requires few { objectives ≤ 4 }
    requires unused { (k : ℕ) → objectives ≤ k → k < 4 → slice_index sums.now k ≡ 0 }
    ensures { result ≡ map (λ k. neg_ℤ (pos (slice_index sums.now k))) (range_with_len 0 objectives) }
{
    let places = [
        minus(sums[0]),
        minus(sums[1]),
        minus(sums[2]),
        minus(sums[3]),
    ];
    Vector::from_places(objectives as usize, places)
}

fn minus(x: u32) -> i64
    ensures { result ≡ neg_ℤ (pos x) }
{
    -(x as i64)
}
