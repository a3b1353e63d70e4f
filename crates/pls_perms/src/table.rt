ghost use Rattle.std.specs.Prelude.{◌≡◌, ℕ, ◌+◌, ◌*◌, ◌<◌, ◌≤◌, ◌^◌, IfOk, length, slice_index};
ghost use Rattle.pls_perms.specs.Table.{IsTableOf};

use crate::sums::{MOST_OBJECTIVES, Sums};
use std::alloc::{AllocError, Global};

/// The numbers at each place, from lists of `long` numbers that stand one after another.
pub fn table_of(alloc: Global, long: usize, numbers: &[u32]) -> Result<Vec<Sums>, AllocError>
    requires { long ≤ 65536 }
    ensures { IfOk result (λ table. IsTableOf long long numbers.now table.items) }
{
    let mut table = Vec::new(alloc);
    for place in 0..long {
        table.push(numbers_at(long, numbers, place))?;
    }
    Ok(table)
}

/// The numbers at one place, and 0 past the lists.
fn numbers_at(long: usize, numbers: &[u32], place: usize) -> Sums
    requires few { long ≤ 65536 }
    requires within { place < long }
    ensures { (k : ℕ) → k < 4 → slice_index result k ≡ slice_index numbers.now (k * long + place) }
{
    let mut at_place = [0; MOST_OBJECTIVES];
    for k in 0..MOST_OBJECTIVES {
        let i = k * long + place;
        if i < numbers.len() {
            at_place[k] = numbers[i];
        }
    }
    at_place
}
