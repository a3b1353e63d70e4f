ghost use Rattle.std.specs.Prelude.{◌≡◌, ℕ, ◌+◌, ◌-◌, ◌*◌, ◌<◌, ◌≤◌, ◌++◌, IfOk, length, slice_index, replicate};
ghost use Rattle.pls_knapsack.specs.Table.{IsTableOf};

use super::amounts::{Amounts, WEIGHT_ROWS};
use std::alloc::{AllocError, Global};

/// The amounts of each item, from rows of `items` numbers that stand one after another.
pub fn table_of(
    alloc: Global,
    items: u16,
    profits: &[u32],
    weights: &[u32],
) -> Result<Vec<Amounts>, AllocError>
    ensures { IfOk result (λ table. IsTableOf items items profits.now weights.now table.items) }
{
    let mut table = Vec::new(alloc);
    for item in 0..items {
        table.push(Amounts {
            profits: column(profits, items, item),
            weights: column(weights, items, item),
        })?;
    }
    Ok(table)
}

/// What an item has in each row, and 0 past the rows.
fn column<const N: usize>(rows: &[u32], items: u16, item: u16) -> [u32; N]
    requires { N ≤ 8 }
    ensures { (row : ℕ) → row < N → slice_index result row ≡ slice_index rows.now (row * items + item) }
{
    let mut column = [0; N];
    for row in 0..N {
        let place = row * items as usize + item as usize;
        if place < rows.len() {
            column[row] = rows[place];
        }
    }
    column
}

/// The capacities, and 0 past them.
pub fn padded(capacities: &[u32]) -> [u32; WEIGHT_ROWS]
    requires { length capacities.now ≤ 8 }
    ensures { result ≡ capacities.now ++ replicate (8 - length capacities.now) 0 }
{
    let mut padded = [0; WEIGHT_ROWS];
    padded[..capacities.len()].copy_from_slice(capacities);
    padded
}
