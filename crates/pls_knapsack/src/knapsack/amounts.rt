ghost use Rattle.std.specs.Prelude.{◌≡◌, ℕ, ◌+◌, ◌-◌, ◌*◌, ◌<◌, ◌≤◌, ◌^◌, pos, length, slice_index, map, nat_le};
ghost use Rattle.std.specs.List.{range_with_len, list_all};

use pls_vectors::Vector;

/// The most profit rows.
pub const PROFIT_ROWS: usize = 4;

/// The most weight rows.
pub const WEIGHT_ROWS: usize = 8;

/// A number for each profit row and each weight row: of an item, or summed over items. It is 0 in a row
/// that the instance does not have, so that each row takes the same few instructions.
#[derive(Clone, Copy, Debug)]
pub struct Amounts {
    pub profits: [u32; PROFIT_ROWS],
    pub weights: [u32; WEIGHT_ROWS],
}

/// Adds to each sum its amount.
pub fn add<const N: usize>(sums: &mut [u32; N], amounts: &[u32; N])
    requires { (row : ℕ) → row < N → slice_index sums.old row + slice_index amounts.now row < 2 ^ 32 }
    ensures { (row : ℕ) → row < N → slice_index sums.new row ≡ slice_index sums.old row + slice_index amounts.now row }
{
    for row in 0..N {
        sums[row] += amounts[row];
    }
}

/// Takes from each sum its amount.
pub fn subtract<const N: usize>(sums: &mut [u32; N], amounts: &[u32; N])
    requires { (row : ℕ) → row < N → slice_index amounts.now row ≤ slice_index sums.old row }
    ensures { (row : ℕ) → row < N → slice_index sums.new row + slice_index amounts.now row ≡ slice_index sums.old row }
{
    for row in 0..N {
        sums[row] -= amounts[row];
    }
}

/// Whether each weight is at most the room in its row. There is no branch: a difference below 0 sets the
/// highest bit.
pub fn fit(weights: &[u32; WEIGHT_ROWS], rooms: &[u32; WEIGHT_ROWS]) -> bool
    requires weights { (row : ℕ) → row < 8 → slice_index weights.now row < 2 ^ 31 }
    requires rooms { (row : ℕ) → row < 8 → slice_index rooms.now row < 2 ^ 31 }
    ensures { result ≡ list_all (λ row. nat_le (slice_index weights.now row) (slice_index rooms.now row)) (range_with_len 0 8) }
{
    let mut differences = 0;
    for row in 0..WEIGHT_ROWS {
        differences |= rooms[row].wrapping_sub(weights[row]);
    }
    differences < 1 << 31
}

/// The vector of the first sums, of which the others are 0.
pub fn vector_of(sums: &[u32; PROFIT_ROWS], rows: u8) -> Vector
    requires some { 2 ≤ rows }
    requires few { rows ≤ 4 }
    requires unused { (row : ℕ) → rows ≤ row → row < 4 → slice_index sums.now row ≡ 0 }
    ensures { result ≡ map (λ row. pos (slice_index sums.now row)) (range_with_len 0 rows) }
{
    let places = [
        sums[0] as i64,
        sums[1] as i64,
        sums[2] as i64,
        sums[3] as i64,
    ];
    Vector::from_places(rows as usize, places)
}
