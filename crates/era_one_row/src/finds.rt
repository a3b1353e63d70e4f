//! Finding a row.
ghost use Rattle.std.specs.Prelude.{◌≡◌, ℕ, Some};
ghost use Rattle.era_rows.specs.Passes.{known_of, IsPassOf, HasSame};
ghost use Rattle.era_one_row.specs.Finding.{FindsRow};

use era_rows::{Law, Pass, Rows};

/// A free row. Where none is found, the pass frees what it retired and no reservation blocks, and looks again. The answer is
/// None only where an owner was found in each row both times, and then the pass has recorded it.
pub fn find_row<L: Law>(rows: &Rows<L>, pass: &mut Pass<L>) -> Option<u32>
    requires pass { IsPassOf rows.now pass.old }
    requires pinned { (n p : ℕ) × ((known_of pass.old).core.pinned ≡ Some (n, p)) }
    ensures pass { IsPassOf rows.now pass.new }
    ensures same { HasSame pass.old pass.new }
    ensures found { FindsRow rows.now.rows (known_of pass.old) (known_of pass.new) result }
{
    if let Some(row) = rows.take(pass) {
        return Some(row);
    }
    rows.tidy(pass);
    rows.take_or_full(pass)
}
