//! Joining two passes.
ghost use Rattle.std.specs.Prelude.{◌≡◌, Some, None};
ghost use Rattle.era_rows.specs.Known.{Shortage};
ghost use Rattle.era_rows.specs.Passes.{known_of};
ghost use Rattle.era_one_row.specs.Ready.{IsIdle};

use crate::law::OneRow;
use era_rows::{Pass, Rows};

/// The pass takes over what another has. What it recorded where no row was free it keeps, and where it recorded nothing it
/// takes over what the other did.
pub fn join(rows: &Rows<OneRow>, pass: &mut Pass<OneRow>, other: Pass<OneRow>)
    requires pass { IsIdle rows.now pass.old }
    requires other { IsIdle rows.now other }
    ensures idle { IsIdle rows.now pass.new }
    ensures number { pass.new.number ≡ pass.old.number }
    ensures keeps { (s : Shortage) → (known_of pass.old).full ≡ Some s → (known_of pass.new).full ≡ Some s }
    ensures takes_over { (known_of pass.old).full ≡ None → (known_of pass.new).full ≡ (known_of other).full }
{
    rows.join(pass, other);
}
