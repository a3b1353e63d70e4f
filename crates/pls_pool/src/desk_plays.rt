//! The rule of the desk, and what each step tells. These types are for the proofs alone.

use crate::sizes::Sizes;
use crate::tally::Tally;
use atomic_table::{Join, Play, Split, TableRule};

/// The rule of the three words.
pub struct Keeping;

impl TableRule<(), Tally, Sizes> for Keeping {
    ghost use Rattle.pls_pool.specs.Tallies.{started};
    ghost use Rattle.pls_pool.specs.DeskRule.{Kept};

    ghost holds = { λ key s. Kept key s.words s.views };

    ghost first = { λ key. started key.moves key.seats key.seats };
}

/// The first seat gives a share to a new one.
pub struct Begin;

impl Split<Tally> for Begin {
    ghost use Rattle.pls_pool.specs.Tallies.{giving, started};

    ghost left = { giving };

    ghost right = { λ v. started v.moves v.seats 1 };
}

/// A seat takes over what another did.
pub struct Absorb;

impl Join<Tally> for Absorb {
    ghost use Rattle.pls_pool.specs.Tallies.{joining, spent};

    ghost both = { joining };

    ghost spent = { spent };
}

/// One task more.
pub struct Open;

impl Play<(), Tally> for Open {
    ghost use Rattle.std.specs.Prelude.{◌≡◌};
    ghost use Rattle.pls_pool.specs.Tallies.{opening};

    ghost then = { λ st m found n. n ≡ (opening m.0, m.1) };
}

/// One task done.
pub struct Done;

impl Play<(), Tally> for Done {
    ghost use Rattle.std.specs.Prelude.{◌≡◌};
    ghost use Rattle.pls_pool.specs.Tallies.{closing};

    ghost then = { λ st m found n. n ≡ (closing m.0, m.1) };
}

/// The number of the next move.
pub struct Next;

impl Play<(), Tally> for Next {
    ghost use Rattle.std.specs.Prelude.{◌≡◌};
    ghost use Rattle.pls_pool.specs.Tallies.{drawing};

    ghost then = { λ st m found n. n ≡ (drawing found m.0, m.1) };
}

/// A look at the tasks that are not done.
pub struct LookOpen;

impl Play<(), Tally> for LookOpen {
    ghost use Rattle.std.specs.Prelude.{◌≡◌};
    ghost use Rattle.pls_pool.specs.Tallies.{finding};
    ghost use Rattle.pls_pool.specs.DeskRule.{LearnsOpen};

    ghost then = { λ st m found n. (n ≡ (finding found m.0, m.1)) × LearnsOpen found m.0 };
}

/// A look at the causes.
pub struct LookCauses;

impl Play<(), Tally> for LookCauses {
    ghost use Rattle.std.specs.Prelude.{◌≡◌};
    ghost use Rattle.pls_pool.specs.Tallies.{finding};
    ghost use Rattle.pls_pool.specs.DeskRule.{LearnsCauses};

    ghost then = { λ st m found n. (n ≡ (finding found m.0, m.1)) × LearnsCauses found m.0 };
}

/// A cause more.
pub struct Halt;

impl Play<(), Tally> for Halt {
    ghost use Rattle.std.specs.Prelude.{◌≡◌};
    ghost use Rattle.pls_pool.specs.Tallies.{cause_of, halting};

    ghost then = { λ st m found n. n ≡ (halting (cause_of st.first) m.0, m.1) };
}
