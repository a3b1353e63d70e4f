//! The rule of a queue of tasks, for deques. These impls are for the proofs alone.

use crate::hand::Hand;
use crate::task_plays::{Keeping, Puts, Takes};
use crossbeam_deque::protocol::{Lesson, Outcome, Protocol};

impl<T> Protocol<T, Hand<T>> for Keeping {
    ghost use Rattle.pls_pool.specs.Hands.{first, spent};
    ghost use Rattle.pls_pool.specs.TaskRule.{Keeps};

    ghost holds = { Keeps };

    ghost first = { first };

    ghost guest = { spent };
}

impl<T> Outcome<T, Hand<T>> for Puts {
    ghost use Rattle.std.specs.Prelude.{◌≡◌};
    ghost use Rattle.pls_pool.specs.Hands.{putting};

    ghost then = { λ v xs w. w ≡ putting xs v };
}

impl<T> Outcome<T, Hand<T>> for Takes {
    ghost use Rattle.std.specs.Prelude.{[]};
    ghost use Rattle.pls_pool.specs.TaskRule.{Learns, TakesFrom};

    ghost then = { TakesFrom };

    ghost empty = { λ v. Learns v [] };
}

impl<T> Lesson<T, Hand<T>> for Takes {
    ghost use Rattle.pls_pool.specs.TaskRule.{Learns};

    ghost fact = { Learns };
}
