//! The rule of a queue of tasks, and what each step tells. These types are for the proofs alone.

use crate::hand::Hand;
use crossbeam_queue::protocol::{Join, Lesson, Outcome, Protocol, Split};
use std::marker::{Brand, PhantomData};

/// What is put is what is taken and what is left.
pub struct Keeping;

impl<T> Protocol<T, Hand<T>> for Keeping {
    ghost use Rattle.pls_pool.specs.Hands.{first};
    ghost use Rattle.pls_pool.specs.TaskRule.{Keeps};

    ghost holds = { Keeps };

    ghost first = { first };
}

/// The seat that holds all gives a number to a new one.
pub struct Begin;

impl<T> Split<Hand<T>> for Begin {
    ghost use Rattle.pls_pool.specs.Hands.{giving, given};

    ghost left = { giving };

    ghost right = { given };
}

/// A seat takes over what another did.
pub struct Absorb;

impl<T> Join<Hand<T>> for Absorb {
    ghost use Rattle.pls_pool.specs.Hands.{joining, spent};

    ghost both = { joining };

    ghost spent = { spent };
}

/// A task goes into the queue.
pub struct Puts;

impl<T> Outcome<T, Hand<T>> for Puts {
    ghost use Rattle.std.specs.Prelude.{◌≡◌, [], ◌∷◌};
    ghost use Rattle.pls_pool.specs.Hands.{putting};

    ghost then = { λ v x w. w ≡ putting (x ∷ []) v };
}

/// A task comes out of the queue, or there is none.
pub struct Takes;

impl<T> Outcome<T, Hand<T>> for Takes {
    ghost use Rattle.std.specs.Prelude.{[], ◌∷◌};
    ghost use Rattle.pls_pool.specs.TaskRule.{TakesFrom};

    ghost then = { λ v x w. TakesFrom v (x ∷ []) w };
}

impl<T> Lesson<T, Hand<T>> for Takes {
    ghost use Rattle.pls_pool.specs.TaskRule.{Learns};

    ghost fact = { Learns };
}

/// What a seat did, where a step changes it and not the queue. A call at [`Brand`] picks it.
pub trait Said<T> {
    ghost use Rattle.std.specs.Prelude.{Option};
    ghost use Rattle.pls_pool.specs.declared.hand.Hand.{Hand};

    ghost now: { Option (Hand T) };
}

impl<T> Said<T> for Brand {
    ghost use Rattle.std.specs.Prelude.{None};

    ghost now = { None };
}

/// The seat did what was said.
pub struct Notes<W> {
    of: PhantomData<W>,
}

impl<T, W: Said<T>> Split<Hand<T>> for Notes<W> {
    ghost use Rattle.pls_pool.specs.Hands.{noting, spent};

    ghost left = { noting W.now };

    ghost right = { λ v. spent };
}
