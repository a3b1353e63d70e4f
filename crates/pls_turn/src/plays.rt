//! The rule of the one word and the one slot, and what each step tells. These types are for the proofs alone.

use crate::seen::Turn;
use crate::terms::Terms;
use atomic_table::{Join, Play, Split, TableRule};
use pls_archive::{Rule, Single};
use std::marker::{Brand, PhantomData};

/// The rule.
pub struct Turning;

impl<S: Single> TableRule<S, Turn<S>, Terms<S>> for Turning {
    ghost use Rattle.pls_turn.specs.Turns.{first_turn};
    ghost use Rattle.pls_turn.specs.TurnRule.{Holds};

    ghost holds = { Holds S.Law.Rule S.Single };

    ghost first = { first_turn };
}

/// The first pass gives the list of a caller to a new one.
pub struct Begin;

impl<S> Split<Turn<S>> for Begin {
    ghost use Rattle.pls_turn.specs.Turns.{giving, given};

    ghost left = { giving };

    ghost right = { given };
}

/// A pass takes over the lists of another.
pub struct Absorb;

impl<S> Join<Turn<S>> for Absorb {
    ghost use Rattle.pls_turn.specs.Turns.{joining, spent};

    ghost both = { joining };

    ghost spent = { spent };
}

/// The turn is taken, with the archive, where nobody held it and the word is as it was guessed.
pub struct TakeTurn<S> {
    of: PhantomData<S>,
}

impl<S: Single> Play<S, Turn<S>> for TakeTurn<S> {
    ghost use Rattle.pls_turn.specs.TurnRule.{Takes};

    ghost then = { λ st m found n. Takes S.Law.Rule S.Single st.first m found n };
}

/// The view of a pass after it gave the turn back. A call at [`Brand`] picks it.
pub trait Said {
    ghost use Rattle.pls_archive.specs.View.{View};

    ghost view: { View };
}

impl Said for Brand {
    ghost use Rattle.pls_archive.specs.View.{new_view};

    ghost view = { new_view 0 };
}

/// The turn is given back, with the archive.
pub struct GiveBack<W> {
    of: PhantomData<W>,
}

impl<S, W: Said> Play<S, Turn<S>> for GiveBack<W> {
    ghost use Rattle.std.specs.Prelude.{◌≡◌};
    ghost use Rattle.atomic_table.specs.Table.{rest};
    ghost use Rattle.pls_turn.specs.Turns.{resting};

    ghost then = { λ st m found n. n ≡ (resting W.view m.0, rest m.1) };
}

/// A look at the word, which tells that the view of the pass is consistent.
pub struct Look<S> {
    of: PhantomData<S>,
}

impl<S: Single> Play<S, Turn<S>> for Look<S> {
    ghost use Rattle.pls_turn.specs.TurnRule.{Looks};

    ghost then = { λ st m found n. Looks S.Law.Rule S.Single m n };
}
