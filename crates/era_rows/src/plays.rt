//! The rule of the table, and what each step tells. These types are for the proofs alone.

use crate::law::Law;
use crate::sizes::Sizes;
use crate::views::Knows;
use atomic_table::{Join, Play, Split, TableRule};
use std::marker::{Brand, PhantomData};

/// The running rule.
pub struct Keeping<L> {
    law: PhantomData<L>,
}

impl<L: Law> TableRule<(), Knows<L::Entry>, Sizes> for Keeping<L> {
    ghost use Rattle.era_rows.specs.Rule.{Kept, first_knows};

    ghost holds = { λ key s. Kept L.caller L.stamp L.accepted L.lawful L.stands L.right key s.words s.views };

    ghost first = { first_knows };
}

/// The first pass splits off the next one.
pub struct Begin;

impl<E> Split<Knows<E>> for Begin {
    ghost use Rattle.era_rows.specs.Rule.{left_knows, right_knows};

    ghost left = { left_knows };

    ghost right = { right_knows };
}

/// A pass takes over what another has.
pub struct Absorb;

impl<E> Join<Knows<E>> for Absorb {
    ghost use Rattle.era_rows.specs.Rule.{both_knows, spent_knows};

    ghost both = { both_knows };

    ghost spent = { spent_knows };
}

/// What is recorded where a row has an owner already.
pub trait Missing {
    ghost use Rattle.std.specs.Prelude.{Option};
    ghost use Rattle.era_rows.specs.Known.{Known, Shortage};

    ghost full: { Known → Option Shortage };
}

/// Nothing new: the search goes on.
pub struct Goes;

impl Missing for Goes {
    ghost use Rattle.era_rows.specs.Known.{same_shortage};

    ghost full = { same_shortage };
}

/// That no row is free: this was the last look of a search.
pub struct Ends;

impl Missing for Ends {
    ghost use Rattle.era_rows.specs.Known.{shortage};

    ghost full = { shortage };
}

pub struct Take<M> {
    of: PhantomData<M>,
}

impl<E, M: Missing> Play<(), Knows<E>> for Take<M> {
    ghost use Rattle.era_rows.specs.Plays.{took};

    ghost then = { took M.full };
}

pub struct Write;

impl<E> Play<(), Knows<E>> for Write {
    ghost use Rattle.era_rows.specs.Plays.{wrote};

    ghost then = { wrote };
}

pub struct Free;

impl<E> Play<(), Knows<E>> for Free {
    ghost use Rattle.era_rows.specs.Plays.{freed};

    ghost then = { freed };
}

pub struct Note;

impl<E> Play<(), Knows<E>> for Note {
    ghost use Rattle.era_rows.specs.Plays.{noted};

    ghost then = { noted };
}

pub struct Announce;

impl<E> Play<(), Knows<E>> for Announce {
    ghost use Rattle.era_rows.specs.Plays.{announced};

    ghost then = { announced };
}

pub struct Pin<L> {
    law: PhantomData<L>,
}

impl<L: Law> Play<(), Knows<L::Entry>> for Pin<L> {
    ghost use Rattle.era_rows.specs.Plays.{pinned};

    ghost then = { pinned L.caller L.stamp L.accepted L.lawful L.stands L.right };
}

pub struct Read;

impl<E> Play<(), Knows<E>> for Read {
    ghost use Rattle.era_rows.specs.Plays.{has_read};

    ghost then = { has_read };
}

pub struct Look<L> {
    law: PhantomData<L>,
}

impl<L: Law> Play<(), Knows<L::Entry>> for Look<L> {
    ghost use Rattle.era_rows.specs.Plays.{looked};

    ghost then = { looked L.caller L.stamp L.accepted L.lawful L.stands L.right };
}

/// Which entry a step adds, or none. A call at [`Brand`] picks it, so that it is the one that the caller's value names.
pub trait Said<E> {
    ghost use Rattle.std.specs.Prelude.{Option};

    ghost entry: { Option E };
}

impl<E> Said<E> for Brand {
    ghost use Rattle.std.specs.Prelude.{None};

    ghost entry = { None };
}

pub struct Unpin<L, W> {
    of: PhantomData<(L, W)>,
}

impl<L: Law, W: Said<L::Entry>> Play<(), Knows<L::Entry>> for Unpin<L, W> {
    ghost use Rattle.era_rows.specs.Plays.{has_left};

    ghost then = { has_left L.caller L.stamp L.accepted L.lawful L.stands L.right W.entry };
}

pub struct Publish<L, W> {
    of: PhantomData<(L, W)>,
}

impl<L: Law, W: Said<L::Entry>> Play<(), Knows<L::Entry>> for Publish<L, W> {
    ghost use Rattle.era_rows.specs.Plays.{published};

    ghost then = { published L.caller L.stamp L.accepted L.lawful L.stands L.right W.entry };
}
