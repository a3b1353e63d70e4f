//! The start: the word, the slot, and a pass for each caller.
ghost use Rattle.std.specs.Prelude.{◌≡◌, ℕ, ◌+◌, ◌-◌, ◌≤◌, Some, IfOk, [], ◌∷◌, vec_len};
ghost use Rattle.pls_turn.specs.Turns.{no_calls, first_turn};
ghost use Rattle.pls_turn.specs.Passes.{terms_of, IsSeatOf, IsNewPass};
ghost use Rattle.pls_archive.specs.View.{new_view};
ghost use mathlib.Core.Option.{some};
ghost use lib.ListN.{get_elem?};

use crate::plays::Begin;
use crate::seen::Turn;
use crate::terms::Terms;
use crate::turned::{TurnPass, Turned};
use atomic_table::{Seat, Table};
use pls_archive::Single;
use std::alloc::{AllocError, Global};
use std::snapshot::Snapshot;

impl<S: Single> Turned<S> {
    // The archive, with the seat of a pass that has the lists of all callers.
    fn lay(
        alloc: Global,
        single: S,
        passes: u32,
    ) -> Result<(Turned<S>, Seat<S, Turn<S>>), AllocError>
        requires empty { S.points single ≡ [] }
        requires passes { 1 ≤ passes }
        ensures terms { IfOk result (λ t. ((terms_of t.0).passes ≡ passes) × ((terms_of t.0).single.value ≡ single)) }
        ensures seat { IfOk result (λ t. IsSeatOf t.0 t.1) }
        ensures first { IfOk result (λ t. t.1.me.0 ≡ first_turn (terms_of t.0)) }
    {
        let key = Terms {
            single: Snapshot::of(&single),
            passes,
        };
        let mut slots = Vec::new(alloc);
        slots.push(single)?;
        let Ok((table, seat)) = Table::new(alloc, &[0u64], slots, &key) else {
            return Err(AllocError);
        };
        Ok((Turned { table }, seat))
    }

    // A pass at a seat.
    fn seated(&self, seat: Seat<S, Turn<S>>, number: u32) -> TurnPass<S>
        requires seat { IsSeatOf self.now seat }
        requires view { seat.me.0.view ≡ new_view number }
        ensures { IsNewPass self.now number result }
    {
        let _ = number;
        TurnPass { seat, word: 0 }
    }

    // The passes but the first, each with the list of a caller that the first seat gives away.
    fn split_others(
        &self,
        alloc: Global,
        seat: &mut Seat<S, Turn<S>>,
        passes: u32,
    ) -> Result<Vec<TurnPass<S>>, AllocError>
        requires passes { (1 ≤ passes) × ((terms_of self.now).passes ≡ passes) }
        requires seat { IsSeatOf self.now seat.old }
        requires first { seat.old.me.0 ≡ first_turn (terms_of self.now) }
        ensures seat { IsSeatOf self.now seat.new }
        ensures first { IfOk result (λ _. seat.new.me.0.view ≡ new_view 0) }
        ensures count { IfOk result (λ others. vec_len others + 1 ≡ passes) }
        ensures others { IfOk result (λ others. (i : ℕ) (p : _) → get_elem? others.items i ≡ some p → IsNewPass self.now (i + 1) p) }
    {
        let mut others = Vec::with_capacity(alloc, passes as usize)?;
        for number in 1..passes {
            let other = self.table.shared.split_seat::<Begin>(seat);
            let other = self.seated(other, number);
            others.push(other)?;
        }
        Ok(others)
    }

    /// The archive with so many passes; pass k is that of caller k. An error means that memory ran out.
    pub fn start(
        alloc: Global,
        single: S,
        passes: u32,
    ) -> Result<(Turned<S>, Vec<TurnPass<S>>), AllocError>
        requires empty { S.points single ≡ [] }
        requires passes { (1 ≤ passes) × (passes ≤ 64) }
        ensures terms { IfOk result (λ t. ((terms_of t.0).passes ≡ passes) × ((terms_of t.0).single.value ≡ single)) }
        ensures count { IfOk result (λ t. vec_len t.1 ≡ passes) }
        ensures passes { IfOk result (λ t. (i : ℕ) (p : _) → get_elem? t.1.items i ≡ some p → IsNewPass t.0 i p) }
    {
        let (turned, mut seat) = Turned::lay(alloc, single, passes)?;
        let mut all = turned.split_others(alloc, &mut seat, passes)?;
        let first = turned.seated(seat, 0);
        let Ok(()) = all.insert(0, first) else {
            return Err(AllocError);
        };
        Ok((turned, all))
    }
}
