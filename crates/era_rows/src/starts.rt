//! The start: the words, and a seat for each pass.
ghost use Rattle.std.specs.Prelude.{◌≡◌, ℕ, ◌+◌, ◌<◌, ◌≤◌, IfOk, [], ◌∷◌, vec_len};
ghost use Rattle.era_rows.specs.Rule.{knowing};
ghost use Rattle.era_rows.specs.Passes.{IsStarted, started_known};
ghost use mathlib.Core.Option.{some};
ghost use lib.ListN.{get_elem?};

use crate::freed::Freed;
use crate::law::Law;
use crate::memory::MEMORY_PLACES;
use crate::pass::Pass;
use crate::plays::Begin;
use crate::rows::Rows;
use crate::sizes::{LEAST_ROWS, Sizes};
use crate::views::Knows;
use atomic_table::{Seat, Table};
use era_core::{MOST_PASSES, MOST_ROWS, first_words};
use std::alloc::{AllocError, Global};
use std::collections::VecDeque;

impl<L: Law> Rows<L> {
    // The rows, with the seat of the first pass.
    fn lay(
        alloc: Global,
        shape: u64,
        rows: u32,
        passes: u32,
    ) -> Result<(Rows<L>, Seat<(), Knows<L::Entry>>), AllocError>
        requires rows { (LEAST_ROWS ≤ rows) × (rows ≤ MOST_ROWS) }
        requires passes { (1 ≤ passes) × (passes ≤ MOST_PASSES) }
        ensures rows { IfOk result (λ t. (t.0.shape ≡ shape) × (t.0.rows ≡ rows) × (t.0.passes ≡ passes)) }
        ensures seat { IfOk result (λ t. (t.1.table_id ≡ t.0.table.shared.table_id) × (t.1.me ≡ (knowing [] ((0, []) ∷ []) (started_known shape rows passes 1 0), []))) }
    {
        let words = first_words(alloc, rows, passes)?;
        let key = Sizes {
            shape,
            rows,
            passes,
        };
        let (table, seat) = Table::of_words(alloc, words.as_slice(), &key)?;
        let all = Rows {
            table,
            shape,
            rows,
            passes,
            cells: 1 + passes as usize + rows as usize,
        };
        Ok((all, seat))
    }

    // The pass at a seat, with room for all rows.
    fn seated(
        &self,
        alloc: Global,
        seat: Seat<(), Knows<L::Entry>>,
        number: u32,
    ) -> Result<Pass<L>, AllocError>
        requires table { seat.table_id ≡ self.now.table.shared.table_id }
        requires number { number < self.now.passes }
        requires starts { seat.me ≡ (knowing [] ((number, []) ∷ []) (started_known self.now.shape self.now.rows self.now.passes self.now.passes number), []) }
        ensures { IfOk result (λ p. IsStarted self.now number p) }
    {
        let rows = self.rows as usize;
        Ok(Pass {
            seat,
            number,
            freed: Freed::none(),
            next: number * self.rows / self.passes,
            pinned: None,
            fresh: Vec::with_capacity(alloc, rows)?,
            loose: Vec::from_elem(alloc, false, rows)?,
            reached: Vec::with_capacity(alloc, rows)?,
            marked: Vec::with_capacity(alloc, rows)?,
            retired: VecDeque::with_capacity(alloc, rows)?,
            work: Vec::with_capacity(alloc, 2 * rows)?,
            memory: [None; MEMORY_PLACES],
        })
    }

    // The passes after the first one, whose seat splits off theirs.
    fn split_others(
        &self,
        alloc: Global,
        seat: &mut Seat<(), Knows<L::Entry>>,
    ) -> Result<Vec<Pass<L>>, AllocError>
        requires table { seat.old.table_id ≡ self.now.table.shared.table_id }
        requires first { seat.old.me ≡ (knowing [] ((0, []) ∷ []) (started_known self.now.shape self.now.rows self.now.passes 1 0), []) }
        ensures table { seat.new.table_id ≡ self.now.table.shared.table_id }
        ensures first { IfOk result (λ _. seat.new.me ≡ (knowing [] ((0, []) ∷ []) (started_known self.now.shape self.now.rows self.now.passes self.now.passes 0), [])) }
        ensures count { IfOk result (λ others. vec_len others + 1 ≡ self.now.passes) }
        ensures others { IfOk result (λ others. (i : ℕ) (p : _) → get_elem? others.items i ≡ some p → IsStarted self.now (i + 1) p) }
    {
        let mut others = Vec::with_capacity(alloc, self.passes as usize)?;
        for number in 1..self.passes {
            let other = self.table.shared.split_seat::<Begin>(seat);
            others.push(self.seated(alloc, other, number)?)?;
        }
        Ok(others)
    }

    /// So many rows, with all words 0, and a pass for each thread; pass k is the k-th. Row 0 is version 0, and all other rows
    /// are free. The shape is a number that the law reads. All that a pass needs later is reserved here, 37 bytes for each row
    /// besides its seat. The first search of pass k begins at row k * rows / passes. An error means that memory ran out.
    pub fn start(
        alloc: Global,
        shape: u64,
        rows: u32,
        passes: u32,
    ) -> Result<(Rows<L>, Vec<Pass<L>>), AllocError>
        requires rows { (LEAST_ROWS ≤ rows) × (rows ≤ MOST_ROWS) }
        requires passes { (1 ≤ passes) × (passes ≤ MOST_PASSES) }
        ensures sizes { IfOk result (λ t. (t.0.shape ≡ shape) × (t.0.rows ≡ rows) × (t.0.passes ≡ passes)) }
        ensures count { IfOk result (λ t. vec_len t.1 ≡ passes) }
        ensures passes { IfOk result (λ t. (i : ℕ) (p : _) → get_elem? t.1.items i ≡ some p → IsStarted t.0 i p) }
    {
        let (all, mut seat) = Rows::lay(alloc, shape, rows, passes)?;
        let mut seats = all.split_others(alloc, &mut seat)?;
        let first = all.seated(alloc, seat, 0)?;
        let Ok(()) = seats.insert(0, first) else {
            return Err(AllocError);
        };
        Ok((all, seats))
    }
}
