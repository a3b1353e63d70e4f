//! The rows.
ghost use Rattle.std.specs.Prelude.{◌≡◌, ◌≤◌};
ghost use Rattle.era_core.specs.Words.{words_len, cell_at};
ghost use Rattle.era_core.specs.declared.sizes.TheConstants.{MOST_ROWS, MOST_PASSES};
ghost use Rattle.era_rows.specs.declared.sizes.TheConstants.{LEAST_ROWS};

use crate::law::Law;
use crate::plays::Keeping;
use crate::sizes::Sizes;
use crate::views::Knows;
use atomic_table::Table;
use std::alloc::Global;

/// Rows of [`WIDTH`](era_core::WIDTH) words that the threads of its passes share.
#[derive(Drop)]
pub struct Rows<L: Law> {
    pub(crate) table: Table<(), Knows<L::Entry>, Sizes, Keeping<L>, Global>,
    pub(crate) shape: u64,
    pub(crate) rows: u32,
    pub(crate) passes: u32,
    // The place of the first word of row 0.
    pub(crate) cells: usize,
    ghost placed: { cells ≡ cell_at passes rows 0 0 },
    ghost sized: { table.shared.key ≡ record { shape = shape; rows = rows; passes = passes } },
    ghost long: { table.shared.table_id.words ≡ words_len passes rows },
    ghost some_rows: { LEAST_ROWS ≤ rows },
    ghost few_rows: { rows ≤ MOST_ROWS },
    ghost some_passes: { 1 ≤ passes },
    ghost few_passes: { passes ≤ MOST_PASSES },
}
