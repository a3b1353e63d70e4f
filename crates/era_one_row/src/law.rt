//! The smallest law: a lawful tree is one row without links, and it stands for any entries.

use era_rows::{Law, Names};

/// An entry of a caller, with its stamp. It names itself.
#[derive(Drop)]
pub struct Stamped {
    pub caller: u32,
    pub stamp: u64,
}

/// Each entry is accepted. A lawful tree is one row without links, and it stands for any entries. Words that are remembered
/// say that the first of them is the number of a version that was seen.
pub struct OneRow;

impl Law for OneRow {
    ghost use Rattle.std.specs.Prelude.{true};
    ghost use Rattle.era_one_row.specs.OneRow.{IsOneRow, is_seen};
    ghost use Rattle.era_one_row.specs.OneRowLaw.{is_tree, begins as one_row_begins, seen_lasts};

    type Entry = Stamped;

    ghost caller = { λ e. e.caller };

    ghost stamp = { λ e. e.stamp };

    ghost accepted = { λ _ _. true };

    ghost lawful = { λ _ c. IsOneRow c };

    ghost stands = { λ _ _ _. Unit {0} };

    ghost right = { λ _ _ _. Unit {0} };

    ghost says = { λ _ words entries. is_seen words entries };

    ghost fits = { λ _ c one. is_tree c one };

    ghost begins = { λ _. (one_row_begins, tt) };

    ghost lasts = { λ _ words entries more said. seen_lasts words entries more said };
}

impl Names<OneRow> for Stamped {
    ghost use Rattle.std.specs.Prelude.{Some};

    ghost entry = { λ e. Some e };
}
