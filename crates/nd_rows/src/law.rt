//! The law of ND-trees in rows.

use era_rows::{Law, Names};
use pls_archive::{Entry, Point};

/// A lawful tree of rows is an ND-tree, which stands for the nondominated archive of the points that were added. An entry is a
/// call with the reply of that archive, and those that added a point are accepted. Words that a pass remembers are the parts of
/// the value of a point that was added. The shape of the rows is the number of objectives.
pub struct NdLaw;

impl Law for NdLaw {
    ghost use Rattle.pls_archive.specs.History.{accepts};
    ghost use Rattle.nd_rows.specs.Entries.{IsRight, is_submitted};
    ghost use Rattle.nd_rows.specs.Layout.{IsLawful, StandsFor};
    ghost use Rattle.nd_rows.specs.NdLaws.{is_tree, begins as nd_begins, submitted_lasts};

    type Entry = Entry;

    ghost caller = { λ e. e.caller };

    ghost stamp = { λ e. e.stamp };

    ghost accepted = { λ _ e. accepts e };

    ghost lawful = { λ objectives c. IsLawful objectives c };

    ghost stands = { λ objectives c entries. StandsFor objectives c entries };

    ghost right = { λ objectives e entries. IsRight objectives e entries };

    ghost says = { λ objectives words entries. is_submitted objectives words entries };

    ghost fits = { λ objectives c lawful. is_tree objectives c lawful };

    ghost begins = { λ objectives. nd_begins objectives };

    ghost lasts = { λ objectives words entries more said. submitted_lasts objectives words entries more said };
}

/// An update of a caller that added a point, by which so many members were removed. It names its entry.
#[derive(Drop)]
pub struct Adds {
    pub caller: u32,
    pub stamp: u64,
    pub point: Point,
    pub removed: u32,
}

impl Names<NdLaw> for Adds {
    ghost use Rattle.std.specs.Prelude.{Some};
    ghost use Rattle.nd_rows.specs.Entries.{added};

    ghost entry = { λ a. Some (added a.caller a.stamp a.point a.removed) };
}
