//! Marking the rows that a publication is to retire, and which rows are fresh.
ghost use Rattle.std.specs.Prelude.{◌≡◌, ◌<◌, [], ◌∷◌, ◌++◌};
ghost use Rattle.era_core.specs.Lists.{times, In, is_in};
ghost use Rattle.era_rows.specs.Known.{pinned_copy};
ghost use Rattle.era_rows.specs.Passes.{knows_of, known_of, marked_of, IsPassOf, IsSamePass};

use crate::law::Law;
use crate::pass::Pass;
use crate::rows::Rows;

impl<L: Law> Rows<L> {
    /// Marks a row of the pinned tree, which the next publication retires.
    pub fn mark(&self, pass: &mut Pass<L>, row: u32)
        requires pass { IsPassOf self.now pass.old }
        requires row { In row (pinned_copy (known_of pass.old)).rows }
        requires unmarked { times row (marked_of pass.old) ≡ 0 }
        ensures pass { IsPassOf self.now pass.new }
        ensures same { IsSamePass pass.old pass.new }
        ensures known { knows_of pass.new ≡ knows_of pass.old }
        ensures marked { marked_of pass.new ≡ marked_of pass.old ++ row ∷ [] }
    {
        pass.marked.push_reserved(row);
    }

    /// Takes all marks back.
    pub fn unmark(&self, pass: &mut Pass<L>)
        requires { IsPassOf self.now pass.old }
        ensures pass { IsPassOf self.now pass.new }
        ensures same { IsSamePass pass.old pass.new }
        ensures known { knows_of pass.new ≡ knows_of pass.old }
        ensures marks { marked_of pass.new ≡ [] }
    {
        pass.marked.clear();
    }

    /// Whether a row is one of the pass's fresh ones.
    pub fn is_fresh(&self, pass: &Pass<L>, row: u32) -> bool
        requires pass { IsPassOf self.now pass.now }
        requires row { row < self.now.rows }
        ensures { result ≡ is_in row (known_of pass.now).core.fresh }
    {
        pass.loose[row as usize]
    }
}
