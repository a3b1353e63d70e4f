//! What a pass has, and the shape of the rows.
ghost use Rattle.std.specs.Prelude.{◌≡◌, ◌<◌, Some, length};
ghost use Rattle.era_core.specs.Views.{rows_in};
ghost use Rattle.era_rows.specs.Passes.{known_of};
ghost use mathlib.Core.Option.{some};
ghost use lib.ListN.{get_elem?};

use crate::law::Law;
use crate::pass::Pass;
use crate::rows::Rows;

impl<L: Law> Rows<L> {
    /// The version and the root row that the last `pin` answered, where the pass has not left it.
    pub fn pinned(&self, pass: &Pass<L>) -> Option<(u64, u32)>
        ensures { result ≡ (known_of pass.now).core.pinned }
    {
        pass.pinned
    }

    pub fn number(&self, pass: &Pass<L>) -> u32
        ensures number { result ≡ pass.now.number }
        ensures known { (known_of pass.now).core.number ≡ Some result }
    {
        pass.number
    }

    /// How many fresh rows the pass has.
    pub fn fresh(&self, pass: &Pass<L>) -> u32
        ensures { result ≡ length (known_of pass.now).core.fresh }
    {
        pass.fresh.len() as u32
    }

    /// The fresh row at place k, in order of taking.
    pub fn fresh_row(&self, pass: &Pass<L>, k: u32) -> u32
        requires { k < length (known_of pass.now).core.fresh }
        ensures { get_elem? (known_of pass.now).core.fresh k ≡ some result }
    {
        pass.fresh[k as usize]
    }

    /// How many retired rows wait to be freed.
    pub fn waiting(&self, pass: &Pass<L>) -> u32
        ensures { result ≡ length (rows_in (known_of pass.now).core.retired) }
    {
        pass.retired.len() as u32
    }

    /// How many rows there are.
    pub fn rows(&self) -> u32
        ensures { result ≡ self.now.rows }
    {
        self.rows
    }

    /// How many passes the start made.
    pub fn passes(&self) -> u32
        ensures { result ≡ self.now.passes }
    {
        self.passes
    }

    pub fn shape(&self) -> u64
        ensures { result ≡ self.now.shape }
    {
        self.shape
    }
}
