//! The pass that a search left.
ghost use Rattle.std.specs.Prelude.{◌≡◌, None, Some};
ghost use Rattle.pls_top.specs.Kept.{kept_of};

use nd_shared::TreePass;
use std::marker::Model;

/// Keeps the pass that was left after a search, and no entry. Contracts see its view, which has the lists of all workers, and what
/// it knows of the rows.
#[derive(Drop)]
pub struct Journal {
    pass: Option<TreePass>,
}

impl Model for Journal {
    ghost use Rattle.std.specs.Prelude.{Option, option_map};
    ghost use Rattle.pls_top.specs.Kept.{Kept, kept_of};

    ghost Value = { Option Kept };

    ghost view = { λ j. option_map kept_of j.pass };
}

impl Journal {
    /// A journal that keeps no pass.
    pub fn new() -> Journal
        ensures { result ≡ None }
    {
        Journal { pass: None }
    }

    /// Keeps this pass in the place of any other.
    pub(crate) fn keep(&mut self, pass: TreePass)
        ensures { self.new ≡ Some (kept_of pass) }
    {
        self.pass = Some(pass);
    }
}
