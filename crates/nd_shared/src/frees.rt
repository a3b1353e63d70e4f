//! Freeing retired rows after an update that added a point.
ghost use Rattle.std.specs.Prelude.{◌≡◌, ℕ, List};
ghost use Rattle.era_rows.specs.Passes.{known_of};
ghost use Rattle.nd_shared.specs.Reading.{ReadsNone};
ghost use Rattle.nd_shared.specs.Views.{IsReady, FewWait, view_of};

use crate::tree::{Tree, TreePass};

// One in so many rows may wait at each pass.
const WAITING: u32 = 8;

// So many rows wait at most at each pass before it frees what it can, so that rows are taken again soon after their last use.
const MOST_WAITING: u32 = 32;

impl Tree {
    // Frees the retired rows that no pass can read, where many wait.
    pub(crate) fn free_many(&self, pass: &mut TreePass)
        requires ready { IsReady self.now.rows pass.old }
        ensures ready { IsReady self.now.rows pass.new }
        ensures same { view_of pass.new ≡ view_of pass.old }
        ensures full { (known_of pass.new).full ≡ (known_of pass.old).full }
        ensures reads { (rows : List ℕ) → ReadsNone rows (known_of pass.old) (known_of pass.new) }
        ensures waits { FewWait self.now.rows.rows self.now.rows.passes (known_of pass.new) }
    {
        let most = (self.rows.rows() / (WAITING * self.rows.passes())).min(MOST_WAITING);
        if self.rows.waiting(pass) > most {
            self.rows.tidy(pass);
        }
    }
}
