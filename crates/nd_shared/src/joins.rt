//! Joining a pass of the shared tree into another.
ghost use Rattle.std.specs.Prelude.{◌⊎◌, ◌↔◌};
ghost use Rattle.era_rows.specs.Passes.{known_of};
ghost use Rattle.pls_archive.specs.Reply.{nondominated};
ghost use Rattle.pls_archive.specs.View.{IsConsistent, Joins};
ghost use Rattle.nd_update.specs.Counted.{KeepsShortage};
ghost use Rattle.nd_shared.specs.Views.{IsReady, view_of};

use crate::tree::{Tree, TreePass};

impl Tree {
    // The pass takes over the rows and the lists of another, and keeps the longer observed prefix. It keeps an evidence that no row
    // was free, where one of them does.
    pub(crate) fn join(&self, pass: &mut TreePass, other: TreePass)
        requires ready { IsReady self.now.rows pass.old }
        requires other { IsReady self.now.rows other }
        ensures ready { IsReady self.now.rows pass.new }
        ensures joins { Joins (view_of pass.old) (view_of other) (view_of pass.new) }
        ensures consistent { IsConsistent nondominated self.now.rows.passes (view_of pass.new) }
        ensures full { KeepsShortage (known_of pass.new) ↔ (KeepsShortage (known_of pass.old) ⊎ KeepsShortage (known_of other)) }
    {
        self.rows.join(pass, other);
    }
}
