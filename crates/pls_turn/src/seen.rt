//! What a pass is known to have done. It has no bytes, and is for the proofs alone.

ghost use Rattle.std.specs.Prelude.{Bool, Option};
ghost use Rattle.pls_archive.specs.View.{View};
ghost use Rattle.pls_turn.specs.declared.terms.Terms.{Terms};

use crate::terms::Terms;
use std::marker::{Model, PhantomData};

/// The view of a pass, whether it holds the turn, and what its archive keeps from the start. A pass that was joined into another
/// has no archive.
pub struct Turn<S> {
    of: PhantomData<S>,
    pub ghost view: { View },
    pub ghost holds: { Bool },
    pub ghost terms: { Option (Terms S) },
}

impl<S> Model for Turn<S> {
    ghost use base.Fml.{ftrue};

    ghost also_owns = { λ _. ftrue };
}
