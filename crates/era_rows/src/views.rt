//! What a pass knows. It has no bytes, and is for the proofs alone.

ghost use Rattle.std.specs.Prelude.{ℕ, List};
ghost use Rattle.era_rows.specs.Known.{Known};

use std::marker::{Model, PhantomData};

/// The accepted entries that a pass has seen, the lists of the callers that it holds, and what it knows of the rows.
pub struct Knows<E> {
    of: PhantomData<E>,
    pub ghost seen: { List E },
    pub ghost lists: { List (ℕ × List E) },
    pub ghost view: { Known },
}

impl<E> Model for Knows<E> {
    ghost use base.Fml.{ftrue};

    ghost also_owns = { λ _. ftrue };
}
