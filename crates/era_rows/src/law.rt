//! The law of the rows.

/// Which entries are accepted, which trees of rows are lawful, and for which accepted entries a lawful tree stands.
/// It also says what the words say that a pass remembers. Each definition takes the shape, a number that the rows keep from
/// their start. A law has no calls.
pub trait Law {
    ghost use Rattle.std.specs.Prelude.{◌≡◌, ℕ, Bool, true, List, [], ◌++◌};
    ghost use Rattle.era_core.specs.Versions.{Copy};
    ghost use Rattle.era_rows.specs.Trees.{first_copy, IsTree};

    /// What a publication or an unpin adds to the list of a caller.
    type Entry;

    /// The pass that made the entry.
    ghost caller: { Self.Entry → ℕ };

    /// How many accepted entries there were then, with this one if it is accepted.
    ghost stamp: { Self.Entry → ℕ };

    /// A publication adds this entry. One that is not accepted goes to the list of its caller alone.
    ghost accepted: { ℕ → Self.Entry → Bool };

    /// The tree of rows may be published.
    ghost lawful: { ℕ → Copy → Type 0 };

    /// The lawful tree stands for these accepted entries.
    ghost stands: { ℕ → Copy → List Self.Entry → Type 0 };

    /// The entry is right at these accepted entries: those before it, if it is accepted, and else those up to its stamp.
    ghost right: { ℕ → Self.Entry → List Self.Entry → Type 0 };

    /// What these words say holds at these accepted entries.
    ghost says: { ℕ → List ℕ → List Self.Entry → Bool };

    /// Each lawful tree is a tree of rows.
    ghost fits: { (shape : ℕ) (c : Copy) → lawful shape c → IsTree c };

    /// Row 0 alone, with all words 0, is lawful, and stands for no entry.
    ghost begins: { (shape : ℕ) → lawful shape first_copy × stands shape first_copy [] };

    /// What words say holds still where there are more entries.
    ghost lasts: { (shape : ℕ) (words : List ℕ) (entries more : List Self.Entry) → says shape words entries ≡ true → says shape words (entries ++ more) ≡ true };
}

/// Names the entry that a publication or an unpin adds, or none. What it names is known to contracts alone.
pub trait Names<L: Law> {
    ghost use Rattle.std.specs.Prelude.{Option};

    ghost entry: { Self → Option L.Entry };
}

/// Names no entry.
#[derive(Drop)]
pub struct Nothing;

impl<L: Law> Names<L> for Nothing {
    ghost use Rattle.std.specs.Prelude.{None};

    ghost entry = { λ _. None };
}
