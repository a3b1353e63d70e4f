//! What a box tells of a question and of a removal, for values of any lengths.
ghost use Rattle.std.specs.Prelude.{◌≡◌, ◌&&◌};
ghost use Rattle.pls_vectors.specs.Dominance.{weakly_dominates};
ghost use Rattle.pls_vectors.specs.Archive.{dominates};
ghost use Rattle.pls_vectors.specs.Box.{encloses};
ghost use Rattle.nd_tree.specs.Boxes.{AnswersFor, FatesFor};

use pls_vectors::{Range, Vector};

/// What a box tells where it is asked whether an enclosed value covers one.
#[derive(Drop)]
pub enum Told {
    /// This value covers it, and each enclosed one covers this value.
    Covered(Vector),
    /// No enclosed value covers it.
    NotCovered,
    /// Nothing is known.
    Unknown,
}

/// What a box tells of the points that it encloses, where those that a value dominates are removed.
#[derive(Drop)]
pub enum Fate {
    /// The value dominates none.
    Stays,
    /// It dominates each.
    Falls,
    /// Nothing is known.
    Unknown,
}

/// Whether a value covers another; it does not where their lengths differ.
pub fn covers(a: &Vector, b: &Vector) -> bool
    ensures { result ≡ weakly_dominates a.now b.now }
{
    a.len() == b.len() && a.covers(b)
}

/// Whether a value dominates another; it does not where their lengths differ.
pub fn dominates(a: &Vector, b: &Vector) -> bool
    ensures { result ≡ dominates weakly_dominates a.now b.now }
{
    a.len() == b.len() && a.dominates(b)
}

/// Whether the values are equal: each covers the other.
pub fn equals(a: &Vector, b: &Vector) -> bool
    ensures { result ≡ (weakly_dominates a.now b.now && weakly_dominates b.now a.now) }
{
    covers(a, b) && covers(b, a)
}

/// Whether the value lies in the box.
pub fn encloses(range: &Range, value: &Vector) -> bool
    ensures { result ≡ encloses range.now value.now }
{
    let ideal = range.ideal();
    let nadir = range.nadir();
    covers(&ideal, value) && covers(value, &nadir)
}

/// What the box tells of a question: of equal corners and of what lies beyond them it knows the answer.
pub fn ask(range: &Range, value: &Vector) -> Told
    ensures { AnswersFor range.now value.now result }
{
    let nadir = range.nadir();
    if covers(&nadir, value) {
        return Told::Covered(nadir);
    }
    let ideal = range.ideal();
    if covers(&ideal, value) {
        return Told::Unknown;
    }
    Told::NotCovered
}

/// What happens to the points that the box encloses, where those that the value dominates are removed.
pub fn fate_of(range: &Range, value: &Vector) -> Fate
    ensures { FatesFor range.now value.now result }
{
    let nadir = range.nadir();
    if !covers(value, &nadir) {
        return Fate::Stays;
    }
    let ideal = range.ideal();
    if dominates(value, &ideal) {
        return Fate::Falls;
    }
    Fate::Unknown
}
