ghost use Rattle.std.specs.Prelude.{◌≡◌, ◌≢◌, ◌-◌, ◌<◌, ◌↔◌, ◌≤◌, pos, IsTrue, IsSome, IfSome, length, slice_get, take, drop, replicate, Some};
ghost use Rattle.std.specs.List.{list_all};
ghost use Rattle.std.specs.Ordering.{int_cmp};
ghost use Rattle.std.specs.Cmp.Lexicographic.{slice_cmp};
ghost use Rattle.pls_vectors.specs.Archive.{dominates};
ghost use Rattle.pls_vectors.specs.Box.{greater, smaller, at_each};
ghost use Rattle.pls_vectors.specs.Dominance.{weakly_dominates, is_part, IsValue};
ghost use Rattle.pls_vectors.specs.Vector.{places_of};

use std::cmp::Ordering;
use std::marker::Model;

/// The greatest number of parts.
pub(crate) const MOST_PARTS: usize = 4;

/// The greatest size of a part.
pub(crate) const PART_BOUND: i64 = 1 << 40;

/// Two to four objective values, each between `-2^40` and `2^40`. Larger is better in every part.
#[derive(Clone, Copy, Debug, PartialEq, Eq)]
pub struct Vector {
    len: usize,
    parts: [i64; MOST_PARTS],
}

impl Model for Vector {
    ghost use Rattle.std.specs.Prelude.{List, ℕ, ℤ, length, take};
    ghost use Rattle.std.proofs.Common.{ap, ◌∙◌};
    ghost use Rattle.pls_vectors.specs.Vector.{IsStored, places_of, length-stored, places_of-stored};

    ghost Value = { List ℤ };

    ghost view = { λ v. take v.len v.parts };

    ghost invariant = { λ v. IsStored v.len v.parts };

    ghost inverse = { λ parts. record { len = length parts; parts = places_of parts } };

    ghost inverse_ok = { λ v stored.
        ap (λ (n : ℕ). record { len = n; parts = places_of (take v.len v.parts) }) (length-stored v.len v.parts stored)
        ∙ ap (λ (places : List ℤ). record v { parts = places }) (places_of-stored v.len v.parts stored) };
}

impl Vector {
    /// The vector of these parts, or None where there are not two to four or one is out of range.
    pub fn new(parts: &[i64]) -> Option<Vector>
        ensures valid { IsSome result ↔ IsValue parts.now }
        ensures value { IfSome result (λ v. v ≡ parts.now) }
    {
        if !are_parts(parts) {
            return None;
        }
        Some(Vector {
            len: parts.len(),
            parts: places_of(parts),
        })
    }

    /// The vector of the first `len` of these places, of which the others are 0.
    pub fn from_places(len: usize, places: [i64; MOST_PARTS]) -> Vector
        requires some { 2 ≤ len }
        requires few { len ≤ 4 }
        requires in_range { IsTrue (list_all is_part places) }
        requires unused { drop len places ≡ replicate (4 - len) (pos 0) }
        ensures { result ≡ take len places }
    {
        Vector { len, parts: places }
    }

    /// How many parts the vector has, 2 to 4.
    pub fn len(&self) -> usize
        ensures value { result ≡ length self.now }
        ensures some { 2 ≤ result }
        ensures few { result ≤ 4 }
    {
        self.len
    }

    /// The part at place `k`.
    pub fn part(&self, k: usize) -> i64
        requires { k < length self.now }
        ensures value { slice_get self.now k ≡ Some result }
        ensures in_range { IsTrue (is_part result) }
    {
        let places = &self.parts;
        places[k]
    }

    /// The parts, and 0 at each place past them.
    pub(crate) fn places(&self) -> &[i64; MOST_PARTS]
        ensures value { result.now ≡ places_of self.now }
        ensures in_range { IsTrue (list_all is_part result.now) }
    {
        &self.parts
    }

    /// The vector of the greater part at each place.
    pub fn upper(&self, other: &Vector) -> Vector
        requires { length self.now ≡ length other.now }
        ensures { result ≡ at_each greater self.now other.now }
    {
        Vector {
            len: self.len,
            parts: greater_at_each(&self.parts, &other.parts),
        }
    }

    /// The vector of the smaller part at each place.
    pub fn lower(&self, other: &Vector) -> Vector
        requires { length self.now ≡ length other.now }
        ensures { result ≡ at_each smaller self.now other.now }
    {
        Vector {
            len: self.len,
            parts: smaller_at_each(&self.parts, &other.parts),
        }
    }

    /// Whether every part is at least the other's: weak dominance.
    pub fn covers(&self, other: &Vector) -> bool
        requires { length self.now ≡ length other.now }
        ensures { result ≡ weakly_dominates self.now other.now }
    {
        at_least(&self.parts, &other.parts)
    }

    /// Whether the vector covers the other and is not equal to it.
    pub fn dominates(&self, other: &Vector) -> bool
        requires { length self.now ≡ length other.now }
        ensures value { result ≡ dominates weakly_dominates self.now other.now }
        ensures strict { IsTrue result ↔ (IsTrue (weakly_dominates self.now other.now) × (self.now ≢ other.now)) }
    {
        self.covers(other) && !other.covers(self)
    }

    /// The lexicographic order of the parts.
    pub fn lex(&self, other: &Vector) -> Ordering
        requires { length self.now ≡ length other.now }
        ensures { result ≡ slice_cmp int_cmp self.now other.now }
    {
        self.parts.cmp(&other.parts)
    }
}

/// Whether each number of the first array is at least the second's. There is no branch: a difference below
/// 0 sets the sign, and the places past the parts are 0 in both vectors, so they may be compared too.
fn at_least(a: &[i64; MOST_PARTS], b: &[i64; MOST_PARTS]) -> bool
    requires a_in_range { IsTrue (list_all is_part a.now) }
    requires b_in_range { IsTrue (list_all is_part b.now) }
    ensures { result ≡ weakly_dominates a.now b.now }
{
    ((a[0] - b[0]) | (a[1] - b[1]) | (a[2] - b[2]) | (a[3] - b[3])) >= 0
}

fn greater_at_each(a: &[i64; MOST_PARTS], b: &[i64; MOST_PARTS]) -> [i64; MOST_PARTS]
    requires a_in_range { IsTrue (list_all is_part a.now) }
    requires b_in_range { IsTrue (list_all is_part b.now) }
    ensures { result ≡ at_each greater a.now b.now }
{
    [
        greater(a[0], b[0]),
        greater(a[1], b[1]),
        greater(a[2], b[2]),
        greater(a[3], b[3]),
    ]
}

fn smaller_at_each(a: &[i64; MOST_PARTS], b: &[i64; MOST_PARTS]) -> [i64; MOST_PARTS]
    requires a_in_range { IsTrue (list_all is_part a.now) }
    requires b_in_range { IsTrue (list_all is_part b.now) }
    ensures { result ≡ at_each smaller a.now b.now }
{
    [
        smaller(a[0], b[0]),
        smaller(a[1], b[1]),
        smaller(a[2], b[2]),
        smaller(a[3], b[3]),
    ]
}

fn greater(x: i64, y: i64) -> i64
    ensures { result ≡ greater x y }
{
    if x <= y { y } else { x }
}

fn smaller(x: i64, y: i64) -> i64
    ensures { result ≡ smaller x y }
{
    if x <= y { x } else { y }
}

/// Whether these are two to four parts, each in range.
fn are_parts(parts: &[i64]) -> bool
    ensures { IsTrue result ↔ IsValue parts.now }
{
    2 <= parts.len() && parts.len() <= MOST_PARTS && are_in_range(parts)
}

fn are_in_range(parts: &[i64]) -> bool
    ensures { result ≡ list_all is_part parts.now }
{
    parts.iter().all(|x| -PART_BOUND <= *x && *x <= PART_BOUND)
}

/// The parts, and 0 at each place past them.
fn places_of(parts: &[i64]) -> [i64; MOST_PARTS]
    requires { length parts.now ≤ 4 }
    ensures { result ≡ places_of parts.now }
{
    let mut places = [0; MOST_PARTS];
    places[..parts.len()].copy_from_slice(parts);
    places
}
