ghost use Rattle.std.specs.Prelude.{◌≡◌, ◌^◌, ◌≤◌, ◌*◌, IsTrue, List, ℤ, All, length};
ghost use Rattle.std.specs.List.{list_all};
ghost use Rattle.pls_vectors.specs.Box.{box_of, grown, encloses, decision, Tells, gap, gap_between, part_gap};
ghost use Rattle.pls_vectors.specs.Dominance.{is_part};

use crate::Vector;
use crate::vector::MOST_PARTS;
use std::marker::Model;

/// The bounding box of some vectors of one length: its ideal point has the greatest part of them at each place, its nadir point
/// the least.
#[derive(Clone, Copy, Debug, PartialEq, Eq)]
pub struct Range {
    ideal: Vector,
    nadir: Vector,
}

/// What a box tells about a value and the values that it encloses.
#[derive(Clone, Copy, Debug, PartialEq, Eq)]
pub enum Decision {
    /// Each of them covers the value.
    AllCover,
    /// The value covers each of them.
    CoversAll,
    /// None covers the value, and it covers none.
    Apart,
    /// Nothing is known.
    Mixed,
}

impl Model for Range {
    ghost use Rattle.std.specs.Prelude.{IsTrue};
    ghost use Rattle.pls_vectors.specs.Box.{Box};
    ghost use Rattle.pls_vectors.specs.Dominance.{weakly_dominates};

    ghost Value = { Box };

    ghost view = { λ r. record { ideal = r.ideal; nadir = r.nadir } };

    ghost invariant = { λ r. IsTrue (weakly_dominates r.ideal r.nadir) };

    ghost inverse = { λ b. record { ideal = b.ideal; nadir = b.nadir } };
}

impl Range {
    /// The box of one vector.
    pub fn of(v: Vector) -> Range
        ensures { result ≡ box_of v }
    {
        let v = &v;
        Range {
            ideal: *v,
            nadir: *v,
        }
    }

    /// Grows the box as far as it must to enclose the vector too.
    pub fn grow(&mut self, v: Vector)
        requires { length v ≡ length self.old.ideal }
        ensures value { self.new ≡ grown self.old v }
        ensures len { length self.new.ideal ≡ length self.old.ideal }
        ensures new { IsTrue (encloses self.new v) }
        ensures others { (w : List ℤ) → IsTrue (encloses self.old w) → IsTrue (encloses self.new w) }
    {
        let v = &v;
        self.ideal = self.ideal.upper(v);
        self.nadir = self.nadir.lower(v);
    }

    /// The ideal point: at each place the greatest part.
    pub fn ideal(&self) -> Vector
        ensures { result ≡ self.now.ideal }
    {
        self.ideal
    }

    /// The nadir point: at each place the least part.
    pub fn nadir(&self) -> Vector
        ensures { result ≡ self.now.nadir }
    {
        self.nadir
    }

    /// What the box tells about a value. It holds of every list of values that the box encloses.
    pub fn decide(&self, y: &Vector) -> Decision
        requires { length y.now ≡ length self.now.ideal }
        ensures answer { result ≡ decision self.now y.now }
        ensures promise { (values : List (List ℤ)) → All (λ w. IsTrue (encloses self.now w)) values → Tells result values y.now }
    {
        if self.nadir.covers(y) {
            Decision::AllCover
        } else if y.covers(&self.ideal) {
            Decision::CoversAll
        } else if !self.ideal.covers(y) && !y.covers(&self.nadir) {
            Decision::Apart
        } else {
            Decision::Mixed
        }
    }

    /// The sum over the parts of the square of twice the part less the ideal's and the nadir's. It is the less the closer the vector is
    /// to the middle of the box.
    pub fn gap(&self, y: &Vector) -> u128
        requires { length y.now ≡ length self.now.ideal }
        ensures value { result ≡ gap self.now y.now }
        ensures bound { result ≤ 2 ^ 86 }
    {
        gap_between(self.ideal.places(), self.nadir.places(), y.places())
    }
}

/// The sum of the gaps over all places.
fn gap_between(
    ideal: &[i64; MOST_PARTS],
    nadir: &[i64; MOST_PARTS],
    parts: &[i64; MOST_PARTS],
) -> u128
    requires ideal { IsTrue (list_all is_part ideal.now) }
    requires nadir { IsTrue (list_all is_part nadir.now) }
    requires parts { IsTrue (list_all is_part parts.now) }
    ensures value { result ≡ gap_between ideal.now nadir.now parts.now }
    ensures bound { result ≤ 2 ^ 86 }
{
    let mut sum = 0;
    for k in 0..MOST_PARTS {
        sum += part_gap(ideal[k], nadir[k], parts[k]);
    }
    sum
}

fn part_gap(ideal: i64, nadir: i64, part: i64) -> u128
    requires ideal { IsTrue (is_part ideal) }
    requires nadir { IsTrue (is_part nadir) }
    requires part { IsTrue (is_part part) }
    ensures value { result ≡ part_gap ideal nadir part }
    ensures bound { result ≤ 2 ^ 84 }
{
    let off_middle = (2 * part - ideal - nadir).unsigned_abs() as u128;
    off_middle * off_middle
}
