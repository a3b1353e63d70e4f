ghost use Rattle.std.specs.Prelude.{◌≡◌, ◌<◌, All, length};
ghost use Rattle.nd_tree.specs.Closest.{closest};

use pls_vectors::{Range, Vector};

/// The place of the box with the least gap, the first of equals.
pub fn closest(boxes: &[Range], value: &Vector) -> usize
    requires some { 0 < length boxes.now }
    requires parts { All (λ b. length b.ideal ≡ length value.now) boxes.now }
    ensures value { result ≡ closest boxes.now value.now }
    ensures bound { result < length boxes.now }
{
    let mut best = 0;
    let mut least = boxes[0].gap(value);
    for k in 1..boxes.len() {
        let gap = boxes[k].gap(value);
        if gap < least {
            best = k;
            least = gap;
        }
    }
    best
}
