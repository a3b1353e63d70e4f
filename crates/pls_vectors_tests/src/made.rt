//! Vectors that the tests make.
ghost use Rattle.std.specs.Prelude.{◌≡◌, length};

use pls_vectors::Vector;
use std::process::Abort;

/// The vector of parts that are in range.
pub fn vector(rt: &impl Abort, parts: &[i64]) -> Vector
    ensures { length result ≡ length parts.now }
{
    Vector::new(parts).expect(rt, "two to four parts in range")
}
