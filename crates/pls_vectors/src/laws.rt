ghost use Rattle.std.specs.Prelude.{◌≡◌, ℤ, List, IsTrue};
ghost use Rattle.pls_vectors.specs.Archive.{IsPreorder};
ghost use Rattle.pls_vectors.specs.ArchiveLaws.{CoversTheSame, GrowsBySubmission, IsIdempotent, StandsForSubmissions, HasIncomparableMembers, HasSubmissionsOnly};
ghost use Rattle.pls_vectors.specs.Dominance.{weakly_dominates};

/// Weak dominance is a partial order on the values. The contract holds the laws: a call does nothing.
pub fn dominance_laws()
    ensures preorder { IsPreorder weakly_dominates }
    ensures antisymmetric { (a b : List ℤ) → IsTrue (weakly_dominates a b) → IsTrue (weakly_dominates b a) → a ≡ b }
{}

/// The laws of the nondominated archive, of every sequence of values. A call does nothing.
pub fn archive_laws()
    ensures covers { CoversTheSame weakly_dominates }
    ensures one_more { GrowsBySubmission weakly_dominates }
    ensures again { IsIdempotent weakly_dominates }
    ensures later { StandsForSubmissions weakly_dominates }
    ensures incomparable { HasIncomparableMembers weakly_dominates }
    ensures submitted { HasSubmissionsOnly weakly_dominates }
{}
