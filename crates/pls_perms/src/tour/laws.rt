ghost use Rattle.std.specs.Prelude.{◌≡◌, ◌-◌, ℕ, length, map};
ghost use Rattle.std.specs.List.{range_with_len};
ghost use Rattle.pls_vectors.specs.Solution.{Solution, reversed};
ghost use Rattle.pls_perms.specs.Permutation.{pairs};
ghost use Rattle.pls_perms.specs.Tour.{TourInstance, IsWithinLimits, edge_count, place_of, value};

/// What holds of every tour: the edges of a list stand in the lexicographic order of their pairs of cities, and
/// the reversal of all cities but city 0 keeps the value. The contract holds the laws: a call does nothing.
pub fn tour_laws()
    ensures places { (n : ℕ) → map {A = ℕ × ℕ} (λ p. place_of n p.0 p.1) (pairs 0 n) ≡ range_with_len 0 (edge_count n) }
    ensures reversed { (k : TourInstance) (s : Solution) → IsWithinLimits k → length s.words ≡ 32
        → value k (reversed s 1 (k.cities - 1)) ≡ value k s }
{}
