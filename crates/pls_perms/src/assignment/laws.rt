ghost use Rattle.std.specs.Prelude.{◌≡◌, ◌≤◌, ℕ, true, All, length};
ghost use Rattle.pls_vectors.specs.Solution.{Solution, order};
ghost use Rattle.pls_perms.specs.Assignment.{AssignmentInstance, IsWithinLimits, feasible, neighbours};
ghost use Rattle.pls_perms.specs.Permutation.{is_permutation};

/// What holds of every assignment: the order 0, 1, 2 and so on is a permutation, and the neighbours of a
/// feasible solution are feasible. The contract holds the laws: a call does nothing.
pub fn assignment_laws()
    ensures order { (n : ℕ) → 1 ≤ n → n ≤ 256 → is_permutation n (order n) ≡ true }
    ensures neighbours { (k : AssignmentInstance) (s : Solution) → IsWithinLimits k → length s.words ≡ 32 → feasible k s ≡ true
        → All (λ q. feasible k q.1 ≡ true) (neighbours k s) }
{}
