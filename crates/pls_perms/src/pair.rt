ghost use Rattle.std.specs.Prelude.{◌≡◌, ◌<◌, ◌≤◌, [], ◌∷◌, IfSome, IfNone};
ghost use Rattle.pls_perms.specs.Permutation.{pairs};
ghost use Rattle.pls_perms.specs.Walk.{pairs_after};

/// Two places of a permutation.
#[derive(Clone, Copy, Debug)]
pub struct Pair {
    pub first: u16,
    pub second: u16,
}

impl Pair {
    /// What comes before the first of the pairs of places from `least` on.
    pub fn start(least: u16) -> Pair
        ensures first { result.first ≡ least }
        ensures second { result.second ≡ least }
    {
        Pair {
            first: least,
            second: least,
        }
    }

    /// The next pair of places below `n`, in lexicographic order.
    pub fn next(self, n: u16) -> Option<Pair>
        requires few { n ≤ 256 }
        requires ordered { self.first ≤ self.second }
        requires below { self.second < n }
        ensures step { IfSome result (λ p. pairs_after n self ≡ (p.first, p.second) ∷ pairs_after n p) }
        ensures end { IfNone result (pairs_after n self ≡ []) }
        ensures from { IfSome result (λ p. self.first ≤ p.first) }
        ensures ordered { IfSome result (λ p. p.first < p.second) }
        ensures below { IfSome result (λ p. p.second < n) }
    {
        if self.second + 1 < n {
            return Some(Pair {
                first: self.first,
                second: self.second + 1,
            });
        }
        if self.first + 2 < n {
            return Some(Pair {
                first: self.first + 1,
                second: self.first + 2,
            });
        }
        None
    }
}
