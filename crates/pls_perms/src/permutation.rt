ghost use Rattle.std.specs.Prelude.{◌≡◌, ◌≤◌, ◌&&◌, Bool, false, not, nat_lt, slice_index_or};
ghost use Rattle.pls_vectors.specs.Solution.{entries};
ghost use Rattle.pls_perms.specs.Permutation.{are_distinct_below, no_other_entry, is_permutation};

use pls_vectors::Sol;

/// The most entries.
const MOST_ENTRIES: usize = 256;

/// Whether a solution is a permutation of the numbers below `n`.
pub fn is_permutation(n: u16, sol: &Sol) -> bool
    requires { n ≤ 256 }
    ensures { result ≡ is_permutation n sol.now }
{
    sol.len() == n && has_no_other_entry(n, sol) && has_distinct_entries(n, sol)
}

/// Whether no bit stands beyond those of the first `n` entries.
fn has_no_other_entry(n: u16, sol: &Sol) -> bool
    requires { n ≤ 256 }
    ensures { result ≡ no_other_entry n sol.now }
{
    let mut all = true;
    for i in n..MOST_ENTRIES as u16 {
        all &= sol.entry(i) == 0;
    }
    all
}

/// Whether the entries are below `n`, and none stands twice.
fn has_distinct_entries(n: u16, sol: &Sol) -> bool
    ensures { result ≡ are_distinct_below n (entries sol.now) }
{
    let mut seen = [false; MOST_ENTRIES];
    let mut all = true;
    let mut i = sol.len();
    while i > 0 {
        i -= 1;
        let x = sol.entry(i);
        all &= is_fresh(n, &seen, x);
        seen[x as usize] = true;
    }
    all
}

/// Whether an entry is below `n` and not among those that were seen.
fn is_fresh(n: u16, seen: &[bool; MOST_ENTRIES], x: u8) -> bool
    ensures { result ≡ (nat_lt x n && not (slice_index_or seen.now x false)) }
{
    (x as u16) < n && !seen[x as usize]
}
