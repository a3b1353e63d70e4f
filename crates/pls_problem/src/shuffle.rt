ghost use Rattle.std.specs.Prelude.{◌≡◌, ◌-◌, ◌≤◌, length};
ghost use Rattle.pls_problem.specs.Shuffle.{shuffled};

use rand_core::Rng;

/// Shuffles the entries from the least place on by Fisher and Yates, from the last place down, with one word for each place.
pub fn shuffle<R: Rng>(words: &mut R, entries: &mut [u16], least: usize)
    requires { least ≤ length entries.old }
    ensures { (entries.new, R.stream words.new) ≡ shuffled least (length entries.old - least) (R.stream words.old) entries.old }
{
    let mut left = entries.len() - least;
    while left > 1 {
        let chosen = words.next_u64() % left as u64;
        left -= 1;
        entries.swap(least + left, least + chosen as usize);
    }
}
