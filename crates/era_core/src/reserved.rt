//! What the reservations block, by the least version that one of them names.

ghost use Rattle.std.specs.Prelude.{◌≡◌};
ghost use Rattle.era_core.specs.Views.{reserved, lesser as lesser_of, clears};

/// The lesser of a version and the one that a reservation names, where they are there.
pub fn lesser(least: Option<u64>, word: u64) -> Option<u64>
    ensures { result ≡ lesser_of least (reserved word) }
{
    if word == 0 {
        return least;
    }
    match least {
        None => Some(word - 1),
        Some(version) => Some(version.min(word - 1)),
    }
}

/// Whether no reservation names the version or an earlier one, where this is the least that one names.
pub fn is_clear(least: Option<u64>, version: u64) -> bool
    ensures { result ≡ clears least version }
{
    match least {
        None => true,
        Some(least) => version < least,
    }
}
