//! Lists of rows.

ghost use Rattle.std.specs.Prelude.{◌≡◌, [], ◌∷◌, vec_capacity};
ghost use Rattle.era_core.specs.Lists.{is_in, without};

/// Whether the row stands among these.
pub(crate) fn is_among(row: u32, rows: &[u32]) -> bool
    ensures { result ≡ is_in row rows.now }
{
    rows.contains(&row)
}

/// Drops a row from these.
pub fn remove_row(rows: &mut Vec<u32>, row: u32)
    ensures items { rows.new.items ≡ without (row ∷ []) rows.old.items }
    ensures capacity { vec_capacity rows.new ≡ vec_capacity rows.old }
{
    rows.retain(|x| *x != row);
}
