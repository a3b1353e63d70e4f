//! The words of the machine.

ghost use Rattle.std.specs.Prelude.{◌≡◌, ◌<◌, ◌≤◌, IfOk};
ghost use Rattle.era_core.specs.Words.{root_word, start_words};

use crate::sizes::{LAST_VERSION, MOST_PASSES, MOST_ROWS, ROOT_ROWS, WIDTH};
use std::alloc::{AllocError, Global};

/// A version and a row in one word, as the root has them.
pub fn packed(version: u64, row: u32) -> u64
    requires version_fits { version ≤ LAST_VERSION }
    requires row_fits { row < ROOT_ROWS }
    ensures { result ≡ root_word version row }
{
    version * ROOT_ROWS + u64::from(row)
}

/// The words at the start: row 0 has an owner, and all else is 0.
pub fn first_words(alloc: Global, rows: u32, passes: u32) -> Result<Vec<u64>, AllocError>
    requires some_row { 0 < rows }
    requires few_rows { rows ≤ MOST_ROWS }
    requires few_passes { passes ≤ MOST_PASSES }
    ensures { IfOk result (λ words. words.items ≡ start_words passes rows) }
{
    let mut words = vec![in alloc; 0; 1
        + passes as usize
        + rows as usize
        + WIDTH as usize * rows as usize]?;
    words[1 + passes as usize] = 1;
    Ok(words)
}
