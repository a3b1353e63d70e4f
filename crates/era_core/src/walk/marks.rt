//! Marks on rows, all clear between calls: the rows of a list are told from others in one look.

ghost use Rattle.std.specs.Prelude.{◌≡◌, ℕ, ◌<◌, false, not, if◌then◌else◌, filter, length, slice_index_or, IfOk};
ghost use Rattle.era_core.specs.Lists.{In, is_in, without};

use std::alloc::{AllocError, Global};

/// Marks each row of a list, or takes its mark away.
pub(crate) fn mark(marks: &mut [bool], list: &[u32], value: bool)
    requires in_range { (x : ℕ) → In x list.now → x < length marks.old }
    ensures { (x : ℕ) → slice_index_or marks.new x false ≡ (if is_in x list.now then value else slice_index_or marks.old x false) }
{
    for row in list {
        marks[*row as usize] = value;
    }
}

// The rows of a list that have no mark.
fn unmarked(alloc: Global, list: &[u32], marks: &[bool]) -> Result<Vec<u32>, AllocError>
    requires in_range { (x : ℕ) → In x list.now → x < length marks.now }
    ensures { IfOk result (λ left. left.items ≡ filter (λ x. not (slice_index_or marks.now x false)) list.now) }
{
    let mut left = Vec::new(alloc);
    for row in list {
        if !marks[*row as usize] {
            left.push(*row)?;
        }
    }
    Ok(left)
}

/// The rows of a list without those of another, in order. All marks are clear before and after, also where memory runs
/// out.
pub(crate) fn rows_without(
    alloc: Global,
    gone: &[u32],
    list: &[u32],
    marks: &mut [bool],
) -> Result<Vec<u32>, AllocError>
    requires gone_in_range { (x : ℕ) → In x gone.now → x < length marks.old }
    requires list_in_range { (x : ℕ) → In x list.now → x < length marks.old }
    requires clear { (x : ℕ) → slice_index_or marks.old x false ≡ false }
    ensures rows { IfOk result (λ left. left.items ≡ without gone.now list.now) }
    ensures clear { (x : ℕ) → slice_index_or marks.new x false ≡ false }
{
    mark(marks, gone, true);
    let left = unmarked(alloc, list, marks);
    mark(marks, gone, false);
    left
}
