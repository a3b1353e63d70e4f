//! Publication: a new tree takes the place of the pinned version.

ghost use Rattle.std.specs.Prelude.{◌≡◌, ℕ, ◌+◌, ◌^◌, ◌<◌, ◌≤◌, false, length, is_some, slice_index_or, IfOk, IfSome, OnOk, OnErr};
ghost use Rattle.era_core.specs.Lists.{In, without};
ghost use Rattle.era_core.specs.Words.{words_len, tree_at};
ghost use Rattle.era_core.specs.Machine.{is_new_tree, allows, after};
ghost use Rattle.era_core.specs.declared.event.Event.TheVariants.{Publish};

use crate::arena::Core;
use crate::pass::{PassView, Replaced};
use crate::sizes::{LAST_VERSION, MOST_ROWS};
use crate::walk::{new_tree, rows_without, tree_rows};
use crate::words::packed;
use std::alloc::{AllocError, Global};

// The fresh rows and the old ones without the new ones.
fn without_new(
    alloc: Global,
    new: &[u32],
    fresh: &[u32],
    old: &[u32],
    marks: &mut [bool],
) -> Result<Replaced, AllocError>
    requires new_in_range { (x : ℕ) → In x new.now → x < length marks.old }
    requires fresh_in_range { (x : ℕ) → In x fresh.now → x < length marks.old }
    requires old_in_range { (x : ℕ) → In x old.now → x < length marks.old }
    requires clear { (x : ℕ) → slice_index_or marks.old x false ≡ false }
    ensures fresh_rows { IfOk result (λ r. r.fresh.items ≡ without new.now fresh.now) }
    ensures gone_rows { IfOk result (λ r. r.gone.items ≡ without new.now old.now) }
    ensures clear { (x : ℕ) → slice_index_or marks.new x false ≡ false }
    ensures marks_len { length marks.new ≡ length marks.old }
{
    let left = rows_without(alloc, new, fresh, marks)?;
    let gone = rows_without(alloc, new, old, marks)?;
    Ok(Replaced { fresh: left, gone })
}

// What the tree at a new root does to the rows of the version at the old root, and to the fresh rows: `None` exactly
// where the pass may not publish it.
fn replaced(
    alloc: Global,
    words: &[u64],
    passes: u32,
    rows: u32,
    fresh: &[u32],
    old_root: u32,
    new_root: u32,
    marks: &mut [bool],
) -> Result<Option<Replaced>, AllocError>
    requires long { length words.now ≡ words_len passes rows }
    requires few_rows { rows ≤ MOST_ROWS }
    requires fresh_in_range { (x : ℕ) → In x fresh.now → x < rows }
    requires old_in_range { (x : ℕ) → In x (tree_at passes rows words.now old_root) → x < rows }
    requires marks_len { length marks.old ≡ rows }
    requires clear { (x : ℕ) → slice_index_or marks.old x false ≡ false }
    ensures allowed { IfOk result (λ o. is_some o ≡ is_new_tree passes rows words.now fresh.now (tree_at passes rows words.now old_root) (tree_at passes rows words.now new_root)) }
    ensures fresh_rows { IfOk result (λ o. IfSome o (λ r. r.fresh.items ≡ without (tree_at passes rows words.now new_root) fresh.now)) }
    ensures gone_rows { IfOk result (λ o. IfSome o (λ r. r.gone.items ≡ without (tree_at passes rows words.now new_root) (tree_at passes rows words.now old_root))) }
    ensures clear { (x : ℕ) → slice_index_or marks.new x false ≡ false }
    ensures marks_len { length marks.new ≡ length marks.old }
{
    let old = tree_rows(alloc, words, passes, rows, old_root)?;
    let Some(new) = new_tree(alloc, words, passes, rows, new_root, fresh, &old, marks)? else {
        return Ok(None);
    };
    let rows = without_new(alloc, &new, fresh, &old, marks)?;
    Ok(Some(rows))
}

impl Core {
    // Exchanges the pinned root for the next version, with its tree at a fresh row. After want of memory nothing changed.
    pub(crate) fn publish(&mut self, pass: u32, root: u32) -> Result<bool, AllocError>
        ensures done { IfOk result (λ done. done ≡ allows self.old (Publish pass root)) }
        ensures next { OnOk result (self.new ≡ after self.old (Publish pass root)) }
        ensures err { OnErr result (self.new ≡ self.old) }
    {
        if pass >= self.passes || root >= self.rows {
            return Ok(false);
        }
        let alloc = *self.words.allocator();
        let view = &self.views[pass as usize];
        let Some((version, row)) = view.pinned else {
            return Ok(false);
        };
        if version >= LAST_VERSION || !view.has_fresh(root) {
            return Ok(false);
        }
        let Some(rows) = replaced(
            alloc,
            &self.words,
            self.passes,
            self.rows,
            &view.fresh,
            row,
            root,
            &mut self.marks,
        )?
        else {
            return Ok(false);
        };
        if self.words[0] != packed(version, row) {
            return Ok(true);
        }
        let view = &mut self.views[pass as usize];
        view.publish(version, rows)?;
        self.words[0] = packed(version + 1, root);
        Ok(true)
    }
}
