//! The work list of a pass, for the layer above: room for two words of each row.
ghost use Rattle.std.specs.Prelude.{◌≡◌, ◌*◌, ◌<◌, ◌≤◌, [], ◌∷◌, ◌++◌, length, slice_set, take};
ghost use Rattle.era_rows.specs.Passes.{knows_of, known_of, marked_of, work_of, memory_of, IsPassOf};
ghost use mathlib.Core.Option.{some};
ghost use lib.ListN.{get_elem?};

use crate::law::Law;
use crate::pass::Pass;

impl<L: Law> Pass<L> {
    pub fn work_len(&self) -> usize
        ensures { result ≡ length (work_of self.now) }
    {
        self.work.len()
    }

    pub fn work(&self, k: usize) -> u64
        requires { k < length (work_of self.now) }
        ensures { get_elem? (work_of self.now) k ≡ some result }
    {
        self.work[k]
    }

    pub fn work_set(&mut self, k: usize, word: u64)
        requires { k < length (work_of self.old) }
        ensures pass { (r : _) → IsPassOf r self.old → IsPassOf r self.new }
        ensures number { self.new.number ≡ self.old.number }
        ensures known { knows_of self.new ≡ knows_of self.old }
        ensures marks { marked_of self.new ≡ marked_of self.old }
        ensures memory { memory_of self.new ≡ memory_of self.old }
        ensures work { work_of self.new ≡ slice_set (work_of self.old) k word }
    {
        self.work[k] = word;
    }

    /// Puts a word at the end.
    pub fn work_push(&mut self, word: u64)
        requires { length (work_of self.old) < 2 * (known_of self.old).rows }
        ensures pass { (r : _) → IsPassOf r self.old → IsPassOf r self.new }
        ensures number { self.new.number ≡ self.old.number }
        ensures known { knows_of self.new ≡ knows_of self.old }
        ensures marks { marked_of self.new ≡ marked_of self.old }
        ensures memory { memory_of self.new ≡ memory_of self.old }
        ensures work { work_of self.new ≡ work_of self.old ++ word ∷ [] }
    {
        self.work.push_reserved(word);
    }

    /// Keeps the first so many words.
    pub fn work_cut(&mut self, len: usize)
        requires { len ≤ length (work_of self.old) }
        ensures pass { (r : _) → IsPassOf r self.old → IsPassOf r self.new }
        ensures number { self.new.number ≡ self.old.number }
        ensures known { knows_of self.new ≡ knows_of self.old }
        ensures marks { marked_of self.new ≡ marked_of self.old }
        ensures memory { memory_of self.new ≡ memory_of self.old }
        ensures work { work_of self.new ≡ take len (work_of self.old) }
    {
        self.work.truncate(len);
    }
}
