//! What a pass remembers from call to call, for the layer above: a few places with words.
ghost use Rattle.std.specs.Prelude.{◌≡◌, ◌<◌, true, IfSome, Some, None, slice_set};
ghost use Rattle.era_rows.specs.Passes.{knows_of, known_of, seen_of, marked_of, work_of, memory_of, IsPassOf};
ghost use mathlib.Core.Option.{some};
ghost use lib.ListN.{get_elem?};

use crate::law::Law;
use crate::pass::Pass;

/// How many places a pass has to remember words at.
pub const MEMORY_PLACES: usize = 16;

/// How many words a place has.
pub const MEMORY_WORDS: usize = 6;

impl<L: Law> Pass<L> {
    /// The words that the pass remembers at a place, if it remembers any there. What they say holds at the entries that the
    /// pass has seen.
    pub fn remembered(&self, place: usize) -> Option<[u64; MEMORY_WORDS]>
        requires { place < MEMORY_PLACES }
        ensures words { get_elem? (memory_of self.now) place ≡ some result }
        ensures says { IfSome result (λ words. L.says (known_of self.now).shape words (seen_of self.now) ≡ true) }
    {
        self.memory[place]
    }

    /// Remembers these words at a place, and no others there. What they say holds at the entries that the pass has seen.
    pub fn remember(&mut self, place: usize, words: [u64; MEMORY_WORDS])
        requires place { place < MEMORY_PLACES }
        requires says { L.says (known_of self.old).shape words (seen_of self.old) ≡ true }
        ensures pass { (r : _) → IsPassOf r self.old → IsPassOf r self.new }
        ensures number { self.new.number ≡ self.old.number }
        ensures known { knows_of self.new ≡ knows_of self.old }
        ensures marks { marked_of self.new ≡ marked_of self.old }
        ensures work { work_of self.new ≡ work_of self.old }
        ensures memory { memory_of self.new ≡ slice_set (memory_of self.old) place (Some words) }
    {
        self.memory[place] = Some(words);
    }

    /// Remembers nothing more at a place.
    pub fn forget(&mut self, place: usize)
        requires { place < MEMORY_PLACES }
        ensures pass { (r : _) → IsPassOf r self.old → IsPassOf r self.new }
        ensures number { self.new.number ≡ self.old.number }
        ensures known { knows_of self.new ≡ knows_of self.old }
        ensures marks { marked_of self.new ≡ marked_of self.old }
        ensures work { work_of self.new ≡ work_of self.old }
        ensures memory { memory_of self.new ≡ slice_set (memory_of self.old) place None }
    {
        self.memory[place] = None;
    }
}
