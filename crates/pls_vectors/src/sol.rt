ghost use Rattle.std.specs.Prelude.{◌≡◌, ◌≢◌, ℕ, ◌<◌, ◌≤◌, All, slice_index, length};
ghost use Rattle.pls_vectors.specs.Solution.{chosen, with_bit, with_item, no_items, byte, with_byte, entry, with_entry, stored, order, swapped, reversed};

use std::marker::Model;

/// A solution of at most 256 items or places, stored in 32 words of 64 bits.
///
/// Item `i` of a choice is one bit, number `i mod 64` from the least in word `i / 64`. Entry `i` of a
/// permutation is one byte, number `i mod 8` from the least in word `i / 8`.
#[derive(Clone, Copy, Debug, PartialEq, Eq)]
pub struct Sol {
    len: usize,
    words: [u64; 32],
}

impl Model for Sol {
    ghost use Rattle.std.specs.Prelude.{◌≤◌};
    ghost use Rattle.pls_vectors.specs.Solution.{Solution};

    ghost Value = { Solution };

    ghost view = { λ s. record { len = s.len; words = s.words } };

    ghost invariant = { λ s. (1 ≤ s.len) × (s.len ≤ 256) };

    ghost inverse = { λ s. record { len = s.len; words = s.words } };
}

impl Sol {
    /// The choice of nothing among `n` items.
    pub fn bits(n: u16) -> Sol
        requires some { 1 ≤ n }
        requires few { n ≤ 256 }
        ensures { result ≡ no_items n }
    {
        Sol {
            len: n as usize,
            words: [0; 32],
        }
    }

    /// How many items or places the solution has, 1 to 256.
    pub fn len(&self) -> u16
        ensures value { result ≡ self.now.len }
        ensures some { 1 ≤ result }
        ensures few { result ≤ 256 }
        ensures words { length self.now.words ≡ 32 }
    {
        self.len as u16
    }

    /// The word at place `k`.
    pub fn word(&self, k: usize) -> u64
        requires { k < 32 }
        ensures { result ≡ slice_index self.now.words k }
    {
        self.words[k]
    }

    /// Whether item `i` is chosen.
    pub fn bit(&self, i: u16) -> bool
        requires { i < self.now.len }
        ensures { result ≡ chosen self.now i }
    {
        (self.words[(i / 64) as usize] >> (i % 64)) & 1 == 1
    }

    /// Puts item `i` into the choice where `on` is true, and else takes it out.
    pub fn set_bit(&mut self, i: u16, on: bool)
        requires { i < self.old.len }
        ensures value { self.new ≡ with_item self.old i on }
        ensures set { chosen self.new i ≡ on }
        ensures others { (j : ℕ) → j ≢ i → chosen self.new j ≡ chosen self.old j }
    {
        let k = (i / 64) as usize;
        self.words[k] = with_bit(self.words[k], i % 64, on);
    }

    /// The permutation of `n` entries in which entry `i` is `i`.
    pub fn order(n: u16) -> Sol
        requires some { 1 ≤ n }
        requires few { n ≤ 256 }
        ensures { result ≡ order n }
    {
        let mut sol = Sol::bits(n);
        for i in 0..n {
            sol.set_entry(i, i as u8);
        }
        sol
    }

    /// The permutation with these entries.
    pub fn of_entries(entries: &[u16]) -> Sol
        requires some { 1 ≤ length entries.now }
        requires few { length entries.now ≤ 256 }
        requires bytes { All (λ x. x < 256) entries.now }
        ensures { result ≡ stored entries.now }
    {
        let n = entries.len() as u16;
        let mut sol = Sol::bits(n);
        for i in 0..n {
            sol.set_entry(i, entries[i as usize] as u8);
        }
        sol
    }

    /// Entry `i` of a permutation, which is 0 from its length on.
    pub fn entry(&self, i: u16) -> u8
        requires { i < 256 }
        ensures { result ≡ entry self.now i }
    {
        byte(self.words[(i / 8) as usize], i % 8)
    }

    /// The solution that is stored in these words.
    pub fn of_words(len: u16, words: [u64; 32]) -> Sol
        requires some { 1 ≤ len }
        requires few { len ≤ 256 }
        ensures { result ≡ record { len = len; words = words } }
    {
        Sol {
            len: len as usize,
            words,
        }
    }

    /// Exchanges entries `i` and `j`.
    pub fn swap(&mut self, i: u16, j: u16)
        requires i_in { i < self.old.len }
        requires j_in { j < self.old.len }
        ensures { self.new ≡ swapped self.old i j }
    {
        let _ = &self.len;
        let entry = self.entry(i);
        self.set_entry(i, self.entry(j));
        self.set_entry(j, entry);
    }

    /// Reverses the entries at `i` to `j`, both included.
    pub fn reverse(&mut self, i: u16, j: u16)
        requires order { i ≤ j }
        requires within { j < self.old.len }
        ensures { self.new ≡ reversed self.old i j }
    {
        let _ = &self.len;
        let mut low = i;
        let mut high = j;
        while low < high {
            self.swap(low, high);
            low += 1;
            high -= 1;
        }
    }

    /// Puts another entry at place `i`.
    fn set_entry(&mut self, i: u16, x: u8)
        requires { i < 256 }
        ensures { self.new ≡ with_entry self.old i x }
    {
        let k = (i / 8) as usize;
        self.words[k] = with_byte(self.words[k], i % 8, x);
    }
}

/// Byte `k` of a word.
fn byte(word: u64, k: u16) -> u8
    requires { k < 8 }
    ensures { result ≡ byte word k }
{
    (word >> (8 * k) & 255) as u8
}

/// The word with another byte `k`.
fn with_byte(word: u64, k: u16, x: u8) -> u64
    requires { k < 8 }
    ensures { result ≡ with_byte word k x }
{
    let shift = 8 * k;
    word - ((byte(word, k) as u64) << shift) + ((x as u64) << shift)
}

/// The word with its bit `k` set, or cleared.
fn with_bit(word: u64, k: u16, on: bool) -> u64
    requires { k < 64 }
    ensures { result ≡ with_bit word k on }
{
    let bit = 1 << k;
    if on { word | bit } else { word & !bit }
}
