// The words of a text, from its front.
ghost use Rattle.std.specs.Prelude.{◌≡◌, ◌^◌, ◌<◌, ◌≤◌, [], ◌∷◌, true, false, length, slice_index, slice_range, IfSome, IfNone};
ghost use Rattle.std.specs.List.{list_all};
ghost use Rattle.pls_io.specs.Words.{is_word_byte, uncommented, words_at, words, placed};
ghost use Rattle.pls_io.specs.WordRuns.{AreRuns};

use std::marker::Model;

/// A word of a text.
#[derive(Clone, Copy, Debug, PartialEq, Eq)]
pub struct Word<'a> {
    /// How many bytes stand before it in the text.
    pub place: u32,
    /// Its bytes, at least one.
    pub text: &'a [u8],
}

/// The words of a text that are left, in order.
#[derive(Drop)]
pub struct Tokens<'a> {
    text: &'a [u8],
    at: usize,
}

impl<'a> Model for Tokens<'a> {
    ghost use Rattle.std.specs.Prelude.{◌^◌, ◌<◌, ◌≤◌, List, false, length};
    ghost use Rattle.pls_io.specs.Words.{PlacedWord, words_at};

    ghost Value = { List PlacedWord };

    ghost view = { λ t. words_at false t.text.now t.at };

    ghost invariant = { λ t. (length t.text.now < 2 ^ 32) × (t.at ≤ length t.text.now) };
}

impl<'a> Tokens<'a> {
    /// The words of `text`, which is shorter than 2^32 bytes.
    pub fn new(text: &'a [u8]) -> Self
        requires { length text.now < 2 ^ 32 }
        ensures words { result ≡ words text.now }
        ensures runs { AreRuns 0 (uncommented false text.now) result }
    {
        Tokens { text, at: 0 }
    }

    /// The next word, or none where no word is left.
    pub fn next_word(&mut self) -> Option<Word<'a>>
        ensures first { IfSome result (λ w. self.old ≡ placed w ∷ self.new) }
        ensures end { IfNone result ((self.old ≡ []) × (self.new ≡ [])) }
    {
        let start = word_start(self.text, self.at);
        let end = word_end(self.text, start);
        self.at = end;
        if start == end {
            return None;
        }
        Some(Word {
            place: start as u32,
            text: &self.text[start..end],
        })
    }
}

// A byte of a word, where it's in no comment.
fn is_word_byte(byte: u8) -> bool
    ensures { result ≡ is_word_byte byte }
{
    !matches!(byte, b'\t' | b'\n' | b'\r' | b' ' | b'#')
}

// The end of the comment that has the byte at this place: its line feed, or the end of the text.
fn comment_end(text: &[u8], at: usize) -> usize
    requires { at ≤ length text.now }
    ensures after { at ≤ result }
    ensures within { result ≤ length text.now }
    ensures moved { at < length text.now → slice_index text.now at ≡ 35 → at < result }
    ensures same { words_at true text.now at ≡ words_at false text.now result }
{
    let mut end = at;
    while end < text.len() && text[end] != b'\n' {
        end += 1;
    }
    end
}

// Where the next word at or after this place, which is in no comment, begins, or the end of the text.
fn word_start(text: &[u8], at: usize) -> usize
    requires { at ≤ length text.now }
    ensures within { result ≤ length text.now }
    ensures same { words_at false text.now at ≡ words_at false text.now result }
    ensures word { result < length text.now → is_word_byte (slice_index text.now result) ≡ true }
{
    let mut start = at;
    while start < text.len() {
        if text[start] == b'#' {
            start = comment_end(text, start);
        } else if is_word_byte(text[start]) {
            break;
        } else {
            start += 1;
        }
    }
    start
}

// The end of the word bytes that begin at this place.
fn word_end(text: &[u8], at: usize) -> usize
    requires { at ≤ length text.now }
    ensures after { at ≤ result }
    ensures within { result ≤ length text.now }
    ensures word { list_all is_word_byte (slice_range text.now at result) ≡ true }
    ensures stops { result < length text.now → is_word_byte (slice_index text.now result) ≡ false }
{
    let mut end = at;
    while end < text.len() && is_word_byte(text[end]) {
        end += 1;
    }
    end
}
