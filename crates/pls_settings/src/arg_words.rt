ghost use Rattle.std.specs.Prelude.{◌≡◌, ◌<◌, [], ◌∷◌, ◌++◌, length, map, IfOk, OnOk, OnErr};

use std::alloc::{AllocError, Global};
use std::marker::Model;

/// The words of a command line, without the program's name, in one buffer.
#[derive(Debug, Drop)]
pub struct ArgWords {
    text: Vec<u8>,
    ends: Vec<usize>,
}

impl Model for ArgWords {
    ghost use Rattle.std.specs.Prelude.{ℕ, List};
    ghost use Rattle.pls_settings.specs.Words.{pieces, AreEnds};

    ghost Value = { List (List ℕ) };

    ghost view = { λ w. pieces 0 w.text.items w.ends.items };

    ghost invariant = { λ w. AreEnds 0 w.text.items w.ends.items };
}

impl ArgWords {
    /// No words. It takes no memory.
    pub fn new(alloc: Global) -> ArgWords
        ensures { result ≡ [] }
    {
        ArgWords {
            text: Vec::new(alloc),
            ends: Vec::new(alloc),
        }
    }

    /// Appends a word; where memory runs out, nothing changes.
    pub fn push(&mut self, word: &str) -> Result<(), AllocError>
        ensures ok { OnOk result (self.new ≡ self.old ++ word.now ∷ []) }
        ensures err { OnErr result (self.new ≡ self.old) }
    {
        push_piece(&mut self.text, &mut self.ends, word.as_bytes())?;
        Ok(())
    }

    /// How many words there are.
    pub fn len(&self) -> usize
        ensures { result ≡ length self.now }
    {
        self.ends.len()
    }

    /// The words, each as a text.
    pub(crate) fn texts(&self, alloc: Global) -> Result<Vec<&str>, AllocError>
        ensures { IfOk result (λ v. map (λ t. t.now) v.items ≡ self.now) }
    {
        let mut texts = Vec::with_capacity(alloc, self.len())?;
        let mut from = 0;
        for end in &self.ends {
            let text = str::from_utf8(&self.text[from..*end]).unwrap();
            texts.push(text)?;
            from = *end;
        }
        Ok(texts)
    }
}

/// Puts a piece at the end of a text, and the place where it ends after the other ends.
fn push_piece(text: &mut Vec<u8>, ends: &mut Vec<usize>, piece: &[u8]) -> Result<(), AllocError>
    ensures text { OnOk result (text.new.items ≡ text.old.items ++ piece.now) }
    ensures ends { OnOk result (ends.new.items ≡ ends.old.items ++ length text.new.items ∷ []) }
    ensures err { OnErr result ((text.new.items ≡ text.old.items) × (ends.new.items ≡ ends.old.items)) }
{
    ends.try_reserve(1)?;
    text.extend_from_slice(piece)?;
    ends.push_reserved(text.len());
    Ok(())
}
