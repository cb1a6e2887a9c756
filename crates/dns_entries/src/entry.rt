//! The words of an entry.

ghost use Rattle.std.specs.Prelude.{◌≡◌, ◌++◌, ◌∷◌, [], OnOk, length};

use std::alloc::{AllocError, Global};
use std::marker::Model;

/// How many octets a word has room for when it begins.
const FIRST_SIZE: usize = 24;

/// What stands in a word, octet by octet.
#[derive(Drop)]
pub struct WordText {
    octets: Vec<u8>,
}

impl Model for WordText {
    ghost use Rattle.std.specs.Prelude.{List, ℕ};

    ghost Value = { List ℕ };

    ghost view = { λ t. t.octets.items };
}

impl WordText {
    /// No octet.
    pub fn new(alloc: Global) -> WordText
        ensures { result ≡ [] }
    {
        WordText {
            octets: Vec::new(alloc),
        }
    }

    /// The octets.
    pub fn as_slice(&self) -> &[u8]
        ensures { result.now ≡ self.now }
    {
        self.octets.as_slice()
    }

    /// Appends an octet.
    pub fn push(&mut self, octet: u8) -> Result<(), AllocError>
        ensures { OnOk result (self.new ≡ self.old ++ octet ∷ []) }
    {
        if self.octets.is_empty() {
            self.octets.reserve(FIRST_SIZE)?;
        }
        self.octets.push(octet)?;
        Ok(())
    }

    /// Appends octets.
    pub fn extend(&mut self, octets: &[u8]) -> Result<(), AllocError>
        ensures { OnOk result (self.new ≡ self.old ++ octets.now) }
    {
        self.octets.extend_from_slice(octets)?;
        Ok(())
    }

    /// Takes all octets away; their room stays.
    pub fn clear(&mut self)
        ensures { self.new ≡ [] }
    {
        self.octets.clear();
    }
}

/// A word as it is written, backslashes included, and its line.
#[derive(Drop)]
pub struct Word {
    pub line: u64,
    /// Whether it stands in quotes.
    pub quoted: bool,
    pub octets: WordText,
}

/// Words in their order, and texts of earlier words, whose room those to come take.
#[derive(Drop)]
pub struct WordList {
    words: Vec<Word>,
    spare: Vec<WordText>,
}

impl Model for WordList {
    ghost use Rattle.std.specs.Prelude.{List};
    ghost use Rattle.dns_entries.specs.declared.entry.Word.{Word};

    ghost Value = { List Word };

    ghost view = { λ ws. ws.words.items };
}

impl WordList {
    /// No word.
    pub fn new(alloc: Global) -> WordList
        ensures { result ≡ [] }
    {
        WordList {
            words: Vec::new(alloc),
            spare: Vec::new(alloc),
        }
    }

    /// The words.
    pub fn as_slice(&self) -> &[Word]
        ensures { result.now ≡ self.now }
    {
        self.words.as_slice()
    }

    /// Appends a word.
    pub fn push(&mut self, word: Word) -> Result<(), AllocError>
        ensures { OnOk result (self.new ≡ self.old ++ word ∷ []) }
    {
        self.words.push(word)?;
        Ok(())
    }

    /// An empty text.
    pub fn spare_text(&mut self, alloc: Global) -> WordText
        ensures text { result ≡ [] }
        ensures words { self.new ≡ self.old }
    {
        match self.spare.pop() {
            Some(mut text) => {
                text.clear();
                text
            }
            None => WordText::new(alloc),
        }
    }

    /// No word is left.
    pub fn clear(&mut self)
        ensures { self.new ≡ [] }
    {
        'words: while let Some(word) = self.words.pop() {
            let Word {
                line: _,
                quoted: _,
                octets,
            } = word;
            let _ = self.spare.push(octets);
        }
    }
}
