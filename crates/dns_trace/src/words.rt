//! The words of a line.

ghost use Rattle.std.specs.Prelude.{◌≡◌, length, ◌==◌, IfOk};
ghost use Rattle.std.specs.List.{slice_split};
ghost use Rattle.dns_trace.specs.Words.{words_of, word_at};

use dns_name::OutOfMemory;
use std::alloc::Global;
use std::marker::Model;

/// Words that lie in a line.
#[derive(Drop)]
pub struct Words<'a> {
    words: Vec<&'a [u8]>,
}

impl<'a> Model for Words<'a> {
    ghost use Rattle.std.specs.Prelude.{List, ℕ, map};

    ghost Value = { List (List ℕ) };

    ghost view = { λ s. map (λ w. w.now) s.words.items };
}

impl<'a> Words<'a> {
    /// The words of a line, which runs of spaces part.
    pub fn of(alloc: Global, line: &'a [u8]) -> Result<Words<'a>, OutOfMemory>
        ensures { IfOk result (λ ws. ws ≡ words_of line.now) }
    {
        let words: Vec<&'a [u8]> = line
            .split(|octet| *octet == b' ')
            .filter(|word| !word.is_empty())
            .collect(alloc)?;
        Ok(Words { words })
    }

    /// What stands before, between and after the separators of a word.
    pub fn parts(alloc: Global, word: &'a [u8], separator: u8) -> Result<Words<'a>, OutOfMemory>
        ensures { IfOk result (λ ws. ws ≡ slice_split (λ b. b == separator) word.now) }
    {
        let words: Vec<&'a [u8]> = word.split(|octet| *octet == separator).collect(alloc)?;
        Ok(Words { words })
    }

    /// The number of words.
    pub fn len(&self) -> usize
        ensures { result ≡ length self.now }
    {
        self.words.len()
    }

    /// The word of that number, from 0, or the empty one.
    pub fn word(&self, number: usize) -> &'a [u8]
        ensures { result.now ≡ word_at self.now number }
    {
        match self.words.get(number) {
            Some(word) => *word,
            None => b"".as_slice(),
        }
    }
}
