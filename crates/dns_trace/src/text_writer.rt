//! A text that is written word by word.

ghost use Rattle.std.specs.Prelude.{◌≡◌, ◌++◌, ◌∷◌, [], OnErr, OnOk, decimal, map};
ghost use Rattle.std.specs.Io.{StartsWith};
ghost use Rattle.std.specs.List.{join_with_byte};
ghost use Rattle.hex.specs.Hex.{encode_lower};
ghost use Rattle.dns_trace.specs.Spelling.{address_word, number_or_none, octets_word, yes_no};

use dns_name::{IpAddr, OutOfMemory};
use itoa::Buffer;
use std::alloc::Global;
use std::marker::Model;

const DIGITS: &[u8; 16] = b"0123456789abcdef";

/// A text. What a call leaves after memory ran out begins with the text before.
#[derive(Drop)]
pub struct TextWriter {
    text: Vec<u8>,
}

impl Model for TextWriter {
    ghost use Rattle.std.specs.Prelude.{List, ℕ};

    ghost Value = { List ℕ };

    ghost view = { λ w. w.text.items };
}

impl TextWriter {
    /// An empty text.
    pub fn new(alloc: Global) -> TextWriter
        ensures { result ≡ [] }
    {
        TextWriter {
            text: Vec::new(alloc),
        }
    }

    /// Begins anew, in the memory that there is.
    pub fn clear(&mut self)
        ensures { self.new ≡ [] }
    {
        self.text.clear();
    }

    /// The text so far.
    pub fn as_slice(&self) -> &[u8]
        ensures { result.now ≡ self.now }
    {
        self.text.as_slice()
    }

    /// The text, which is not copied.
    pub fn into_vec(self) -> Vec<u8>
        ensures { result.items ≡ self }
    {
        let TextWriter { text } = self;
        text
    }

    /// Octets as they are, as those of a whole line. After memory ran out the text is as before.
    pub fn append(&mut self, more: &[u8]) -> Result<(), OutOfMemory>
        ensures ok { OnOk result (self.new ≡ self.old ++ more.now) }
        ensures err { OnErr result (self.new ≡ self.old) }
    {
        self.text.extend_from_slice(more)?;
        Ok(())
    }

    /// One octet, which is a character's. After memory ran out the text is as before.
    pub fn character(&mut self, character: u8) -> Result<(), OutOfMemory>
        ensures ok { OnOk result (self.new ≡ self.old ++ character ∷ []) }
        ensures err { OnErr result (self.new ≡ self.old) }
    {
        self.text.push(character)?;
        Ok(())
    }

    /// The LF that ends a line. After memory ran out the text is as before.
    pub fn end_line(&mut self) -> Result<(), OutOfMemory>
        ensures ok { OnOk result (self.new ≡ self.old ++ 10 ∷ []) }
        ensures err { OnErr result (self.new ≡ self.old) }
    {
        self.character(b'\n')
    }

    /// The first word of a line, or the first part of a word. After memory ran out the text is as before.
    pub fn name(&mut self, name: &str) -> Result<(), OutOfMemory>
        ensures ok { OnOk result (self.new ≡ self.old ++ name.now) }
        ensures err { OnErr result (self.new ≡ self.old) }
    {
        self.append(name.as_bytes())
    }

    /// A word after a space.
    #[tactic(auto, using(crate::proofs::Starts::starts))]
    pub fn word(&mut self, word: &str) -> Result<(), OutOfMemory>
        ensures ok { OnOk result (self.new ≡ self.old ++ 32 ∷ word.now) }
        ensures err { OnErr result (StartsWith self.new self.old) }
    {
        self.character(b' ')?;
        self.append(word.as_bytes())
    }

    /// A number after a character, in decimal.
    #[tactic(auto, using(crate::proofs::Starts::starts))]
    pub fn number_behind(&mut self, character: u8, number: u64) -> Result<(), OutOfMemory>
        ensures ok { OnOk result (self.new ≡ self.old ++ character ∷ decimal number) }
        ensures err { OnErr result (StartsWith self.new self.old) }
    {
        let mut buffer = Buffer::new();
        self.character(character)?;
        self.append(buffer.format(number).as_bytes())
    }

    /// A number after a space, in decimal.
    pub fn number(&mut self, number: u64) -> Result<(), OutOfMemory>
        ensures ok { OnOk result (self.new ≡ self.old ++ 32 ∷ decimal number) }
        ensures err { OnErr result (StartsWith self.new self.old) }
    {
        self.number_behind(b' ', number)
    }

    /// A number, or `none`, after a space.
    pub(crate) fn number_or_none(&mut self, number: Option<u64>) -> Result<(), OutOfMemory>
        ensures ok { OnOk result (self.new ≡ self.old ++ 32 ∷ number_or_none number) }
        ensures err { OnErr result (StartsWith self.new self.old) }
    {
        match number {
            Some(number) => self.number(number),
            None => self.word("none"),
        }
    }

    /// `yes` or `no` after a space.
    pub(crate) fn yes_no(&mut self, yes: bool) -> Result<(), OutOfMemory>
        ensures ok { OnOk result (self.new ≡ self.old ++ 32 ∷ yes_no yes) }
        ensures err { OnErr result (StartsWith self.new self.old) }
    {
        self.word(if yes { "yes" } else { "no" })
    }

    /// Two hexadecimal digits for each octet, in lower case.
    #[tactic(auto, using(crate::proofs::Starts::starts_kept, crate::proofs::Starts::starts_on), unfolding(hex::specs::Hex::encode_with))]
    fn digits(&mut self, octets: &[u8]) -> Result<(), OutOfMemory>
        ensures ok { OnOk result (self.new ≡ self.old ++ encode_lower octets.now) }
        ensures err { OnErr result (StartsWith self.new self.old) }
    {
        for octet in octets {
            self.character(DIGITS[(*octet / 16) as usize])?;
            self.character(DIGITS[(*octet % 16) as usize])?;
        }
        Ok(())
    }

    /// Two hexadecimal digits for each octet, in lower case, after a space.
    #[tactic(auto, using(crate::proofs::Starts::starts))]
    pub fn hex(&mut self, octets: &[u8]) -> Result<(), OutOfMemory>
        ensures ok { OnOk result (self.new ≡ self.old ++ 32 ∷ encode_lower octets.now) }
        ensures err { OnErr result (StartsWith self.new self.old) }
    {
        self.character(b' ')?;
        self.digits(octets)
    }

    /// Hexadecimal digits, or `-` for no octet, after a space.
    pub fn octets(&mut self, octets: &[u8]) -> Result<(), OutOfMemory>
        ensures ok { OnOk result (self.new ≡ self.old ++ 32 ∷ octets_word octets.now) }
        ensures err { OnErr result (StartsWith self.new self.old) }
    {
        if octets.is_empty() {
            return self.word("-");
        }
        self.hex(octets)
    }

    /// A dotted quad after a space.
    #[tactic(auto, using(crate::proofs::Starts::starts))]
    fn quad(&mut self, parts: &[u8; 4]) -> Result<(), OutOfMemory>
        ensures ok { OnOk result (self.new ≡ self.old ++ 32 ∷ join_with_byte 46 (map decimal parts.now)) }
        ensures err { OnErr result (StartsWith self.new self.old) }
    {
        self.number_behind(b' ', u64::from(parts[0]))?;
        self.number_behind(b'.', u64::from(parts[1]))?;
        self.number_behind(b'.', u64::from(parts[2]))?;
        self.number_behind(b'.', u64::from(parts[3]))
    }

    /// An address after a space: a dotted quad, or 32 hexadecimal digits.
    pub(crate) fn address(&mut self, address: &IpAddr) -> Result<(), OutOfMemory>
        ensures ok { OnOk result (self.new ≡ self.old ++ 32 ∷ address_word address.now) }
        ensures err { OnErr result (StartsWith self.new self.old) }
    {
        match address {
            IpAddr::V4(parts) => self.quad(parts),
            IpAddr::V6(octets) => self.hex(octets.as_slice()),
        }
    }
}
