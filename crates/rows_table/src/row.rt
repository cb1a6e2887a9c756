//! A row that is judged: its arguments are read one after the other, and what its call says of them is written.

use crate::page::Page;
use crate::words::{address_of, array_of, number_of};
use crate::{RowError, Steps};
use dns_name::{IpAddr, NameRef};
use std::alloc::Global;
use std::str::FromStr;

/// The name of no labels.
fn root<'a>() -> NameRef<'a> {
    match NameRef::from_slice(b"\0") {
        Ok(root) => root,
        Err(_) => unreachable!(),
    }
}

/// The words of a row that are still to be read, and the octets that they are. Then what its call says so far, and the first fault,
/// if there is one. A row with a fault doesn't hold, whatever its call says: so what can't be read is zero or empty, and reading
/// goes on.
#[derive(Drop)]
pub struct Row<'a> {
    alloc: Global,
    words: &'a str,
    pages: &'a [Page<'a>],
    pub(crate) said: String,
    pub(crate) fault: Option<RowError>,
}

impl<'a> Row<'a> {
    /// A row of the words of a text, which spaces part, with the octets that they are.
    pub fn of(alloc: Global, text: &'a str, pages: &'a [Page<'a>]) -> Row<'a> {
        Row {
            alloc,
            words: text.trim(),
            pages,
            said: String::new(alloc),
            fault: None,
        }
    }

    /// The memory that calls are handed.
    pub fn alloc(&self) -> Global {
        self.alloc
    }

    /// Keeps a fault, if it is the first.
    pub fn fail(&mut self, fault: RowError) {
        if self.fault.is_none() {
            self.fault = Some(fault);
        }
    }

    /// Keeps a fault, if it is the first; a refusal of octets is no fault, but then all that the row says.
    pub fn give_up(&mut self, fault: RowError) {
        match fault {
            RowError::Refused(error) => self.refuse(error),
            fault => self.fail(fault),
        }
    }

    /// The value that was read, or else the other one and a fault.
    pub fn read<T: Drop>(&mut self, read: Result<T, RowError>, other: T) -> T {
        match read {
            Ok(value) => value,
            Err(fault) => {
                self.fail(fault);
                other
            }
        }
    }

    /// The next word, which has to be there.
    pub fn word(&mut self) -> &'a str {
        if self.words.is_empty() {
            self.fail(RowError::Missing);
        }
        let (word, rest) = self.words.split_once(' ').unwrap_or((self.words, ""));
        self.words = rest.trim();
        word
    }

    /// The octets of the next word in hexadecimal, `-` for none.
    pub fn octets(&mut self) -> &'a [u8] {
        let word = self.word();
        self.octets_of(word)
    }

    /// The octets of a word in hexadecimal, `-` for none.
    pub fn octets_of(&mut self, word: &str) -> &'a [u8] {
        if word == "-" {
            return b"";
        }
        for page in self.pages {
            if page.word == word {
                return &page.octets;
            }
        }
        self.fail(RowError::OutOfForm);
        b""
    }

    /// The octets of the next word in hexadecimal, owned; `-` stands for none.
    pub fn vector(&mut self) -> Vec<u8> {
        let octets = self.octets();
        self.copied(octets)
    }

    /// A copy of octets. If memory runs out the row fails, and there are none.
    pub fn copied(&mut self, octets: &[u8]) -> Vec<u8> {
        match Vec::from_slice(self.alloc, octets) {
            Ok(copy) => copy,
            Err(_) => {
                self.fail(RowError::OutOfMemory);
                Vec::new(self.alloc)
            }
        }
    }

    /// The uncompressed name that the octets of the next word are.
    pub fn name(&mut self) -> NameRef<'a> {
        let word = self.word();
        self.name_of(word)
    }

    /// The uncompressed name that the octets of a word are.
    pub fn name_of(&mut self, word: &str) -> NameRef<'a> {
        match NameRef::from_slice(self.octets_of(word)) {
            Ok(name) => name,
            Err(_) => {
                self.fail(RowError::OutOfForm);
                root()
            }
        }
    }

    /// That many octets of the next word in hexadecimal.
    pub fn array<const N: usize>(&mut self) -> [u8; N] {
        let octets = array_of(self.word());
        self.read(octets, [0; N])
    }

    /// The text between two quotation marks.
    pub fn text(&mut self) -> &'a str {
        let quoted = self.words.strip_prefix('"').unwrap_or("");
        match quoted.split_once('"') {
            Some((text, rest)) => {
                self.words = rest.trim();
                text
            }
            None => {
                self.fail(RowError::OutOfForm);
                ""
            }
        }
    }

    /// All words that are left, to be parted by a space each.
    pub fn all_words(&mut self) -> &'a str {
        let words = self.words;
        self.words = "";
        words
    }

    /// The number that the next word is in decimal.
    pub fn number<N: FromStr + Default + Drop>(&mut self) -> N
    where
        N::Err: Drop,
    {
        let word = self.word();
        self.number_of(word)
    }

    /// The number that a word is in decimal.
    pub fn number_of<N: FromStr + Default + Drop>(&mut self, word: &str) -> N
    where
        N::Err: Drop,
    {
        self.read(number_of(word), N::default())
    }

    /// The number of the next word, or none if it is `none`.
    pub fn optional<N: FromStr + Default + Drop>(&mut self) -> Option<N>
    where
        N::Err: Drop,
    {
        match self.word() {
            "none" => None,
            word => Some(self.number_of(word)),
        }
    }

    /// The address that the 4 or 16 octets of the next word are.
    pub fn address(&mut self) -> IpAddr {
        let address = address_of(self.word());
        self.read(address, IpAddr::V4([0; 4]))
    }

    /// Takes the steps of all words that are left, which this text parts: each begins with its name.
    pub fn take_steps<T: Steps>(&mut self, parted: &str, target: &mut T) {
        let steps = self.all_words();
        if steps.is_empty() {
            return;
        }
        for step in steps.split(parted) {
            self.take_step(step, target);
        }
    }

    /// Takes the step of a text.
    fn take_step<T: Steps>(&mut self, step: &'a str, target: &mut T) {
        self.words = step.trim();
        let name = self.word();
        target.take_step(name, self);
        self.end();
    }

    /// Refuses words that nothing has read.
    pub(crate) fn end(&mut self) {
        if !self.words.is_empty() {
            self.fail(RowError::TooMany);
        }
    }
}
