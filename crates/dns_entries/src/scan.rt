//! A text is scanned, octet by octet.

ghost use Rattle.std.specs.Prelude.{◌≡◌, ◌+◌, ◌<◌, ◌≤◌, ◌^◌, IfOk, OnOk, length};
ghost use Rattle.dns_entries.specs.Reading.{Gives};
ghost use Rattle.dns_entries.specs.Entries.{after_octet, scan_begins, between, closes_parenthesis, ended, ends_word, escaped_in, goes, goes_on_in, in_plain, in_quotes, is_blank, keeps_octet, line_behind, line_end, opens_parenthesis, run_in, with_run};

use crate::entry::{Word, WordList, WordText};
use crate::reason::{EntryReason, ZoneFileError};
use std::alloc::{AllocError, Global};
use std::mem;

/// What stands around an octet.
#[derive(Clone, Copy, Debug, PartialEq, Eq)]
pub enum Mode {
    /// Nothing of an entry.
    Start,
    /// No word.
    Gap,
    /// A word.
    Plain,
    /// A backslash in a word.
    Escaped,
    /// A word in quotes.
    Quoted,
    /// A backslash in quotes.
    QuotedEscaped,
    /// A comment.
    Comment,
}

/// An entry as far as it is scanned.
#[derive(Drop)]
pub struct Scan {
    pub mode: Mode,
    /// The line, counted from 1.
    pub line: u64,
    /// The line of the parenthesis that is open.
    pub opened: Option<u64>,
    /// Whether the entry begins with a blank.
    pub blank: bool,
    pub words: WordList,
    /// The word so far.
    pub word: WordText,
}

impl Scan {
    /// Before the first octet of an entry.
    pub fn begin(alloc: Global, line: u64) -> Scan
        ensures { result ≡ scan_begins line }
    {
        Scan {
            mode: Mode::Start,
            line,
            opened: None,
            blank: false,
            words: WordList::new(alloc),
            word: WordText::new(alloc),
        }
    }

    /// Before the first octet of another entry.
    pub fn restart(&mut self, line: u64)
        ensures { self.new ≡ scan_begins line }
    {
        self.words.clear();
        self.word.clear();
        self.mode = Mode::Start;
        self.line = line;
        self.opened = None;
        self.blank = false;
    }

    /// Takes the octets at the front that go on with a word or a comment, and says how many they are.
    pub fn take_run(&mut self, text: &[u8]) -> Result<usize, AllocError>
        ensures count { IfOk result (λ n. n ≡ length (run_in self.old.mode text.now)) }
        ensures within { IfOk result (λ n. n ≤ length text.now) }
        ensures line { self.new.line ≡ self.old.line }
        ensures value { OnOk result (self.new ≡ with_run self.old (run_in self.old.mode text.now)) }
    {
        let run = run_in(self.mode, text);
        match self.mode {
            Mode::Plain | Mode::Quoted => self.word.extend(run)?,
            _ => {}
        }
        Ok(run.len())
    }

    /// Takes one octet more, and says whether the entry is whole.
    #[tactic(auto, unfolding(crate::specs::Entries::after_octet))]
    pub fn take(&mut self, alloc: Global, octet: u8) -> Result<bool, ZoneFileError>
        requires { self.old.line + 1 < 2 ^ 64 }
        ensures line { IfOk result (λ whole. line_behind self.new whole ≤ self.old.line + 1) }
        ensures value { Gives (λ whole. (self.new, whole)) result (after_octet self.old octet) }
    {
        match self.mode {
            Mode::Start => {
                if is_blank(octet) {
                    self.blank = true;
                    self.mode = Mode::Gap;
                    return Ok(false);
                }
                self.between(octet)
            }
            Mode::Gap => self.between(octet),
            Mode::Plain => self.in_plain(alloc, octet),
            Mode::Escaped => self.escaped_in(Mode::Plain, octet),
            Mode::Quoted => self.in_quotes(alloc, octet),
            Mode::QuotedEscaped => self.escaped_in(Mode::Quoted, octet),
            Mode::Comment => {
                if octet == b'\n' {
                    return Ok(self.line_end());
                }
                Ok(false)
            }
        }
    }

    fn go(&mut self, mode: Mode)
        ensures { self.new ≡ goes mode self.old }
    {
        self.mode = mode;
    }

    fn keep(&mut self, mode: Mode, octet: u8) -> Result<(), AllocError>
        ensures line { self.new.line ≡ self.old.line }
        ensures value { OnOk result (self.new ≡ keeps_octet mode self.old octet) }
    {
        self.word.push(octet)?;
        self.mode = mode;
        Ok(())
    }

    fn end_word(&mut self, alloc: Global, quoted: bool) -> Result<(), AllocError>
        ensures line { self.new.line ≡ self.old.line }
        ensures value { OnOk result (self.new ≡ ended quoted self.old) }
    {
        let fresh = self.words.spare_text(alloc);
        let octets = mem::replace(&mut self.word, fresh);
        let line = self.line;
        self.words.push(Word {
            line,
            quoted,
            octets,
        })?;
        self.mode = Mode::Gap;
        Ok(())
    }

    fn line_end(&mut self) -> bool
        requires { self.old.line + 1 < 2 ^ 64 }
        ensures line { line_behind self.new result ≤ self.old.line + 1 }
        ensures value { (self.new, result) ≡ line_end self.old }
    {
        if self.opened.is_none() {
            return true;
        }
        self.mode = Mode::Gap;
        self.line += 1;
        false
    }

    fn open_parenthesis(&mut self) -> Result<bool, ZoneFileError>
        ensures line { IfOk result (λ whole. line_behind self.new whole ≤ self.old.line + 1) }
        ensures value { Gives (λ whole. (self.new, whole)) result (opens_parenthesis self.old) }
    {
        let line = self.line;
        if self.opened.is_some() {
            return Err(ZoneFileError::Refused {
                line,
                reason: EntryReason::Parenthesis,
            });
        }
        self.opened = Some(line);
        self.mode = Mode::Gap;
        Ok(false)
    }

    fn close_parenthesis(&mut self) -> Result<bool, ZoneFileError>
        ensures line { IfOk result (λ whole. line_behind self.new whole ≤ self.old.line + 1) }
        ensures value { Gives (λ whole. (self.new, whole)) result (closes_parenthesis self.old) }
    {
        if self.opened.is_none() {
            return Err(ZoneFileError::Refused {
                line: self.line,
                reason: EntryReason::Parenthesis,
            });
        }
        self.opened = None;
        self.mode = Mode::Gap;
        Ok(false)
    }

    /// An octet between words.
    fn between(&mut self, octet: u8) -> Result<bool, ZoneFileError>
        requires { self.old.line + 1 < 2 ^ 64 }
        ensures line { IfOk result (λ whole. line_behind self.new whole ≤ self.old.line + 1) }
        ensures value { Gives (λ whole. (self.new, whole)) result (between self.old octet) }
    {
        if is_blank(octet) {
            self.go(Mode::Gap);
            return Ok(false);
        }
        match octet {
            b'\n' => return Ok(self.line_end()),
            b'"' => self.go(Mode::Quoted),
            b'(' => return self.open_parenthesis(),
            b')' => return self.close_parenthesis(),
            b';' => self.go(Mode::Comment),
            b'\\' => self.keep(Mode::Escaped, octet)?,
            _ => self.keep(Mode::Plain, octet)?,
        }
        Ok(false)
    }

    /// An octet in a word without quotes.
    fn in_plain(&mut self, alloc: Global, octet: u8) -> Result<bool, ZoneFileError>
        requires { self.old.line + 1 < 2 ^ 64 }
        ensures line { IfOk result (λ whole. line_behind self.new whole ≤ self.old.line + 1) }
        ensures value { Gives (λ whole. (self.new, whole)) result (in_plain self.old octet) }
    {
        if octet == b'\\' {
            self.keep(Mode::Escaped, octet)?;
            return Ok(false);
        }
        if ends_word(octet) {
            self.end_word(alloc, false)?;
            return self.between(octet);
        }
        self.keep(Mode::Plain, octet)?;
        Ok(false)
    }

    /// An octet in quotes.
    fn in_quotes(&mut self, alloc: Global, octet: u8) -> Result<bool, ZoneFileError>
        ensures line { IfOk result (λ whole. line_behind self.new whole ≤ self.old.line + 1) }
        ensures value { Gives (λ whole. (self.new, whole)) result (in_quotes self.old octet) }
    {
        match octet {
            b'"' => self.end_word(alloc, true)?,
            b'\n' => {
                return Err(ZoneFileError::Refused {
                    line: self.line,
                    reason: EntryReason::Quote,
                });
            }
            b'\\' => self.keep(Mode::QuotedEscaped, octet)?,
            _ => self.keep(Mode::Quoted, octet)?,
        }
        Ok(false)
    }

    /// An octet after a backslash.
    fn escaped_in(&mut self, mode: Mode, octet: u8) -> Result<bool, ZoneFileError>
        ensures line { IfOk result (λ whole. line_behind self.new whole ≤ self.old.line + 1) }
        ensures value { Gives (λ whole. (self.new, whole)) result (escaped_in mode self.old octet) }
    {
        if octet == b'\n' {
            return Err(ZoneFileError::Refused {
                line: self.line,
                reason: EntryReason::Escape,
            });
        }
        self.keep(mode, octet)?;
        Ok(false)
    }
}

/// Whether an octet goes on with a word or a comment.
fn goes_on_in(mode: Mode, octet: u8) -> bool
    ensures { result ≡ goes_on_in mode octet }
{
    match mode {
        Mode::Plain => !(octet == b'\\' || ends_word(octet)),
        Mode::Quoted => !matches!(octet, b'"' | b'\n' | b'\\'),
        Mode::Comment => octet != b'\n',
        _ => false,
    }
}

/// How many octets at the front go on with a word or a comment.
fn run_length(mode: Mode, text: &[u8]) -> usize
    ensures count { result ≡ length (run_in mode text.now) }
    ensures within { result ≤ length text.now }
{
    let mut count = 0;
    for octet in text {
        if !goes_on_in(mode, *octet) {
            return count;
        }
        count += 1;
    }
    count
}

/// The octets at the front that go on with a word or a comment.
fn run_in(mode: Mode, text: &[u8]) -> &[u8]
    ensures value { result.now ≡ run_in mode text.now }
    ensures within { length result.now ≤ length text.now }
{
    let count = run_length(mode, text);
    &text[..count]
}

/// Whether an octet is the space, the tab or the carriage return.
fn is_blank(octet: u8) -> bool
    ensures { result ≡ is_blank octet }
{
    matches!(octet, b' ' | b'\t' | b'\r')
}

/// Whether a word without quotes ends here.
fn ends_word(octet: u8) -> bool
    ensures { result ≡ ends_word octet }
{
    is_blank(octet) || matches!(octet, b'\n' | b'"' | b'(' | b')' | b';')
}
