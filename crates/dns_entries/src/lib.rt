//! The words of a zone file's entries (RFC 1035, section 5.1), with their lines, and why an entry is refused.
//!
//! - `Scan` is fed octets and gathers one entry. Quotes, escapes, comments and parentheses are resolved; `Mode` says
//!   what stands around an octet.
//! - `Word` is a word as it is written, with its line. `WordText` is its octets and `WordList` the words of an entry.
//! - `EntryReason` says why a line is refused, and `ZoneFileError` why a zone file gives no records.
//! - `first_word`, `bare`, `nothing_more`, `unless_at`, `some_or` and `at_line` read words, each with its refusal on
//!   its line.
//!
//! dns_presentation reads the words as names, types and data, and dns_zone_file whole files.
//!
//! ```text
//! octets -> Scan::take, take_run -> entry: Word, Word, .. -> names, times, types, data
//! ```
//!
//! # What is proved
//!
//! - `take` leaves exactly what the definition says after this octet, and says whether the entry is whole. Or it
//!   gives the first refusal, with its line (`after_octet`).
//! - `take_run` takes the longest run of octets that go on with a word or a comment, as `take` would one by one.
//! - Lines are counted from the text: no line of an entry is past the line that was reached.
//! - The readers of words give exactly their definition's value, or its refusal.
//!
//! # What a body could still get away with
//!
//! How much memory words take, and how often octets are copied.
#![tactic(auto)]

mod entry;
mod reason;
mod scan;
mod words;

pub use entry::{Word, WordList, WordText};
pub use reason::{EntryReason, ReasonError, ZoneFileError};
pub use scan::{Mode, Scan};
pub use words::{at_line, bare, first_word, nothing_more, refused, some_or, unless_at};
