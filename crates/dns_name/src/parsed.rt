//! Names of a message, pointers followed.

ghost use Rattle.std.specs.Prelude.{◌≡◌, ◌≤◌, ◌+◌, ◌↔◌, length, IsTrue, IfOk, IfSome, Ok, Some, ⊤};
ghost use Rattle.std.specs.Cmp.{partial_equiv_from_equiv};
ghost use Rattle.dns_name.specs.Canonical.{same_name, same_name_equiv};
ghost use Rattle.dns_name.specs.Labels.{IsName, EndsWith, folded};
ghost use Rattle.dns_name.specs.NameText.{name_text};
ghost use Rattle.dns_name.specs.Names.{end_of, name_at, name_by, name_within};
ghost use Rattle.dns_name.specs.Place.{Parses};

use crate::error::{FormReason, OutOfMemory, ParseError};
use crate::labels::{Labels, ends, same};
use crate::name::{Name, NameRef};
use crate::name_text::write_name;
use crate::parser::Parser;
use crate::piece::{NameBounds, Piece, piece_at};
use std::alloc::{AllocError, Global};
use std::fmt;
use std::marker::Model;

/// A name of a message, pointers followed (RFC 1035, section 4.1.4).
#[derive(Drop)]
pub struct ParsedName<'a> {
    message: &'a [u8],
    reach: NameBounds,
    at: usize,
}

impl<'a> Model for ParsedName<'a> {
    ghost use Rattle.std.specs.Prelude.{List, ℕ};
    ghost use Rattle.dns_name.specs.Names.{CanGoOn, labels_of, name_by};

    ghost Value = { List (List ℕ) };

    ghost view = { λ n. labels_of (name_by n.message.now n.reach n.at) };

    ghost invariant = { λ n. CanGoOn n.message.now n.reach n.at 0 0 };
}

impl<'a> Clone for ParsedName<'a> {
    ghost is_clone = { λ name copy. copy ≡ name };

    ghost is_infallible = { λ _. ⊤ };

    fn clone(&self) -> Result<ParsedName<'a>, AllocError> {
        Ok(ParsedName {
            message: self.message,
            reach: self.reach,
            at: self.at,
        })
    }
}

impl<'a> PartialEq for ParsedName<'a> {
    ghost eq = { same_name };

    ghost laws = { partial_equiv_from_equiv same_name_equiv };

    fn eq(&self, other: &ParsedName<'a>) -> bool {
        let others = other.labels();
        same(self.labels(), others)
    }
}

impl<'a> Eq for ParsedName<'a> {
    ghost laws = { same_name_equiv };
}

impl<'a> fmt::Display for ParsedName<'a> {
    ghost output = { λ n. Some (name_text n) };

    fn fmt<W: fmt::Write>(&self, f: &mut fmt::Formatter<W>) -> fmt::Result {
        write_name(self.labels(), f)
    }
}

impl<'a> fmt::Debug for ParsedName<'a> {
    ghost debug_output = { λ n. Some (name_text n) };

    fn fmt<W: fmt::Write>(&self, f: &mut fmt::Formatter<W>) -> fmt::Result {
        write_name(self.labels(), f)
    }
}

/// The place after the name that is read so at a place.
#[inline(always)]
pub(crate) fn end_at(message: &[u8], reach: NameBounds, start: usize) -> Result<usize, ParseError>
    requires first { start ≤ reach.limit }
    requires limited { reach.limit ≤ length message.now }
    ensures value { result ≡ end_of (name_by message.now reach start) }
    ensures within { IfOk result (λ end. end ≤ reach.limit) }
{
    match plain_end(message, reach, start) {
        Some(end) => Ok(end),
        None => walked_end(message, reach, start),
    }
}

/// The place after the name at a place, if it is labels alone up to the root's and has at most 255 octets.
/// None if a pointer comes, or the name is refused.
#[inline(always)]
fn plain_end(message: &[u8], reach: NameBounds, start: usize) -> Option<usize>
    requires first { start ≤ reach.limit }
    requires limited { reach.limit ≤ length message.now }
    ensures value { IfSome result (λ end. end_of (name_by message.now reach start) ≡ Ok end) }
    ensures within { IfSome result (λ end. end ≤ reach.limit) }
{
    let bound = start + (reach.limit - start).min(255);
    let mut at = start;
    'labels: while at < bound {
        let head = message[at] as usize;
        if head == 0 {
            return Some(at + 1);
        }
        if head > 63 {
            return None;
        }
        at = at + head + 1;
    }
    None
}

/// The place after the name that is read so at a place, piece by piece, pointers followed where they are.
fn walked_end(message: &[u8], reach: NameBounds, start: usize) -> Result<usize, ParseError>
    requires first { start ≤ reach.limit }
    requires limited { reach.limit ≤ length message.now }
    ensures value { result ≡ end_of (name_by message.now reach start) }
    ensures within { IfOk result (λ end. end ≤ reach.limit) }
{
    let mut at = start;
    let mut size = 0usize;
    let mut hops = 0usize;
    let mut end = None;
    'pieces: loop {
        match piece_at(message, reach, hops, at)? {
            Piece::End => {
                return Ok(end.unwrap_or(at + 1));
            }
            Piece::Text(n) => {
                if size + n + 2 > 255 {
                    return Err(ParseError::Form(FormReason::LongName));
                }
                at = at + n + 1;
                size = size + n + 1;
            }
            Piece::Jump(target) => {
                if hops > 254 {
                    return Err(ParseError::Form(FormReason::Hops));
                }
                end = Some(end.unwrap_or(at + 2));
                at = target;
                hops += 1;
            }
        }
    }
}

impl<'a> ParsedName<'a> {
    /// The name at a place of a message and the place after it, if the octets before the name's first
    /// pointer lie before the limit.
    pub fn at(
        message: &'a [u8],
        limit: usize,
        at: usize,
    ) -> Result<(ParsedName<'a>, usize), ParseError>
        requires first { at ≤ limit }
        requires limited { limit ≤ length message.now }
        ensures value { result ≡ name_within message.now limit at }
        ensures within { IfOk result (λ r. r.1 ≤ limit) }
    {
        let reach = NameBounds {
            limit,
            pointers: true,
        };
        let end = end_at(message, reach, at)?;
        Ok((ParsedName { message, reach, at }, end))
    }

    /// An uncompressed name, seen as one in a message that is the name alone.
    pub fn of(name: &NameRef<'a>) -> ParsedName<'a>
        ensures { result ≡ name.now }
    {
        let message = name.as_slice();
        let reach = NameBounds {
            limit: message.len(),
            pointers: false,
        };
        ParsedName {
            message,
            reach,
            at: 0,
        }
    }

    /// The name at the parser's place, whose slice is the message.
    pub fn parse(parser: &mut Parser<'a>) -> Result<ParsedName<'a>, ParseError>
        ensures { Parses result parser.old parser.new (name_at parser.old.octets parser.old.at) }
    {
        let message = parser.as_slice();
        let (name, end) = ParsedName::at(message, message.len(), parser.pos())?;
        parser.go_to(end);
        Ok(name)
    }

    /// The labels, from the first to the last, without the root's.
    pub fn labels(&self) -> Labels<'a>
        ensures value { result ≡ self.now }
        ensures named { IsName self.now }
        ensures few { length self.now ≤ 127 }
    {
        Labels::of(self.message, self.reach, self.at)
    }

    /// How many labels there are, the root's among them.
    pub fn label_count(&self) -> usize
        ensures { result ≡ length self.now + 1 }
    {
        self.labels().count() + 1
    }

    /// Whether the names are the same up to ASCII case.
    pub fn name_eq(&self, other: &NameRef<'_>) -> bool
        ensures equal { IsTrue result ↔ (folded self.now ≡ folded other.now) }
        ensures same { result ≡ same_name self.now other.now }
    {
        same(self.labels(), other.labels())
    }

    /// Whether the other name's labels are the last ones, up to ASCII case.
    pub fn ends_with(&self, other: &NameRef<'_>) -> bool
        ensures { IsTrue result ↔ EndsWith self.now other.now }
    {
        ends(
            self.labels(),
            self.label_count(),
            other.labels(),
            other.label_count(),
        )
    }

    /// Copies the name out of the message, uncompressed.
    pub fn to_name(&self, alloc: Global) -> Result<Name, OutOfMemory>
        ensures { IfOk result (λ n. n ≡ self.now) }
    {
        Name::of(alloc, self.labels())
    }
}
