//! Names that stand alone, uncompressed.

ghost use Rattle.std.specs.Prelude.{◌≡◌, ◌≤◌, ◌+◌, ◌++◌, ◌↔◌, ◌-◌, [], ℕ, List, length, take, drop, Some, IsTrue, IfOk, OnOk, OnErr, ⊤};
ghost use Rattle.dns_name.specs.Canonical.{name_cmp, same_name};
ghost use Rattle.dns_name.specs.FromText.{GivesName, text_name};
ghost use Rattle.dns_name.specs.Labels.{IsName, EndsWith, folded, spell};
ghost use Rattle.dns_name.specs.NameText.{name_text};
ghost use Rattle.dns_name.specs.Names.{uncompressed, uncompressed_at};
ghost use Rattle.dns_name.specs.Place.{Parses};

mod parents;

use crate::error::{FormReason, OutOfMemory, ParseError};
use crate::from_text::{FromTextError, name_in};
use crate::labels::{Labels, canonical, ends, push_spelt};
use crate::name_text::write_name;
use crate::parsed::end_at;
use crate::parser::Parser;
use crate::piece::NameBounds;
use std::alloc::{AllocError, Global};
use std::cmp::Ordering;
use std::fmt;
use std::marker::Model;

/// A name, owned, that contracts see as its labels without the root's (RFC 1035, section 3.1).
#[derive(Drop)]
pub struct Name {
    octets: Vec<u8>,
}

impl Model for Name {
    ghost use Rattle.std.specs.Prelude.{List, ℕ};
    ghost use Rattle.dns_name.specs.Names.{IsSpelt, labels_of, uncompressed_at};

    ghost Value = { List (List ℕ) };

    ghost view = { λ n. labels_of (uncompressed_at n.octets.items 0) };

    ghost invariant = { λ n. IsSpelt n.octets.items };
}

/// A name, borrowed, that contracts see as its labels without the root's.
#[derive(Drop)]
pub struct NameRef<'a> {
    octets: &'a [u8],
}

impl<'a> Model for NameRef<'a> {
    ghost use Rattle.std.specs.Prelude.{List, ℕ};
    ghost use Rattle.dns_name.specs.Names.{IsSpelt, labels_of, uncompressed_at};

    ghost Value = { List (List ℕ) };

    ghost view = { λ n. labels_of (uncompressed_at n.octets.now 0) };

    ghost invariant = { λ n. IsSpelt n.octets.now };
}

impl<'a> Clone for NameRef<'a> {
    ghost is_clone = { λ name copy. copy ≡ name };

    ghost is_infallible = { λ _. ⊤ };

    fn clone(&self) -> Result<NameRef<'a>, AllocError> {
        Ok(NameRef {
            octets: self.octets,
        })
    }
}

impl<'a> NameRef<'a> {
    /// The uncompressed name that the octets spell (RFC 1035, section 3.1). Octets after its root label are refused.
    pub fn from_slice(octets: &'a [u8]) -> Result<NameRef<'a>, ParseError>
        ensures { result ≡ uncompressed octets.now }
    {
        let reach = NameBounds {
            limit: octets.len(),
            pointers: false,
        };
        let end = end_at(octets, reach, 0)?;
        if end < octets.len() {
            return Err(ParseError::Form(FormReason::Trailing));
        }
        Ok(NameRef { octets })
    }

    /// The uncompressed name at a place, and the place after it.
    pub fn at(octets: &'a [u8], at: usize) -> Result<(NameRef<'a>, usize), ParseError>
        requires { at ≤ length octets.now }
        ensures value { result ≡ uncompressed_at octets.now at }
        ensures within { IfOk result (λ r. r.1 ≤ length octets.now) }
    {
        let reach = NameBounds {
            limit: octets.len(),
            pointers: false,
        };
        let end = end_at(octets, reach, at)?;
        let name = part(octets, at, end);
        Ok((NameRef { octets: name }, end))
    }

    /// The uncompressed name at the parser's place.
    pub fn parse(parser: &mut Parser<'a>) -> Result<NameRef<'a>, ParseError>
        ensures { Parses result parser.old parser.new (uncompressed_at parser.old.octets parser.old.at) }
    {
        let (name, end) = NameRef::at(parser.as_slice(), parser.pos())?;
        parser.go_to(end);
        Ok(name)
    }

    /// The octets of the name with the root label, at most 255.
    pub fn as_slice(&self) -> &'a [u8]
        ensures value { result.now ≡ spell self.now }
        ensures named { IsName self.now }
    {
        self.octets
    }

    /// How many octets the name takes, uncompressed.
    pub fn compose_len(&self) -> u16
        ensures { result ≡ length (spell self.now) }
    {
        self.as_slice().len() as u16
    }

    /// Appends the uncompressed octets of the name, with the root label.
    pub fn compose(&self, alloc: Global, target: &mut Vec<u8>) -> Result<(), OutOfMemory>
        ensures ok { OnOk result (target.new.items ≡ target.old.items ++ spell self.now) }
        ensures err { OnErr result (target.new.items ≡ target.old.items) }
    {
        target.extend_from_slice(self.as_slice())?;
        Ok(())
    }

    /// The labels, from the first to the last, without the root's.
    pub fn labels(&self) -> Labels<'a>
        ensures value { result ≡ self.now }
        ensures named { IsName self.now }
        ensures few { length self.now ≤ 127 }
    {
        let reach = NameBounds {
            limit: self.octets.len(),
            pointers: false,
        };
        Labels::of(self.octets, reach, 0)
    }

    /// How many labels there are, the root's among them.
    pub fn label_count(&self) -> usize
        ensures { result ≡ length self.now + 1 }
    {
        self.labels().count() + 1
    }

    /// Whether the names are the same up to ASCII case.
    pub fn name_eq(&self, other: &NameRef<'_>) -> bool
        ensures equal { IsTrue result ↔ (folded self.now ≡ folded other.now) }
        ensures same { result ≡ same_name self.now other.now }
    {
        self.as_slice().eq_ignore_ascii_case(other.as_slice())
    }

    /// How the names compare in the canonical order (RFC 4034, section 6.1).
    pub fn name_cmp(&self, other: &NameRef<'_>) -> Ordering
        ensures { result ≡ name_cmp self.now other.now }
    {
        canonical(
            self.labels(),
            self.label_count(),
            other.labels(),
            other.label_count(),
        )
    }

    /// Whether the other name's labels are the last ones, up to ASCII case.
    pub fn ends_with(&self, other: &NameRef<'_>) -> bool
        ensures { IsTrue result ↔ EndsWith self.now other.now }
    {
        ends(
            self.labels(),
            self.label_count(),
            other.labels(),
            other.label_count(),
        )
    }

    /// Copies the octets into an owned name.
    pub fn to_owned(&self, alloc: Global) -> Result<Name, OutOfMemory>
        ensures { IfOk result (λ n. n ≡ self.now) }
    {
        let octets = Vec::from_slice(alloc, self.octets)?;
        Ok(Name { octets })
    }
}

impl Name {
    /// The root's name.
    pub fn root(alloc: Global) -> Result<Name, OutOfMemory>
        ensures { IfOk result (λ n. n ≡ []) }
    {
        let octets = Vec::from_slice(alloc, &[0])?;
        Ok(Name { octets })
    }

    /// The name that a text is (RFC 1035, section 5.1), absolute with a final dot or without; the root's is a dot.
    pub fn from_text(alloc: Global, text: &str) -> Result<Name, FromTextError>
        ensures { GivesName result (text_name text.now) }
    {
        Name::from_text_octets(alloc, text.as_bytes())
    }

    /// The name that a text's octets are (RFC 1035, section 5.1). Octets above 127 are refused as `BadCharacter`.
    pub fn from_text_octets(alloc: Global, text: &[u8]) -> Result<Name, FromTextError>
        ensures { GivesName result (text_name text.now) }
    {
        let octets = name_in(alloc, text)?;
        Ok(Name { octets })
    }

    /// The uncompressed name that the octets spell (RFC 1035, section 3.1). Octets after its root label are refused. The vector is not copied.
    pub fn from_octets(octets: Vec<u8>) -> Result<Name, ParseError>
        ensures { result ≡ uncompressed octets.items }
    {
        NameRef::from_slice(octets.as_slice())?;
        Ok(Name { octets })
    }

    /// The name of these labels.
    pub fn of(alloc: Global, labels: Labels<'_>) -> Result<Name, OutOfMemory>
        requires { IsName labels }
        ensures { IfOk result (λ n. n ≡ labels.entry) }
    {
        let octets = spelt(alloc, labels)?;
        Ok(Name { octets })
    }

    /// A copy in memory of its own. Letters keep their case.
    pub fn try_clone(&self, alloc: Global) -> Result<Name, OutOfMemory>
        ensures { IfOk result (λ n. n ≡ self.now) }
    {
        self.for_ref().to_owned(alloc)
    }

    /// Borrows the name; no octet is copied.
    pub fn for_ref(&self) -> NameRef<'_>
        ensures value { result ≡ self.now }
        ensures named { IsName self.now }
    {
        NameRef {
            octets: self.octets.as_slice(),
        }
    }

    /// The octets of the name with the root label, at most 255.
    pub fn as_slice(&self) -> &[u8]
        ensures value { result.now ≡ spell self.now }
        ensures named { IsName self.now }
    {
        self.octets.as_slice()
    }

    /// How many octets the name takes, uncompressed.
    pub fn compose_len(&self) -> u16
        ensures { result ≡ length (spell self.now) }
    {
        self.for_ref().compose_len()
    }

    /// Appends the uncompressed octets of the name, with the root label.
    pub fn compose(&self, alloc: Global, target: &mut Vec<u8>) -> Result<(), OutOfMemory>
        ensures ok { OnOk result (target.new.items ≡ target.old.items ++ spell self.now) }
        ensures err { OnErr result (target.new.items ≡ target.old.items) }
    {
        self.for_ref().compose(alloc, target)
    }

    /// The labels, from the first to the last, without the root's.
    pub fn labels(&self) -> Labels<'_>
        ensures value { result ≡ self.now }
        ensures named { IsName self.now }
        ensures few { length self.now ≤ 127 }
    {
        self.for_ref().labels()
    }

    /// How many labels there are, the root's among them.
    pub fn label_count(&self) -> usize
        ensures { result ≡ length self.now + 1 }
    {
        self.for_ref().label_count()
    }

    /// Whether the names are the same up to ASCII case.
    pub fn name_eq(&self, other: &NameRef<'_>) -> bool
        ensures equal { IsTrue result ↔ (folded self.now ≡ folded other.now) }
        ensures same { result ≡ same_name self.now other.now }
    {
        self.for_ref().name_eq(other)
    }

    /// How the names compare in the canonical order (RFC 4034, section 6.1).
    pub fn name_cmp(&self, other: &NameRef<'_>) -> Ordering
        ensures { result ≡ name_cmp self.now other.now }
    {
        self.for_ref().name_cmp(other)
    }

    /// Whether the other name's labels are the last ones, up to ASCII case.
    pub fn ends_with(&self, other: &NameRef<'_>) -> bool
        ensures { IsTrue result ↔ EndsWith self.now other.now }
    {
        self.for_ref().ends_with(other)
    }
}

/// A name that is owned or borrowed, so that one type serves both.
pub trait HoldsName: Drop {
    /// The name's labels.
    ghost labels: { Self → List (List ℕ) };

    /// The name, borrowed.
    fn as_name(&self) -> NameRef<'_>
        ensures { result ≡ labels self.now };
}

impl HoldsName for Name {
    ghost labels = { λ n. n };

    fn as_name(&self) -> NameRef<'_> {
        self.for_ref()
    }
}

impl<'a> HoldsName for NameRef<'a> {
    ghost labels = { λ n. n };

    fn as_name(&self) -> NameRef<'_> {
        NameRef {
            octets: self.octets,
        }
    }
}

impl<'a> fmt::Display for NameRef<'a> {
    ghost output = { λ n. Some (name_text n) };

    fn fmt<W: fmt::Write>(&self, f: &mut fmt::Formatter<W>) -> fmt::Result {
        write_name(self.labels(), f)
    }
}

impl fmt::Display for Name {
    ghost output = { λ n. Some (name_text n) };

    fn fmt<W: fmt::Write>(&self, f: &mut fmt::Formatter<W>) -> fmt::Result {
        let name = self.for_ref();
        write!(f, "{name}")
    }
}

impl<'a> fmt::Debug for NameRef<'a> {
    ghost debug_output = { λ n. Some (name_text n) };

    fn fmt<W: fmt::Write>(&self, f: &mut fmt::Formatter<W>) -> fmt::Result {
        write_name(self.labels(), f)
    }
}

impl fmt::Debug for Name {
    ghost debug_output = { λ n. Some (name_text n) };

    fn fmt<W: fmt::Write>(&self, f: &mut fmt::Formatter<W>) -> fmt::Result {
        write_name(self.labels(), f)
    }
}

/// The octets between two places.
fn part(octets: &[u8], start: usize, end: usize) -> &[u8]
    requires order { start ≤ end }
    requires within { end ≤ length octets.now }
    ensures { result.now ≡ take (end - start) (drop start octets.now) }
{
    &octets[start..end]
}

/// How many octets a name has room for at first, when it is put together of labels.
const ROOM: usize = 32;

/// The octets of labels.
fn spelt(alloc: Global, mut labels: Labels<'_>) -> Result<Vec<u8>, OutOfMemory>
    requires { IsName labels }
    ensures { IfOk result (λ v. v.items ≡ spell labels.entry) }
{
    let mut octets = Vec::with_capacity(alloc, ROOM)?;
    'labels: while let Some(label) = labels.next() {
        push_spelt(label, &mut octets)?;
    }
    octets.push(0)?;
    Ok(octets)
}
