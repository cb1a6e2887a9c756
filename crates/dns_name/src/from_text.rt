//! Names from text.

ghost use Rattle.std.specs.Prelude.{◌≡◌, ◌<◌, ◌++◌, ◌∷◌, [], length, IsTrue, Some, Ok, Err, codes, MatchResult};
ghost use Rattle.std.specs.Char.{is_ascii_digit};
ghost use Rattle.dns_name.specs.ErrorTexts.{from_text_text};
ghost use Rattle.dns_name.specs.FromText.{Appends, IsRefusal, Spells, ends_label, escaped, first_label, first_octet, is_dot, label_octets, text_labels, text_name, three_digits};
ghost use Rattle.dns_name.specs.declared.from_text.FromTextError.TheVariants.{OutOfMemory as NoMemory};

use crate::error::OutOfMemory;
use crate::labels::push_spelt;
use std::alloc::{AllocError, AllocFailed, Global};
use std::fmt;

/// Why a text is no name.
#[derive(Clone, Copy, Debug, PartialEq, Eq)]
pub enum FromTextError {
    /// A label has no octet.
    EmptyLabel,
    /// A label has more than 63 octets (RFC 1035, section 2.3.4).
    LongLabel,
    /// The name has more than 255 octets (RFC 1035, section 2.3.4).
    LongName,
    /// A backslash stands in front of no three digits of a number below 256, and of no other printing character or space.
    BadEscape,
    /// A character is none of ASCII that prints, so it has to be escaped (RFC 4343, section 2.1).
    BadCharacter,
    OutOfMemory,
}

impl FromTextError {
    /// The text of the error.
    fn as_str(self) -> &'static str
        ensures { result.now ≡ from_text_text self }
    {
        match self {
            FromTextError::EmptyLabel => "empty label",
            FromTextError::LongLabel => "label too long",
            FromTextError::LongName => "name too long",
            FromTextError::BadEscape => "bad escape",
            FromTextError::BadCharacter => "character that has to be escaped",
            FromTextError::OutOfMemory => "out of memory",
        }
    }
}

impl fmt::Display for FromTextError {
    ghost output = { λ e. Some (from_text_text e) };

    fn fmt<W: fmt::Write>(&self, f: &mut fmt::Formatter<W>) -> fmt::Result {
        f.write_str(self.as_str())
    }
}

impl std::error::Error for FromTextError {}

impl From<OutOfMemory> for FromTextError {
    ghost from_gives = { λ _ e. e ≡ NoMemory };

    fn from(_error: OutOfMemory) -> Self {
        FromTextError::OutOfMemory
    }
}

impl From<AllocError> for FromTextError {
    ghost from_gives = { λ _ e. e ≡ NoMemory };

    fn from(_error: AllocError) -> Self {
        FromTextError::OutOfMemory
    }
}

impl<T: Drop> From<AllocFailed<T>> for FromTextError {
    ghost from_gives = { λ _ e. e ≡ NoMemory };

    fn from(_error: AllocFailed<T>) -> Self {
        FromTextError::OutOfMemory
    }
}

/// The octets of the name that a text is.
pub(crate) fn name_in(alloc: Global, text: &[u8]) -> Result<Vec<u8>, FromTextError>
    ensures { MatchResult result (λ octets. Spells (text_name text.now) octets.items) (λ e. IsRefusal e (text_name text.now)) }
{
    if is_dot(text) {
        return Ok(Vec::from_slice(alloc, &[0])?);
    }
    let mut octets = labels_in(alloc, text)?;
    octets.push(0)?;
    Ok(octets)
}

/// The octets of the labels of a text, without the root's.
fn labels_in(alloc: Global, text: &[u8]) -> Result<Vec<u8>, FromTextError>
    ensures { MatchResult result (λ octets. Spells (text_labels text.now) (octets.items ++ (0 ∷ [])))
        (λ e. IsRefusal e (text_labels text.now)) }
{
    let mut octets = Vec::new(alloc);
    let mut label = Vec::new(alloc);
    let mut rest = text;
    'labels: loop {
        let behind = push_label(rest, &mut label, &mut octets)?;
        if behind.len() < 2 {
            return Ok(octets);
        }
        rest = &behind[1..];
    }
}

/// Appends the label that a text begins with, after its length, and gives the text after it. The label's octets
/// take the place of what is in the first vector.
fn push_label<'a>(
    text: &'a [u8],
    label: &mut Vec<u8>,
    octets: &mut Vec<u8>,
) -> Result<&'a [u8], FromTextError>
    requires { length octets.old.items < 255 }
    ensures { MatchResult result (λ rest. Appends
        (first_label (length octets.old.items) text.now) octets.old.items octets.new.items rest.now)
        (λ e. IsRefusal e (first_label (length octets.old.items) text.now)) }
{
    label.clear();
    let rest = fill_label(text, label)?;
    if label.is_empty() {
        return Err(FromTextError::EmptyLabel);
    }
    if octets.len() + label.len() + 2 > 255 {
        return Err(FromTextError::LongName);
    }
    push_spelt(label.as_slice(), octets)?;
    Ok(rest)
}

/// Appends the octets of the label that a text begins with to none, and gives the text after it.
fn fill_label<'a>(text: &'a [u8], label: &mut Vec<u8>) -> Result<&'a [u8], FromTextError>
    requires { label.old.items ≡ [] }
    ensures { MatchResult result (λ rest. label_octets text.now ≡ Ok (label.new.items, rest.now))
        (λ e. IsRefusal e (label_octets text.now)) }
{
    let mut rest = text;
    'octets: loop {
        if ends_label(rest) {
            return Ok(rest);
        }
        let (octet, behind) = first_octet(rest)?;
        if label.len() > 62 {
            return Err(FromTextError::LongLabel);
        }
        label.push(octet)?;
        rest = behind;
    }
}

/// Whether a text is a dot alone.
fn is_dot(text: &[u8]) -> bool
    ensures { result ≡ is_dot text.now }
{
    matches!(text, [b'.'])
}

/// Whether a label ends here.
fn ends_label(text: &[u8]) -> bool
    ensures { result ≡ ends_label text.now }
{
    matches!(text, [] | [b'.', ..])
}

/// The octet that a text begins with, and the text after it (RFC 1035, section 5.1).
fn first_octet(text: &[u8]) -> Result<(u8, &[u8]), FromTextError>
    ensures { MatchResult result (λ r. first_octet text.now ≡ Ok (r.0, r.1.now)) (λ e. first_octet text.now ≡ Err e) }
{
    match text {
        [b'\\', rest @ ..] => escaped(rest),
        [octet @ b'!'..=b'~', rest @ ..] => Ok((*octet, rest)),
        _ => Err(FromTextError::BadCharacter),
    }
}

/// The octet of an escape, from after its backslash, and the text after it.
fn escaped(text: &[u8]) -> Result<(u8, &[u8]), FromTextError>
    ensures { MatchResult result (λ r. escaped text.now ≡ Ok (r.0, r.1.now)) (λ e. escaped text.now ≡ Err e) }
{
    match text {
        [digit @ b'0'..=b'9', rest @ ..] => three_digits(*digit, rest),
        [octet @ b' '..=b'~', rest @ ..] => Ok((*octet, rest)),
        _ => Err(FromTextError::BadEscape),
    }
}

/// The octet of three digits, from the first one and the text after it, and the text after them.
fn three_digits(hundreds: u8, text: &[u8]) -> Result<(u8, &[u8]), FromTextError>
    requires { IsTrue (is_ascii_digit hundreds) }
    ensures { MatchResult result (λ r. three_digits hundreds text.now ≡ Ok (r.0, r.1.now)) (λ e. three_digits hundreds text.now ≡ Err e) }
{
    let [tens @ b'0'..=b'9', ones @ b'0'..=b'9', rest @ ..] = text else {
        return Err(FromTextError::BadEscape);
    };
    let tens = 10 * (*tens - b'0') as u16 + (*ones - b'0') as u16;
    match u8::try_from(100 * (hundreds - b'0') as u16 + tens) {
        Ok(octet) => Ok((octet, rest)),
        Err(_) => Err(FromTextError::BadEscape),
    }
}
