//! EXTENDED-ERROR: why an answer is as it is (RFC 8914), owned or borrowed.

ghost use Rattle.std.specs.Prelude.{◌≡◌, ◌≢◌, [], ◌≤◌, ◌<◌, ◌+◌, ◌++◌, ◌↔◌, length, Some, None, IsTrue, IfOk, MatchResult, option_map};
ghost use Rattle.std.specs.Option.{option_copied};
ghost use Rattle.dns_name.specs.OptData.{GivesWhole, ParsesData, for_code};
ghost use Rattle.dns_name.specs.Place.{rest};
ghost use Rattle.dns_kinds.specs.RoundTrip.{extended_again};
ghost use Rattle.dns_kinds.specs.Extended.{Copied, IsExtended, TextFits, MadeExtended, ReadsText, extended, extended_data, extended_octets, extended_text, text_octets, text_shown};

use bstr::BStr;
use dns_name::{
    BuildDataError, ComposeOptData, ExtendedErrorCode, FormReason, HoldsOctets, LongOptData,
    OctetStore, OptData, OptionCode, OutOfMemory, ParseError, ParseOptData, Parser, ReadBack,
};
use std::alloc::Global;
use std::fmt;
use std::marker::Model;

/// A code and a text, owned.
pub type ExtendedError = HeldExtendedError<Vec<u8>>;

/// A code and a text, borrowed.
pub type ExtendedErrorRef<'a> = HeldExtendedError<&'a [u8]>;

/// A code and a text in S.
#[derive(Drop)]
#[derive_where(Debug, PartialEq, Eq, Hash)]
#[derive_where(Clone; S: Copy)]
pub struct HeldExtendedError<S: HoldsOctets> {
    code: ExtendedErrorCode,
    text: Option<OctetStore<S>>,
}

impl<S: HoldsOctets> Model for HeldExtendedError<S> {
    ghost use Rattle.dns_kinds.specs.Extended.{Extended, TextFits, extended};

    ghost Value = { Extended };

    ghost view = { λ k. extended k.code k.text };

    ghost inverse = { λ e. record { code = e.code; text = e.text } };

    ghost invariant = { λ k. TextFits k.text };
}

impl<S: HoldsOctets> HeldExtendedError<S> {
    /// A code and a text of any octets, which are not copied.
    pub fn new(
        code: ExtendedErrorCode,
        text: Option<S>,
    ) -> Result<HeldExtendedError<S>, LongOptData>
        ensures { MadeExtended code (option_map S.octets text) result }
    {
        let Some(text) = text else {
            return Ok(HeldExtendedError { code, text: None });
        };
        let text = OctetStore::of(text);
        if text.as_slice().len() > 65533 {
            return Err(LongOptData);
        }
        Ok(HeldExtendedError {
            code,
            text: Some(text),
        })
    }

    /// The info code (RFC 8914, section 5.2).
    pub fn code(&self) -> ExtendedErrorCode
        ensures { result ≡ self.now.code }
    {
        self.code
    }

    /// Whether the code is one for private use (RFC 8914, section 5.2).
    pub fn is_private(&self) -> bool
        ensures { IsTrue result ↔ (49152 ≤ self.now.code) }
    {
        self.code.to_int() >= 49152
    }
}

impl<'a> HeldExtendedError<&'a [u8]> {
    /// The text, or the octets if they are no UTF-8.
    pub fn text(&self) -> Option<Result<&'a str, &'a [u8]>>
        ensures { ReadsText self.now.text result }
    {
        let octets = self.text_slice()?;
        match str::from_utf8(octets) {
            Ok(text) => Some(Ok(text)),
            Err(_) => Some(Err(octets)),
        }
    }

    /// The octets of the text, none if there is no text.
    pub fn text_slice(&self) -> Option<&'a [u8]>
        ensures { option_copied result ≡ self.now.text }
    {
        match &self.text {
            Some(text) => Some(text.lent()),
            None => None,
        }
    }

    /// Reads a code and all that is left as its text.
    pub fn parse(parser: &mut Parser<'a>) -> Result<ExtendedErrorRef<'a>, ParseError>
        ensures { ParsesData (extended_data (rest parser.old)) parser.old parser.new result }
    {
        let found = of_octets(parser.peek_all())?;
        parser.advance_to_end();
        Ok(found)
    }

    /// Copies the code and the text into an owned option.
    pub fn to_owned(&self, alloc: Global) -> Result<ExtendedError, OutOfMemory>
        ensures { IfOk result (λ k. k ≡ self.now) }
    {
        let code = self.code;
        let Some(text) = self.text_slice() else {
            return Ok(HeldExtendedError { code, text: None });
        };
        let text = Vec::from_slice(alloc, text)?;
        Ok(HeldExtendedError {
            code,
            text: Some(OctetStore::of(text)),
        })
    }
}

/// The extended error that octets are.
fn of_octets(octets: &[u8]) -> Result<ExtendedErrorRef<'_>, ParseError>
    ensures { GivesWhole octets.now (extended_data octets.now) result }
{
    if octets.len() > 65535 {
        return Err(ParseError::Form(FormReason::LongList));
    }
    let [high, low, text @ ..] = octets else {
        return Err(ParseError::ShortInput);
    };
    let code = ExtendedErrorCode::from_int(256 * *high as u16 + *low as u16);
    if text.is_empty() {
        return Ok(HeldExtendedError { code, text: None });
    }
    Ok(HeldExtendedError {
        code,
        text: Some(OctetStore::of(text)),
    })
}

impl HeldExtendedError<Vec<u8>> {
    /// A code and a text, which is copied.
    pub fn new_with_str(
        alloc: Global,
        code: ExtendedErrorCode,
        text: &str,
    ) -> Result<ExtendedError, BuildDataError>
        ensures { Copied code text.now result }
    {
        if text.len() > 65533 {
            return Err(BuildDataError::LongOptData);
        }
        let octets = Vec::from_slice(alloc, text.as_bytes())?;
        Ok(HeldExtendedError {
            code,
            text: Some(OctetStore::of(octets)),
        })
    }

    /// The text, or the octets if they are no UTF-8.
    pub fn text(&self) -> Option<Result<&str, &[u8]>>
        ensures { ReadsText self.now.text result }
    {
        self.for_slice().text()
    }

    /// The octets of the text, none if there is no text.
    pub fn text_slice(&self) -> Option<&[u8]>
        ensures { option_copied result ≡ self.now.text }
    {
        match &self.text {
            Some(text) => Some(text.as_slice()),
            None => None,
        }
    }

    /// Sets the text, which is not copied. A refused call leaves the value.
    pub fn set_text(&mut self, text: Vec<u8>) -> Result<(), LongOptData>
        ensures { MatchResult result (λ _. (length text.items ≤ 65533) × (self.new ≡ extended self.old.code (Some text.items)))
            (λ _. (65533 < length text.items) × (self.new ≡ self.old)) }
    {
        if text.len() > 65533 {
            return Err(LongOptData);
        }
        self.text = Some(OctetStore::of(text));
        Ok(())
    }

    /// Borrows the option; its text isn't copied.
    pub fn for_slice(&self) -> ExtendedErrorRef<'_>
        ensures { result ≡ self.now }
    {
        let code = self.code;
        match self.text_slice() {
            None => HeldExtendedError { code, text: None },
            Some(text) => HeldExtendedError {
                code,
                text: Some(OctetStore::of(text)),
            },
        }
    }
}

impl From<ExtendedErrorCode> for HeldExtendedError<Vec<u8>> {
    ghost from_gives = { λ c k. k ≡ extended c None };

    fn from(code: ExtendedErrorCode) -> Self {
        HeldExtendedError { code, text: None }
    }
}

impl From<u16> for HeldExtendedError<Vec<u8>> {
    ghost from_gives = { λ c k. k ≡ extended c None };

    fn from(code: u16) -> Self {
        HeldExtendedError {
            code: ExtendedErrorCode::from_int(code),
            text: None,
        }
    }
}

impl TryFrom<(ExtendedErrorCode, Vec<u8>)> for HeldExtendedError<Vec<u8>> {
    type Error = LongOptData;

    ghost try_from_gives = { λ p result. MadeExtended p.0 (Some p.1.items) result };

    fn try_from(parts: (ExtendedErrorCode, Vec<u8>)) -> Result<ExtendedError, LongOptData> {
        let (code, text) = parts;
        ExtendedError::new(code, Some(text))
    }
}

impl<S: HoldsOctets> OptData for HeldExtendedError<S> {
    ghost code_of = { λ _. 15 };

    fn code(&self) -> OptionCode {
        OptionCode::EXTENDED_ERROR
    }
}

impl<'a> ParseOptData<'a> for HeldExtendedError<&'a [u8]> {
    ghost takes = { for_code 15 extended_data };

    fn parse_option(
        code: OptionCode,
        parser: &mut Parser<'a>,
    ) -> Result<Option<ExtendedErrorRef<'a>>, ParseError> {
        if code != OptionCode::EXTENDED_ERROR {
            return Ok(None);
        }
        let found = ExtendedErrorRef::parse(parser)?;
        Ok(Some(found))
    }
}

impl<S: HoldsOctets> ComposeOptData for HeldExtendedError<S> {
    ghost octets = { extended_octets };

    /// The number of octets: 2, and those of the text. An empty text alone isn't read back: it is read as none.
    fn compose_len(&self) -> u16
        ensures value { result ≡ length (extended_octets self.now) }
        ensures readable { self.now.text ≢ Some [] → IsExtended self.now }
    {
        match &self.text {
            None => 2,
            Some(text) => text.as_slice().len() as u16 + 2,
        }
    }

    fn compose_option(&self, alloc: Global, target: &mut Vec<u8>) -> Result<(), OutOfMemory> {
        let code = self.code.to_int();
        target.reserve(self.compose_len() as usize)?;
        target.extend_from_slice(&[(code / 256) as u8, (code % 256) as u8])?;
        let Some(text) = &self.text else {
            return Ok(());
        };
        target.extend_from_slice(text.as_slice())?;
        Ok(())
    }
}

impl<'a> ReadBack<'a> for HeldExtendedError<&'a [u8]> {
    ghost is_readable = { IsExtended };

    ghost comes_back = { extended_again };
}

impl<S: HoldsOctets> fmt::Display for HeldExtendedError<S> {
    ghost output = { λ k. Some (extended_text k) };

    fn fmt<W: fmt::Write>(&self, f: &mut fmt::Formatter<W>) -> fmt::Result {
        let code = self.code.to_int();
        match &self.text {
            None => write!(f, "{code}"),
            Some(text) => {
                let text = BStr::new(text.as_slice());
                write!(f, "{code} {text}")
            }
        }
    }
}
