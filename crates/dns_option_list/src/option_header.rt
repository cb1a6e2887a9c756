//! The head of an option.

ghost use Rattle.std.specs.Prelude.{◌≡◌, ◌+◌, ◌*◌};
ghost use Rattle.dns_name.specs.OptData.{ParsesData};
ghost use Rattle.dns_name.specs.Place.{rest};
ghost use Rattle.dns_option_list.specs.OptionHeads.{option_head};

use dns_name::{OptionCode, ParseError, Parser};
use std::marker::Model;

/// The first four octets of an option.
#[derive(Clone, Copy, Debug, PartialEq, Eq)]
pub struct OptionHeader {
    code: OptionCode,
    size: u16,
}

impl Model for OptionHeader {
    ghost use Rattle.dns_option_list.specs.OptionHeads.{OptionHead};

    ghost Value = { OptionHead };

    ghost view = { λ h. record { code = h.code; size = h.size } };

    ghost inverse = { λ v. record { code = v.code; size = v.size } };
}

impl OptionHeader {
    /// A head of a code and a length.
    pub fn new(code: OptionCode, len: u16) -> OptionHeader
        ensures { result ≡ record { code = code; size = len } }
    {
        OptionHeader { code, size: len }
    }

    /// The code of the option.
    pub fn code(&self) -> OptionCode
        ensures { result ≡ self.now.code }
    {
        self.code
    }

    /// How many octets of data follow.
    pub fn len(&self) -> u16
        ensures { result ≡ self.now.size }
    {
        self.size
    }

    /// Takes four octets: the code and the length of an option, without its data.
    pub fn parse(parser: &mut Parser<'_>) -> Result<OptionHeader, ParseError>
        ensures { ParsesData (option_head (rest parser.old)) parser.old parser.new result }
    {
        let octets = parser.parse_octets(4)?;
        Ok(OptionHeader {
            code: OptionCode::from_int(256 * octets[0] as u16 + octets[1] as u16),
            size: 256 * octets[2] as u16 + octets[3] as u16,
        })
    }
}
