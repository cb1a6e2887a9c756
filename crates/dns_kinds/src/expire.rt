//! EXPIRE: after how many seconds a zone expires (RFC 7314).

ghost use Rattle.std.specs.Prelude.{◌≡◌, ◌<◌, Some, IfSome, length};
ghost use Rattle.dns_name.specs.OptData.{ParsesData, for_code};
ghost use Rattle.dns_name.specs.Place.{rest};
ghost use Rattle.dns_kinds.specs.RoundTrip.{expire_again};
ghost use Rattle.dns_kinds.specs.Timers.{expire_data, expire_octets, number_text};

use dns_name::{
    ComposeOptData, OptData, OptionCode, OutOfMemory, ParseError, ParseOptData, Parser, ReadBack,
};
use std::alloc::Global;
use std::fmt;
use std::marker::Model;

/// Seconds, or none in a client's request.
#[derive(Clone, Copy, Debug, PartialEq, Eq, PartialOrd, Ord, Hash)]
pub struct Expire {
    expire: Option<u32>,
}

impl Model for Expire {
    ghost use Rattle.std.specs.Prelude.{IfSome, Option, ℕ, ◌<◌};

    ghost Value = { Option ℕ };

    ghost view = { λ k. k.expire };

    ghost inverse = { λ v. record { expire = v } };

    ghost invariant = { λ k. IfSome k.expire (λ n. n < 4294967296) };
}

impl Expire {
    /// The option of these seconds, or of none, as a client sends it.
    pub fn new(expire: Option<u32>) -> Expire
        ensures { result ≡ expire }
    {
        Expire { expire }
    }

    /// How many seconds until the zone expires (RFC 7314), none in a client's request.
    pub fn expire(&self) -> Option<u32>
        ensures { result ≡ self.now }
    {
        self.expire
    }

    /// Reads none if nothing is left, else four octets.
    pub fn parse(parser: &mut Parser<'_>) -> Result<Expire, ParseError>
        ensures { ParsesData (expire_data (rest parser.old)) parser.old parser.new result }
    {
        let octets = parser.peek_all();
        if octets.is_empty() {
            return Ok(Expire { expire: None });
        }
        let [a, b, c, d, ..] = octets else {
            return Err(ParseError::ShortInput);
        };
        let high = 256 * *a as u32 + *b as u32;
        let low = 256 * *c as u32 + *d as u32;
        parser.advance(4)?;
        Ok(Expire {
            expire: Some(65536 * high + low),
        })
    }
}

impl OptData for Expire {
    ghost code_of = { λ _. 9 };

    fn code(&self) -> OptionCode {
        OptionCode::EXPIRE
    }
}

impl<'a> ParseOptData<'a> for Expire {
    ghost takes = { for_code 9 expire_data };

    fn parse_option(
        code: OptionCode,
        parser: &mut Parser<'a>,
    ) -> Result<Option<Expire>, ParseError> {
        if code != OptionCode::EXPIRE {
            return Ok(None);
        }
        let found = Expire::parse(parser)?;
        Ok(Some(found))
    }
}

impl ComposeOptData for Expire {
    ghost octets = { expire_octets };

    /// The number of octets, 4 or none.
    fn compose_len(&self) -> u16
        ensures value { result ≡ length (expire_octets self.now) }
        ensures readable { IfSome self.now (λ n. n < 4294967296) }
    {
        match self.expire {
            None => 0,
            Some(_) => 4,
        }
    }

    fn compose_option(&self, alloc: Global, target: &mut Vec<u8>) -> Result<(), OutOfMemory> {
        let Some(seconds) = self.expire else {
            return Ok(());
        };
        let high = seconds / 65536;
        let low = seconds % 65536;
        let octets = [
            (high / 256) as u8,
            (high % 256) as u8,
            (low / 256) as u8,
            (low % 256) as u8,
        ];
        target.extend_from_slice(&octets)?;
        Ok(())
    }
}

impl<'a> ReadBack<'a> for Expire {
    ghost is_readable = { λ k. IfSome k (λ n. n < 4294967296) };

    ghost comes_back = { expire_again };
}

impl fmt::Display for Expire {
    ghost output = { λ k. Some (number_text k) };

    fn fmt<W: fmt::Write>(&self, f: &mut fmt::Formatter<W>) -> fmt::Result {
        match self.expire {
            None => Ok(()),
            Some(seconds) => write!(f, "{seconds}"),
        }
    }
}
