//! TCP-KEEPALIVE: how long an idle connection stays open (RFC 7828).

ghost use Rattle.std.specs.Prelude.{◌≡◌, ◌*◌, ◌/◌, ◌≤◌, ◌<◌, Some, IfSome, MatchResult, codes, length};
ghost use Rattle.std.specs.Fmt.{decimal};
ghost use Rattle.dns_name.specs.OptData.{ParsesData, for_code};
ghost use Rattle.dns_name.specs.Place.{rest};
ghost use Rattle.dns_kinds.specs.RoundTrip.{keepalive_again};
ghost use Rattle.dns_kinds.specs.Timers.{keepalive_data, keepalive_octets, number_text};

use dns_name::{
    ComposeOptData, OptData, OptionCode, OutOfMemory, ParseError, ParseOptData, Parser, ReadBack,
};
use std::alloc::Global;
use std::fmt;
use std::marker::Model;

/// A timeout in units of 100 ms, which contracts see as their number.
#[derive(Clone, Copy, Debug, PartialEq, Eq, PartialOrd, Ord, Hash)]
pub struct IdleTimeout {
    units: u16,
}

impl Model for IdleTimeout {
    ghost use Rattle.std.specs.Prelude.{ℕ, ◌<◌};

    ghost Value = { ℕ };

    ghost view = { λ t. t.units };

    ghost inverse = { λ n. record { units = n } };

    ghost invariant = { λ t. t.units < 65536 };
}

impl IdleTimeout {
    /// The whole units of a time in ms. Refused exactly if they are no number of 16 bits.
    pub fn try_from_millis(millis: u64) -> Result<IdleTimeout, FromDurationError>
        ensures { MatchResult result (λ t. (millis < 6553600) × (t ≡ millis / 100)) (λ _. 6553600 ≤ millis) }
    {
        if millis >= 6553600 {
            return Err(FromDurationError);
        }
        Ok(IdleTimeout {
            units: (millis / 100) as u16,
        })
    }

    /// The time in ms, a multiple of 100.
    pub fn to_millis(self) -> u64
        ensures { result ≡ 100 * self }
    {
        100 * self.units as u64
    }
}

impl From<u16> for IdleTimeout {
    ghost from_gives = { λ n t. t ≡ n };

    fn from(units: u16) -> Self {
        IdleTimeout { units }
    }
}

impl From<IdleTimeout> for u16 {
    ghost from_gives = { λ t n. n ≡ t };

    fn from(timeout: IdleTimeout) -> Self {
        timeout.units
    }
}

impl fmt::Display for IdleTimeout {
    ghost output = { λ t. Some (decimal t) };

    fn fmt<W: fmt::Write>(&self, f: &mut fmt::Formatter<W>) -> fmt::Result {
        let units = self.units;
        write!(f, "{units}")
    }
}

/// A time that is too long for a timeout.
#[derive(Clone, Copy, Debug, PartialEq, Eq)]
pub struct FromDurationError;

impl fmt::Display for FromDurationError {
    ghost output = { λ _. Some (codes "duration too large") };

    fn fmt<W: fmt::Write>(&self, f: &mut fmt::Formatter<W>) -> fmt::Result {
        f.write_str("duration too large")
    }
}

impl std::error::Error for FromDurationError {}

/// A timeout, or none in a client's request.
#[derive(Clone, Copy, Debug, PartialEq, Eq, PartialOrd, Ord, Hash)]
pub struct TcpKeepalive {
    timeout: Option<IdleTimeout>,
}

impl Model for TcpKeepalive {
    ghost use Rattle.std.specs.Prelude.{IfSome, Option, ℕ, ◌<◌};

    ghost Value = { Option ℕ };

    ghost view = { λ k. k.timeout };

    ghost inverse = { λ v. record { timeout = v } };

    ghost invariant = { λ k. IfSome k.timeout (λ n. n < 65536) };
}

impl TcpKeepalive {
    /// The option of this timeout, or of none, as a client sends it.
    pub fn new(timeout: Option<IdleTimeout>) -> TcpKeepalive
        ensures { result ≡ timeout }
    {
        TcpKeepalive { timeout }
    }

    /// The idle timeout that a server offers (RFC 7828), none in a client's request.
    pub fn timeout(self) -> Option<IdleTimeout>
        ensures { result ≡ self }
    {
        self.timeout
    }

    /// Reads none if nothing is left, else two octets.
    pub fn parse(parser: &mut Parser<'_>) -> Result<TcpKeepalive, ParseError>
        ensures { ParsesData (keepalive_data (rest parser.old)) parser.old parser.new result }
    {
        if parser.remaining() == 0 {
            return Ok(TcpKeepalive { timeout: None });
        }
        let units = parser.parse_u16_be()?;
        Ok(TcpKeepalive {
            timeout: Some(IdleTimeout { units }),
        })
    }
}

impl OptData for TcpKeepalive {
    ghost code_of = { λ _. 11 };

    fn code(&self) -> OptionCode {
        OptionCode::TCP_KEEPALIVE
    }
}

impl<'a> ParseOptData<'a> for TcpKeepalive {
    ghost takes = { for_code 11 keepalive_data };

    fn parse_option(
        code: OptionCode,
        parser: &mut Parser<'a>,
    ) -> Result<Option<TcpKeepalive>, ParseError> {
        if code != OptionCode::TCP_KEEPALIVE {
            return Ok(None);
        }
        let found = TcpKeepalive::parse(parser)?;
        Ok(Some(found))
    }
}

impl ComposeOptData for TcpKeepalive {
    ghost octets = { keepalive_octets };

    /// The number of octets, 2 or none.
    fn compose_len(&self) -> u16
        ensures value { result ≡ length (keepalive_octets self.now) }
        ensures readable { IfSome self.now (λ n. n < 65536) }
    {
        match self.timeout {
            None => 0,
            Some(_) => 2,
        }
    }

    fn compose_option(&self, alloc: Global, target: &mut Vec<u8>) -> Result<(), OutOfMemory> {
        let Some(timeout) = self.timeout else {
            return Ok(());
        };
        let units = timeout.units;
        target.extend_from_slice(&[(units / 256) as u8, (units % 256) as u8])?;
        Ok(())
    }
}

impl<'a> ReadBack<'a> for TcpKeepalive {
    ghost is_readable = { λ k. IfSome k (λ n. n < 65536) };

    ghost comes_back = { keepalive_again };
}

impl fmt::Display for TcpKeepalive {
    ghost output = { λ k. Some (number_text k) };

    fn fmt<W: fmt::Write>(&self, f: &mut fmt::Formatter<W>) -> fmt::Result {
        match self.timeout {
            None => Ok(()),
            Some(timeout) => write!(f, "{timeout}"),
        }
    }
}
