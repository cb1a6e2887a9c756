//! Extended response codes.

ghost use Rattle.std.specs.Prelude.{◌≡◌, ◌<◌, ◌+◌, ◌*◌, ◌/◌, ◌%◌, Some};
ghost use Rattle.dns_name.specs.declared.registry.Registry.{Registry};
ghost use Rattle.dns_name.specs.Registries.{code_named, code_text, if_below};

use crate::iana::Rcode;
use crate::registry::{Registry, code_in, write_code};
use std::fmt;
use std::marker::Model;

/// A response code of twelve bits, below 4,096: four in the header and eight in the OPT record (RFC 6891,
/// section 6.1.3).
#[derive(Clone, Copy, Debug, PartialEq, Eq, PartialOrd, Ord, Hash)]
pub struct OptRcode {
    number: u16,
}

impl Model for OptRcode {
    ghost use Rattle.std.specs.Prelude.{ℕ, ◌<◌};

    ghost Value = { ℕ };

    ghost view = { λ c. c.number };

    ghost inverse = { λ n. record { number = n } };

    ghost invariant = { λ c. c.number < 4096 };
}

impl OptRcode {
    /// RFC 1035, section 4.1.1.
    pub const NOERROR: OptRcode = OptRcode { number: 0 };

    /// RFC 1035, section 4.1.1.
    pub const FORMERR: OptRcode = OptRcode { number: 1 };

    /// RFC 1035, section 4.1.1.
    pub const SERVFAIL: OptRcode = OptRcode { number: 2 };

    /// RFC 1035, section 4.1.1.
    pub const NXDOMAIN: OptRcode = OptRcode { number: 3 };

    /// RFC 1035, section 4.1.1.
    pub const NOTIMP: OptRcode = OptRcode { number: 4 };

    /// RFC 1035, section 4.1.1.
    pub const REFUSED: OptRcode = OptRcode { number: 5 };

    /// RFC 2136.
    pub const YXDOMAIN: OptRcode = OptRcode { number: 6 };

    /// RFC 2136.
    pub const YXRRSET: OptRcode = OptRcode { number: 7 };

    /// RFC 2136.
    pub const NXRRSET: OptRcode = OptRcode { number: 8 };

    /// RFC 2136.
    pub const NOTAUTH: OptRcode = OptRcode { number: 9 };

    /// RFC 2136.
    pub const NOTZONE: OptRcode = OptRcode { number: 10 };

    /// RFC 8490.
    pub const DSOTYPENI: OptRcode = OptRcode { number: 11 };

    /// RFC 6891.
    pub const BADVERS: OptRcode = OptRcode { number: 16 };

    /// The number of BADVERS, where a TSIG record holds it (RFC 8945).
    pub const BADSIG: OptRcode = OptRcode { number: 16 };

    /// RFC 8945.
    pub const BADKEY: OptRcode = OptRcode { number: 17 };

    /// RFC 8945.
    pub const BADTIME: OptRcode = OptRcode { number: 18 };

    /// RFC 2930.
    pub const BADMODE: OptRcode = OptRcode { number: 19 };

    /// RFC 2930.
    pub const BADNAME: OptRcode = OptRcode { number: 20 };

    /// RFC 2930.
    pub const BADALG: OptRcode = OptRcode { number: 21 };

    /// RFC 8945.
    pub const BADTRUNC: OptRcode = OptRcode { number: 22 };

    /// RFC 7873.
    pub const BADCOOKIE: OptRcode = OptRcode { number: 23 };

    /// The code of a header's four bits and an OPT record's eight.
    pub fn from_parts(rcode: Rcode, ext: u8) -> OptRcode
        ensures { result ≡ 16 * ext + rcode }
    {
        OptRcode {
            number: 16 * ext as u16 + rcode.to_int() as u16,
        }
    }

    /// The lower four bits, which stand in the header (RFC 6891, section 6.1.3).
    pub fn rcode(self) -> Rcode
        ensures { result ≡ self % 16 }
    {
        match Rcode::checked_from_int((self.number % 16) as u8) {
            Some(rcode) => rcode,
            None => Rcode::NOERROR,
        }
    }

    /// The OPT record's eight bits.
    pub fn ext(self) -> u8
        ensures { result ≡ self / 16 }
    {
        (self.number / 16) as u8
    }

    /// The number, 12 bits.
    pub fn to_int(self) -> u16
        ensures value { result ≡ self }
        ensures fits { result < 4096 }
    {
        self.number
    }

    /// The code that a text names: by its registered name up to ASCII case, or by its decimal number. None from 4,096.
    pub fn from_text(text: &str) -> Option<OptRcode>
        ensures { result ≡ if_below 4096 (code_named Registry.Rcodes text.now) }
    {
        match code_in(Registry::Rcodes, text) {
            Some(number) if number < 4096 => Some(OptRcode { number }),
            _ => None,
        }
    }
}

/// The registered name, or the decimal number if there is none.
impl fmt::Display for OptRcode {
    ghost output = { λ c. Some (code_text Registry.Rcodes c) };

    fn fmt<W: fmt::Write>(&self, f: &mut fmt::Formatter<W>) -> fmt::Result {
        write_code(Registry::Rcodes, self.number, f)
    }
}

impl From<Rcode> for OptRcode {
    ghost from_gives = { λ rcode code. code ≡ rcode };

    fn from(rcode: Rcode) -> Self {
        OptRcode::from_parts(rcode, 0)
    }
}
