//! What every kind of option can do.

ghost use Rattle.std.specs.Prelude.{◌≡◌, ◌++◌, List, ℕ, length, Option, Some, Ok, OnOk, OnErr};
ghost use Rattle.dns_name.specs.OptData.{ParsesOption, Taken, kind};
ghost use Rattle.dns_name.specs.Place.{rest};

use crate::error::{OutOfMemory, ParseError};
use crate::iana::OptionCode;
use crate::parser::Parser;
use std::alloc::Global;

/// Data of an EDNS option (RFC 6891, section 6.1.2).
pub trait OptData {
    /// The number of this value's option.
    ghost code_of: { Self → ℕ };

    /// The code of this value's option.
    fn code(&self) -> OptionCode
        ensures { result ≡ code_of self.now };
}

/// Option data that is read without memory.
pub trait ParseOptData<'a>: OptData + Sized {
    /// What is read of octets under a code: nothing if the type reads no options of this code,
    /// else a value and how many octets it takes, or a refusal.
    ghost takes: { ℕ → List ℕ → Option (Taken Self) };

    /// Reads the data of an option of this code, of which the parser has all.
    /// None, and the parser stays, if the type reads no options of this code.
    /// A refused call leaves the parser too.
    fn parse_option(code: OptionCode, parser: &mut Parser<'a>) -> Result<Option<Self>, ParseError>
        ensures { ParsesOption (takes code (rest parser.old)) parser.old parser.new result };
}

/// Option data that is written.
pub trait ComposeOptData: OptData {
    /// The octets of this value's data.
    ghost octets: { Self → List ℕ };

    /// How many octets the data has.
    fn compose_len(&self) -> u16
        ensures { result ≡ length (octets self.now) };

    /// Appends the data's octets; nothing if there is no memory.
    fn compose_option(&self, alloc: Global, target: &mut Vec<u8>) -> Result<(), OutOfMemory>
        ensures ok { OnOk result (target.new.items ≡ target.old.items ++ octets self.now) }
        ensures err { OnErr result (target.new.items ≡ target.old.items) };
}

/// Option data that comes back if it is written and read again.
pub trait ReadBack<'a>: ParseOptData<'a> + ComposeOptData {
    /// The values that there are and that come back.
    ghost is_readable: { Self → Type 0 };

    /// Written and read again, a value is the same.
    ghost comes_back: { (k : Self) → is_readable k → kind Self.takes (Self.code_of k) (Self.octets k) ≡ Some (Ok k) };
}
