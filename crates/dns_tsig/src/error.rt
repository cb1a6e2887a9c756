//! Why a message isn't taken, and why a key isn't made.

ghost use Rattle.std.specs.Prelude.{◌≡◌};
ghost use Rattle.dns_tsig.specs.Codes.{error_code, rcode_of};

use dns_name::{OutOfMemory, Rcode};

/// Why a message isn't taken (RFC 8945, section 5.2).
#[derive(Clone, Copy, Debug)]
pub enum TsigError {
    /// The TSIG can't be interpreted, or its MAC has a size that none may have (section 5.2.2.1).
    FormErr,
    /// The key isn't known, or not with that algorithm (section 5.2.1).
    BadKey,
    /// The MAC isn't that of the message (section 5.2.2).
    BadSig,
    /// The time signed is further from the clock than the fudge (section 5.2.3).
    BadTime,
    /// The MAC has fewer octets than the policy wants (section 5.2.4).
    BadTrunc,
}

impl TsigError {
    /// The response code of the reply: FORMERR, or NOTAUTH.
    pub fn rcode(self) -> Rcode
        ensures { result ≡ rcode_of self }
    {
        match self {
            TsigError::FormErr => Rcode::FORMERR,
            TsigError::BadKey => Rcode::NOTAUTH,
            TsigError::BadSig => Rcode::NOTAUTH,
            TsigError::BadTime => Rcode::NOTAUTH,
            TsigError::BadTrunc => Rcode::NOTAUTH,
        }
    }

    /// The number of the error in a TSIG record (RFC 8945, section 3), 0 for FORMERR.
    pub fn code(self) -> u16
        ensures { result ≡ error_code self }
    {
        match self {
            TsigError::FormErr => 0,
            TsigError::BadKey => 17,
            TsigError::BadSig => 16,
            TsigError::BadTime => 18,
            TsigError::BadTrunc => 22,
        }
    }
}

/// Why a key isn't made.
#[derive(Clone, Copy, Debug)]
pub enum KeyError {
    /// The secret isn't base64, with its padding and nothing else (RFC 4648, section 4).
    NotBase64,
    /// There is no memory.
    OutOfMemory,
}

impl From<OutOfMemory> for KeyError {
    ghost use Rattle.dns_tsig.specs.declared.error.KeyError.TheVariants.{OutOfMemory as NoMemory};

    ghost from_gives = { λ _ error. error ≡ NoMemory };

    fn from(_error: OutOfMemory) -> KeyError {
        KeyError::OutOfMemory
    }
}
