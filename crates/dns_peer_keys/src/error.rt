//! Why a key isn't made, and why a reply isn't taken.

ghost use Rattle.std.specs.Prelude.{◌≡◌};

use dns_name::OutOfMemory;
use dns_tsig::TsigError;
use std::error::Error;
use std::fmt;

/// Why a key isn't made.
#[derive(Clone, Copy, Debug)]
pub enum AddKeyError {
    /// Another key has its name.
    Twice,
    /// Its secret is empty.
    Empty,
    /// Its secret isn't base64 (RFC 4648, section 4).
    NotBase64,
    OutOfMemory,
}

impl fmt::Display for AddKeyError {
    fn fmt<W: fmt::Write>(&self, f: &mut fmt::Formatter<W>) -> fmt::Result {
        f.write_str(match self {
            AddKeyError::Twice => "another key has its name",
            AddKeyError::Empty => "its secret is empty",
            AddKeyError::NotBase64 => "its secret isn't base64",
            AddKeyError::OutOfMemory => "out of memory",
        })
    }
}

impl Error for AddKeyError {}

/// Why a reply to a signed request isn't taken.
#[derive(Clone, Copy, Debug)]
pub enum SignedReplyError {
    /// It has no TSIG.
    Unsigned,
    /// It says an error in its TSIG (RFC 8945, section 3).
    Refused(u16),
    /// It doesn't verify.
    NotVerified(TsigError),
    OutOfMemory,
}

impl From<OutOfMemory> for SignedReplyError {
    ghost use Rattle.dns_peer_keys.specs.declared.error.SignedReplyError.TheVariants.{OutOfMemory as NoMemory};

    ghost from_gives = { λ _ fault. fault ≡ NoMemory };

    fn from(_error: OutOfMemory) -> SignedReplyError {
        SignedReplyError::OutOfMemory
    }
}

/// What a reply does wrong.
fn error_text(error: TsigError) -> &'static str {
    match error {
        TsigError::FormErr => "its TSIG can't be interpreted",
        TsigError::BadKey => "it is signed under another key",
        TsigError::BadSig => "its MAC is wrong",
        TsigError::BadTime => "it was signed at another time",
        TsigError::BadTrunc => "its MAC is too short",
    }
}

/// What another server says of the request.
fn write_refusal<W: fmt::Write>(error: u16, f: &mut fmt::Formatter<W>) -> fmt::Result {
    match error {
        16 => f.write_str("the other server says that the MAC is wrong (BADSIG)"),
        17 => f.write_str("the other server says that it doesn't know the key (BADKEY)"),
        18 => f.write_str("the other server says that the time is wrong (BADTIME)"),
        22 => f.write_str("the other server says that the MAC is too short (BADTRUNC)"),
        _ => write!(f, "the other server says TSIG error {error}"),
    }
}

impl fmt::Display for SignedReplyError {
    fn fmt<W: fmt::Write>(&self, f: &mut fmt::Formatter<W>) -> fmt::Result {
        match self {
            SignedReplyError::Unsigned => f.write_str("the reply isn't signed"),
            SignedReplyError::Refused(error) => write_refusal(*error, f),
            SignedReplyError::NotVerified(error) => {
                let said = error_text(*error);
                write!(f, "the reply doesn't verify: {said}")
            }
            SignedReplyError::OutOfMemory => f.write_str("out of memory"),
        }
    }
}

impl Error for SignedReplyError {}
