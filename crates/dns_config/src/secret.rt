//! The secret of cookies.

ghost use Rattle.std.specs.Prelude.{◌≡◌, MatchResult, Some, None};
ghost use Rattle.hex.specs.Hex.{decode_sized};

use hex::FromHex;

/// The secret of server cookies (RFC 9018, section 4), which has no Debug.
#[derive(Clone, Copy)]
pub struct Secret {
    pub octets: [u8; 16],
}

/// The sixteen octets that 32 hexadecimal digits are.
pub fn read_secret(text: &str) -> Option<[u8; 16]>
    ensures { MatchResult (decode_sized text.now 16) (λ octets. result ≡ Some octets) (λ _. result ≡ None) }
{
    <[u8; 16] as FromHex>::from_hex(text).ok()
}
