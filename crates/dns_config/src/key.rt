//! Keys as a configuration writes them.

ghost use Rattle.std.specs.Prelude.{◌≡◌};
ghost use Rattle.std.specs.Str.{bytes_eq};
ghost use Rattle.dns_config.specs.Algorithms.{algorithm_named};

use dns_hmac::Algorithm;
use dns_name::Name;
use serde::Deserialize;

/// The name of a key.
#[derive(Drop)]
pub struct KeyName {
    pub name: Name,
}

/// The algorithm of a key.
#[derive(Clone, Copy)]
pub struct KeyAlgorithm {
    pub algorithm: Algorithm,
}

/// The secret of a key as it is written, in base64. It has no Debug.
#[derive(Drop)]
pub struct KeySecret {
    pub text: String,
}

/// A key that is shared with other servers (RFC 8945). Its secret stands here, or in a file of its own.
#[derive(Drop, Deserialize)]
#[serde(deny_unknown_fields)]
pub struct KeyEntry {
    pub name: KeyName,
    pub algorithm: KeyAlgorithm,
    pub secret: Option<KeySecret>,
    pub file: Option<String>,
}

/// Whether a text is a word.
fn is_word(text: &[u8], word: &[u8]) -> bool
    ensures { result ≡ bytes_eq text.now word.now }
{
    text == word
}

/// The algorithm that a text names (RFC 8945, section 6), in lower case.
pub fn read_algorithm(text: &str) -> Option<Algorithm>
    ensures { result ≡ algorithm_named text.now }
{
    let name = text.as_bytes();
    if is_word(name, b"hmac-sha1") {
        return Some(Algorithm::Sha1);
    }
    if is_word(name, b"hmac-sha256") {
        return Some(Algorithm::Sha256);
    }
    if is_word(name, b"hmac-sha384") {
        return Some(Algorithm::Sha384);
    }
    if is_word(name, b"hmac-sha512") {
        return Some(Algorithm::Sha512);
    }
    None
}
