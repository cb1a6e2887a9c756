//! What single words of a row stand for.

ghost use Rattle.std.specs.Prelude.{◌≡◌, IfOk, IsErr, Ok, OnErr};
ghost use Rattle.hex.specs.Hex.{decode_sized};
ghost use Rattle.rows_table.specs.Words.{SpellsAddress};

use crate::RowError;
use dns_name::IpAddr;
use hex::FromHex;
use std::str::FromStr;

/// That many octets of a word in hexadecimal.
pub fn array_of<const N: usize>(word: &str) -> Result<[u8; N], RowError>
    ensures ok { IfOk result (λ octets. decode_sized word.now N ≡ Ok octets) }
    ensures err { OnErr result (IsErr (decode_sized word.now N)) }
{
    match <[u8; N] as FromHex>::from_hex(word) {
        Ok(octets) => Ok(octets),
        Err(_) => Err(RowError::OutOfForm),
    }
}

/// The number that a word is in decimal.
pub fn number_of<N: FromStr>(word: &str) -> Result<N, RowError>
where
    N::Err: Drop,
    ensures { IfOk result (λ number. N.from_str_gives word.now (Ok number)) }
{
    match word.parse::<N>() {
        Ok(number) => Ok(number),
        Err(_) => Err(RowError::OutOfForm),
    }
}

/// The address that the 4 or 16 octets of a word are.
pub fn address_of(word: &str) -> Result<IpAddr, RowError>
    ensures { IfOk result (SpellsAddress word.now) }
{
    if word.len() == 8 {
        return Ok(IpAddr::V4(array_of(word)?));
    }
    Ok(IpAddr::V6(array_of(word)?))
}
