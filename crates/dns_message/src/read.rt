//! Numbers and octets at a place of a message.

ghost use Rattle.std.specs.Prelude.{◌≡◌, ◌≤◌, ◌<◌, ◌+◌, ◌^◌, length, IfOk};
ghost use Rattle.dns_message.specs.Read.{two_of, two_at, four_at, octets_at, Sees};

use dns_name::{ParseError, Ttl};

/// A number of two octets, and the place after it.
#[tactic(auto, unfolding(crate::specs::Read::two_at))]
pub(crate) fn two_in(message: &[u8], at: usize) -> Result<(u16, usize), ParseError>
    requires { at ≤ length message.now }
    ensures value { result ≡ two_at message.now at }
    ensures within { IfOk result (λ r. r.1 ≤ length message.now) }
{
    let n = number_of(&message[at..], at)?;
    Ok(n)
}

fn number_of(octets: &[u8], at: usize) -> Result<(u16, usize), ParseError>
    requires { at + length octets.now < 2 ^ 64 }
    ensures value { result ≡ two_of at octets.now }
    ensures within { IfOk result (λ r. r.1 ≤ at + length octets.now) }
{
    let [a, b, ..] = octets else {
        return Err(ParseError::ShortInput);
    };
    Ok((256 * (*a as u16) + (*b as u16), at + 2))
}

/// A number of four octets, and the place after it.
#[tactic(auto, unfolding(crate::specs::Read::four_at))]
pub(crate) fn four_in(message: &[u8], at: usize) -> Result<(u32, usize), ParseError>
    requires { at ≤ length message.now }
    ensures value { result ≡ four_at message.now at }
    ensures within { IfOk result (λ r. r.1 ≤ length message.now) }
{
    let (high, at) = two_in(message, at)?;
    let (low, at) = two_in(message, at)?;
    Ok((65536 * (high as u32) + (low as u32), at))
}

/// A TTL, and the place after it.
pub(crate) fn ttl_in(message: &[u8], at: usize) -> Result<(Ttl, usize), ParseError>
    requires { at ≤ length message.now }
    ensures value { result ≡ four_at message.now at }
    ensures within { IfOk result (λ r. r.1 ≤ length message.now) }
{
    let (seconds, at) = four_in(message, at)?;
    Ok((Ttl::from_secs(seconds), at))
}

/// The next n octets of a message, and the place after them.
#[inline(always)]
#[tactic(auto, unfolding(crate::specs::Read::octets_at))]
pub(crate) fn octets_in(message: &[u8], n: usize, at: usize) -> Result<(&[u8], usize), ParseError>
    requires { at ≤ length message.now }
    ensures value { Sees result (octets_at n message.now at) }
    ensures within { IfOk result (λ r. r.1 ≤ length message.now) }
    ensures behind { IfOk result (λ r. r.1 ≡ at + n) }
    ensures size { IfOk result (λ r. length r.0.now ≡ n) }
{
    if message.len() - at < n {
        return Err(ParseError::ShortInput);
    }
    Ok((&message[at..at + n], at + n))
}
