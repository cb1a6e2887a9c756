//! Numbers as octets, and numbers and octets at a place.

ghost use Rattle.std.specs.Prelude.{◌≡◌, ◌≤◌, ◌<◌, ◌+◌, ◌^◌, ◌++◌, length, IfOk};
ghost use Rattle.dns_name.specs.Place.{two};
ghost use Rattle.dns_message.specs.Read.{Sees, four_at, octets_at, two_at, two_of};
ghost use Rattle.dns_tsig.specs.Reading.{six_at, sized_at};
ghost use Rattle.dns_tsig.specs.Tsig.{six};

use dns_name::ParseError;

/// A number of 16 bits as two octets.
pub(crate) fn two_octets(n: u16) -> [u8; 2]
    ensures { result ≡ two n }
{
    [(n / 256) as u8, (n % 256) as u8]
}

/// A number of 48 bits as six octets.
pub(crate) fn six_octets(n: u64) -> [u8; 6]
    requires { n < 2 ^ 48 }
    ensures { result ≡ six n }
{
    let [a, b] = two_octets((n / 4294967296) as u16);
    let low = n % 4294967296;
    let [c, d] = two_octets((low / 65536) as u16);
    let [e, f] = two_octets((low % 65536) as u16);
    [a, b, c, d, e, f]
}

/// A number of 16 bits, and the place after it.
#[tactic(auto, unfolding(dns_message::specs::Read::two_at))]
pub(crate) fn two_in(octets: &[u8], at: usize) -> Result<(u16, usize), ParseError>
    requires { at ≤ length octets.now }
    ensures value { result ≡ two_at octets.now at }
    ensures within { IfOk result (λ r. r.1 ≤ length octets.now) }
{
    let n = number_of(&octets[at..], at)?;
    Ok(n)
}

/// The number that octets begin with, and the place after it.
fn number_of(octets: &[u8], at: usize) -> Result<(u16, usize), ParseError>
    requires { at + length octets.now < 2 ^ 64 }
    ensures value { result ≡ two_of at octets.now }
    ensures within { IfOk result (λ r. r.1 ≤ at + length octets.now) }
{
    let [a, b, ..] = octets else {
        return Err(ParseError::ShortInput);
    };
    Ok((256 * u16::from(*a) + u16::from(*b), at + 2))
}

/// A number of 32 bits, and the place after it.
#[tactic(auto, unfolding(dns_message::specs::Read::four_at))]
fn four_in(octets: &[u8], at: usize) -> Result<(u32, usize), ParseError>
    requires { at ≤ length octets.now }
    ensures value { result ≡ four_at octets.now at }
    ensures within { IfOk result (λ r. r.1 ≤ length octets.now) }
{
    let (high, at) = two_in(octets, at)?;
    let (low, at) = two_in(octets, at)?;
    Ok((65536 * u32::from(high) + u32::from(low), at))
}

/// That many octets, and the place after them.
#[tactic(auto, unfolding(dns_message::specs::Read::octets_at))]
fn octets_in(octets: &[u8], n: usize, at: usize) -> Result<(&[u8], usize), ParseError>
    requires { at ≤ length octets.now }
    ensures value { Sees result (octets_at n octets.now at) }
    ensures within { IfOk result (λ r. r.1 ≤ length octets.now) }
    ensures size { IfOk result (λ r. length r.0.now ≡ n) }
{
    if octets.len() - at < n {
        return Err(ParseError::ShortInput);
    }
    Ok((&octets[at..at + n], at + n))
}

/// A number of 48 bits, and the place after it.
#[tactic(auto, unfolding(crate::specs::Reading::six_at))]
pub(crate) fn six_in(octets: &[u8], at: usize) -> Result<(u64, usize), ParseError>
    requires { at ≤ length octets.now }
    ensures value { result ≡ six_at octets.now at }
    ensures within { IfOk result (λ r. r.1 ≤ length octets.now) }
    ensures fits { IfOk result (λ r. r.0 < 2 ^ 48) }
{
    let (high, at) = two_in(octets, at)?;
    let (low, at) = four_in(octets, at)?;
    Ok((4294967296 * u64::from(high) + u64::from(low), at))
}

/// Octets after their number, and the place after them.
#[tactic(auto, unfolding(crate::specs::Reading::sized_at))]
pub(crate) fn sized_in(octets: &[u8], at: usize) -> Result<(&[u8], usize), ParseError>
    requires { at ≤ length octets.now }
    ensures value { Sees result (sized_at octets.now at) }
    ensures within { IfOk result (λ r. r.1 ≤ length octets.now) }
    ensures size { IfOk result (λ r. length r.0.now < 2 ^ 16) }
{
    let (size, at) = two_in(octets, at)?;
    octets_in(octets, usize::from(size), at)
}
