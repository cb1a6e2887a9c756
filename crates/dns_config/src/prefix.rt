//! Networks as a configuration writes them.

ghost use Rattle.std.specs.Prelude.{◌≡◌, ◌≤◌};
ghost use Rattle.dns_config.specs.Addresses.{address_bits, address_in, prefix_in, with_bits};

use crate::address::address_in;
use dns_name::IpAddr;
use dns_word_values::decimal;

/// The addresses whose first bits are those of an address.
#[derive(Clone, Copy)]
pub struct Prefix {
    pub address: IpAddr,
    pub bits: u8,
}

/// How many bits an address has.
fn address_bits(address: IpAddr) -> u8
    ensures value { result ≡ address_bits address }
    ensures most { result ≤ 128 }
{
    match address {
        IpAddr::V4(_) => 32,
        IpAddr::V6(_) => 128,
    }
}

/// An address, and how many of its bits a text says.
fn with_bits(address: Option<IpAddr>, digits: &[u8]) -> Option<Prefix>
    ensures { result ≡ with_bits address digits.now }
{
    match address {
        None => None,
        Some(address) => match decimal(digits, address_bits(address) as u64 + 1) {
            Some(bits) => Some(Prefix {
                address,
                bits: bits as u8,
            }),
            None => None,
        },
    }
}

/// The network that a text writes, as `192.0.2.0/24` (RFC 4632, section 3.1) and `2001:db8::/32` (RFC 4291, section 2.3).
pub fn read_prefix(text: &str) -> Option<Prefix>
    ensures { result ≡ prefix_in text.now }
{
    match text.split_once('/') {
        Some((address, bits)) => with_bits(address_in(address.as_bytes()), bits.as_bytes()),
        None => None,
    }
}
