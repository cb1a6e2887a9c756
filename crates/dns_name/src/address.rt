//! Addresses of clients.

ghost use Rattle.std.specs.Prelude.{◌≡◌, ◌≤◌, length};
ghost use Rattle.dns_name.specs.Addresses.{address_octets};

use std::fmt;
use std::marker::Model;

/// An address in network order.
#[derive(Clone, Copy, Debug, PartialEq, Eq, PartialOrd, Ord, Hash)]
pub enum IpAddr {
    V4([u8; 4]),
    V6([u8; 16]),
}

impl IpAddr {
    /// The 4 or 16 octets.
    pub fn as_slice(&self) -> &[u8]
        ensures value { result.now ≡ address_octets self.now }
        ensures most { length result.now ≤ 16 }
    {
        match self {
            IpAddr::V4(octets) => octets,
            IpAddr::V6(octets) => octets,
        }
    }
}

/// Dotted decimal, and eight groups of hexadecimal digits joined by colons.
impl fmt::Display for IpAddr {
    fn fmt<W: fmt::Write>(&self, f: &mut fmt::Formatter<W>) -> fmt::Result {
        match self {
            IpAddr::V4([a, b, c, d]) => write!(f, "{a}.{b}.{c}.{d}"),
            IpAddr::V6(octets) => groups(octets, f),
        }
    }
}

/// The groups of an address of sixteen octets.
fn groups<W: fmt::Write>(octets: &[u8; 16], f: &mut fmt::Formatter<W>) -> fmt::Result {
    for i in 0..8usize {
        if i > 0 {
            f.write_str(":")?;
        }
        write_group(octets[2 * i], octets[2 * i + 1], f)?;
    }
    Ok(())
}

/// The number that two octets are, in hexadecimal digits.
fn write_group<W: fmt::Write>(high: u8, low: u8, f: &mut fmt::Formatter<W>) -> fmt::Result {
    let group = 256 * high as u16 + low as u16;
    write!(f, "{group:x}")
}

/// An address and a port.
#[derive(Clone, Copy, Debug, PartialEq, Eq, PartialOrd, Ord, Hash)]
pub struct SocketAddr {
    pub ip: IpAddr,
    pub port: u16,
}

/// Addresses, owned, that contracts see as a list.
#[derive(Debug, Drop)]
pub struct Addrs {
    addresses: Vec<IpAddr>,
}

impl Model for Addrs {
    ghost use Rattle.std.specs.Prelude.{List};
    ghost use Rattle.dns_name.specs.declared.address.IpAddr.{IpAddr};

    ghost Value = { List IpAddr };

    ghost view = { λ a. a.addresses.items };
}

impl Addrs {
    /// The addresses of a vector, which is not copied.
    pub fn from_vec(addresses: Vec<IpAddr>) -> Addrs
        ensures { result ≡ addresses.items }
    {
        Addrs { addresses }
    }

    /// The addresses as a slice.
    pub fn as_slice(&self) -> &[IpAddr]
        ensures { result.now ≡ self.now }
    {
        self.addresses.as_slice()
    }

    /// Gives the vector back, which is not copied.
    pub fn into_vec(self) -> Vec<IpAddr>
        ensures { result.items ≡ self }
    {
        let Addrs { addresses } = self;
        addresses
    }
}
