//! A network, and which addresses are in it.

ghost use Rattle.std.specs.Prelude.{◌≡◌};
ghost use Rattle.dns_networks.specs.Networks.{first_bits, is_in_any, is_in_network, network_of};

use dns_kinds::ClientSubnet;
use dns_name::IpAddr;

/// The addresses whose first bits are those of an address. A prefix that is longer than an address takes all of its bits.
#[derive(Clone, Copy, Debug, PartialEq, Eq)]
pub struct Network {
    /// An address of the network.
    pub address: IpAddr,
    /// The length of the prefix in bits.
    pub bits: u8,
}

impl Network {
    /// Whether an address is in the network. One of the other family never is.
    pub fn contains(&self, address: IpAddr) -> bool
        ensures { result ≡ is_in_network address self.now }
    {
        let one = first_bits(address, self.bits);
        let other = first_bits(self.address, self.bits);
        one.as_slice() == other.as_slice()
    }
}

/// An address without its bits past a prefix of that many bits.
fn first_bits(address: IpAddr, bits: u8) -> IpAddr
    ensures { result ≡ first_bits bits address }
{
    ClientSubnet::new(bits, 0, address).addr()
}

/// The network of an address, by a prefix length in bits for addresses of IPv4 and one for those of IPv6.
pub fn network_of(address: IpAddr, ipv4_bits: u8, ipv6_bits: u8) -> IpAddr
    ensures { result ≡ network_of ipv4_bits ipv6_bits address }
{
    match address {
        IpAddr::V4(_) => first_bits(address, ipv4_bits),
        IpAddr::V6(_) => first_bits(address, ipv6_bits),
    }
}

/// Whether an address is in one of some networks.
pub fn is_in_any(networks: &[Network], address: IpAddr) -> bool
    ensures { result ≡ is_in_any networks.now address }
{
    for network in networks {
        if network.contains(address) {
            return true;
        }
    }
    false
}
