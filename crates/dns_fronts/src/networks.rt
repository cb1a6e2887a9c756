//! Networks whose clients need a good cookie.

ghost use Rattle.std.specs.Prelude.{◌≡◌};
ghost use Rattle.dns_fronts.specs.Networks.{is_in_any, is_in_network};

use dns_kinds::ClientSubnet;
use dns_name::IpAddr;

/// The addresses whose first bits are those of an address. A prefix that is longer than an address takes all of its bits.
#[derive(Clone, Copy)]
pub struct Network {
    pub address: IpAddr,
    pub bits: u8,
}

impl Network {
    /// Whether an address is in the network.
    pub fn contains(&self, address: IpAddr) -> bool
        ensures { result ≡ is_in_network address self.now }
    {
        let one = ClientSubnet::new(self.bits, 0, address).addr();
        let other = ClientSubnet::new(self.bits, 0, self.address).addr();
        one.as_slice() == other.as_slice()
    }
}

/// Whether an address is in one of some networks.
pub(crate) fn is_in_any(networks: &[Network], address: IpAddr) -> bool
    ensures { result ≡ is_in_any networks.now address }
{
    for network in networks {
        if network.contains(address) {
            return true;
        }
    }
    false
}
