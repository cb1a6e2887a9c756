//! The values of a configuration's keys, each read of a text.

ghost use Rattle.std.specs.Prelude.{◌≡◌};
ghost use Rattle.dns_config.specs.Configurations.{is_identifier};

use crate::address::{Endpoint, PeerAddress, read_address, read_endpoint};
use crate::key::{KeyAlgorithm, KeyName, KeySecret, read_algorithm};
use crate::prefix::{Prefix, read_prefix};
use crate::secret::{Secret, read_secret};
use dns_name::{FromTextError, IpAddr, Name};
use serde::{Deserialize, Deserializer, Format, Kind};
use std::alloc::Global;
use std::borrow::CowStr;

/// Addresses without a port.
#[derive(Drop)]
pub struct AddressList {
    pub addresses: Vec<IpAddr>,
}

/// The apex of a zone.
#[derive(Drop)]
pub struct ZoneName {
    pub name: Name,
}

/// The identifier of a name server (RFC 5001), which has from 1 to 128 octets. A reply of 512 octets has room for it.
#[derive(Drop)]
pub struct Identifier {
    pub octets: Vec<u8>,
}

/// How many octets an identifier has at most.
const MOST_IDENTIFIER_OCTETS: usize = 128;

/// Whether a text is an identifier of a name server.
pub fn is_identifier(text: &str) -> bool
    ensures { result ≡ is_identifier text.now }
{
    text.len() >= 1 && text.len() <= MOST_IDENTIFIER_OCTETS
}

impl<'de> Deserialize<'de> for Identifier {
    fn deserialize<F: Format>(
        alloc: Global,
        from: &mut Deserializer<'de, '_, F>,
    ) -> Result<Identifier, F::Error> {
        let text = CowStr::deserialize(alloc, from)?;
        if !is_identifier(text.as_str()) {
            return Err(from.custom("no identifier, which has from 1 to 128 octets"));
        }
        match Vec::from_slice(alloc, text.as_str().as_bytes()) {
            Ok(octets) => Ok(Identifier { octets }),
            Err(_) => Err(from.no_memory()),
        }
    }
}

impl<'de> Deserialize<'de> for Endpoint {
    fn deserialize<F: Format>(
        alloc: Global,
        from: &mut Deserializer<'de, '_, F>,
    ) -> Result<Endpoint, F::Error> {
        let text = CowStr::deserialize(alloc, from)?;
        match read_endpoint(text.as_str()) {
            Some(address) => Ok(Endpoint { address }),
            None => Err(from.custom("no address and port, as 192.0.2.1:53 or [2001:db8::1]:53")),
        }
    }
}

impl<'de> Deserialize<'de> for PeerAddress {
    fn deserialize<F: Format>(
        alloc: Global,
        from: &mut Deserializer<'de, '_, F>,
    ) -> Result<PeerAddress, F::Error> {
        let text = CowStr::deserialize(alloc, from)?;
        match read_address(text.as_str()) {
            Some(address) => Ok(PeerAddress { address }),
            None => Err(from.custom("no address, as 192.0.2.1 or 2001:db8::1")),
        }
    }
}

impl<'de> Deserialize<'de> for AddressList {
    fn deserialize<F: Format>(
        alloc: Global,
        from: &mut Deserializer<'de, '_, F>,
    ) -> Result<AddressList, F::Error> {
        let peers: Vec<PeerAddress> = Vec::deserialize(alloc, from)?;
        let mut addresses = Vec::new(alloc);
        for peer in peers.iter() {
            if addresses.push(peer.address).is_err() {
                return Err(from.no_memory());
            }
        }
        Ok(AddressList { addresses })
    }
}

impl<'de> Deserialize<'de> for Prefix {
    fn deserialize<F: Format>(
        alloc: Global,
        from: &mut Deserializer<'de, '_, F>,
    ) -> Result<Prefix, F::Error> {
        let text = CowStr::deserialize(alloc, from)?;
        match read_prefix(text.as_str()) {
            Some(prefix) => Ok(prefix),
            None => Err(from.custom("no network, as 192.0.2.0/24 or 2001:db8::/32")),
        }
    }
}

impl<'de> Deserialize<'de> for Secret {
    fn deserialize<F: Format>(
        alloc: Global,
        from: &mut Deserializer<'de, '_, F>,
    ) -> Result<Secret, F::Error> {
        let text = CowStr::deserialize(alloc, from)?;
        match read_secret(text.as_str()) {
            Some(octets) => Ok(Secret { octets }),
            None => Err(from.custom("no secret, which is 32 hexadecimal digits")),
        }
    }
}

impl<'de> Deserialize<'de> for ZoneName {
    fn deserialize<F: Format>(
        alloc: Global,
        from: &mut Deserializer<'de, '_, F>,
    ) -> Result<ZoneName, F::Error> {
        let text = CowStr::deserialize(alloc, from)?;
        match Name::from_text(alloc, text.as_str()) {
            Ok(name) => Ok(ZoneName { name }),
            Err(FromTextError::OutOfMemory) => Err(from.no_memory()),
            Err(_) => Err(from.custom("no name of a zone")),
        }
    }
}

impl<'de> Deserialize<'de> for KeyName {
    fn deserialize<F: Format>(
        alloc: Global,
        from: &mut Deserializer<'de, '_, F>,
    ) -> Result<KeyName, F::Error> {
        let text = CowStr::deserialize(alloc, from)?;
        match Name::from_text(alloc, text.as_str()) {
            Ok(name) => Ok(KeyName { name }),
            Err(FromTextError::OutOfMemory) => Err(from.no_memory()),
            Err(_) => Err(from.custom("no name of a key")),
        }
    }
}

impl<'de> Deserialize<'de> for KeyAlgorithm {
    fn deserialize<F: Format>(
        alloc: Global,
        from: &mut Deserializer<'de, '_, F>,
    ) -> Result<KeyAlgorithm, F::Error> {
        let text = CowStr::deserialize(alloc, from)?;
        match read_algorithm(text.as_str()) {
            Some(algorithm) => Ok(KeyAlgorithm { algorithm }),
            None => Err(from.custom(
                "no algorithm, which is hmac-sha256, hmac-sha384, hmac-sha512 or hmac-sha1",
            )),
        }
    }
}

impl<'de> Deserialize<'de> for KeySecret {
    fn deserialize<F: Format>(
        alloc: Global,
        from: &mut Deserializer<'de, '_, F>,
    ) -> Result<KeySecret, F::Error> {
        if !matches!(from.peek()?, Kind::Str) {
            return Err(from.custom("no secret, which is a text in base64"));
        }
        let text = String::deserialize(alloc, from)?;
        Ok(KeySecret { text })
    }
}
