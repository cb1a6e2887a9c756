//! CLIENT-SUBNET: the network that a query comes from (RFC 7871).

ghost use Rattle.std.specs.Prelude.{◌≡◌, ◌≤◌, length, take};
ghost use Rattle.dns_name.specs.OptData.{GivesWhole, ParsesData, for_code};
ghost use Rattle.dns_name.specs.Place.{rest};
ghost use Rattle.dns_kinds.specs.Clears.{subnet_again};
ghost use Rattle.dns_name.specs.Addresses.{address_octets};
ghost use Rattle.dns_kinds.specs.Subnet.{IsClear, family, within_address, octets_for, subnet_data, subnet_octets};

use crate::mask::{address_of, masked_array, prefix};
use dns_name::{
    ComposeOptData, FormReason, IpAddr, OptData, OptionCode, OutOfMemory, ParseError, ParseOptData,
    Parser, ReadBack,
};
use std::alloc::Global;
use std::fmt;
use std::marker::Model;

/// An address of which that many bits were sent, and for how many an answer is.
#[derive(Clone, Copy, Debug, PartialEq, Eq, PartialOrd, Ord, Hash)]
pub struct ClientSubnet {
    source: u8,
    scope: u8,
    addr: IpAddr,
}

impl Model for ClientSubnet {
    ghost use Rattle.dns_kinds.specs.Subnet.{IsSubnet, Subnet};

    ghost Value = { Subnet };

    ghost view = { λ k. record { source = k.source; scope = k.scope; addr = k.addr } };

    ghost inverse = { λ v. record { source = v.source; scope = v.scope; addr = v.addr } };

    ghost invariant = { λ k. IsSubnet k.source k.addr };
}

impl ClientSubnet {
    /// Limits both prefixes to the address, and clears its bits past the source prefix.
    pub fn new(source_prefix_len: u8, scope_prefix_len: u8, addr: IpAddr) -> ClientSubnet
        ensures { result ≡ within_address source_prefix_len scope_prefix_len addr }
    {
        match addr {
            IpAddr::V4(a) => {
                let source = source_prefix_len.min(32);
                ClientSubnet {
                    source,
                    scope: scope_prefix_len.min(32),
                    addr: IpAddr::V4(masked_array(source, a)),
                }
            }
            IpAddr::V6(a) => {
                let source = source_prefix_len.min(128);
                ClientSubnet {
                    source,
                    scope: scope_prefix_len.min(128),
                    addr: IpAddr::V6(masked_array(source, a)),
                }
            }
        }
    }

    /// How many bits of the address were sent.
    pub fn source_prefix_len(&self) -> u8
        ensures { result ≡ self.now.source }
    {
        self.source
    }

    /// For how many bits an answer is.
    pub fn scope_prefix_len(&self) -> u8
        ensures { result ≡ self.now.scope }
    {
        self.scope
    }

    /// The address, whose bits past the source prefix are 0.
    pub fn addr(&self) -> IpAddr
        ensures { result ≡ self.now.addr }
    {
        self.addr
    }

    /// The octets of the address that the source prefix takes.
    fn sent(&self) -> &[u8]
        ensures value { result.now ≡ take (octets_for self.now.source) (address_octets self.now.addr) }
        ensures few { length result.now ≤ 16 }
        ensures clear { IsClear self.now }
    {
        prefix(self.source, self.addr.as_slice())
    }

    /// Reads all that is left.
    pub fn parse(parser: &mut Parser<'_>) -> Result<ClientSubnet, ParseError>
        ensures { ParsesData (subnet_data (rest parser.old)) parser.old parser.new result }
    {
        let found = of_octets(parser.peek_all())?;
        parser.advance_to_end();
        Ok(found)
    }
}

/// The number of an address family (RFC 7871, section 6).
fn family_of(addr: &IpAddr) -> u8
    ensures { result ≡ family addr.now }
{
    match addr {
        IpAddr::V4(_) => 1,
        IpAddr::V6(_) => 2,
    }
}

/// The subnet that octets are.
fn of_octets(octets: &[u8]) -> Result<ClientSubnet, ParseError>
    ensures { GivesWhole octets.now (subnet_data octets.now) result }
{
    let [f, g, source, scope, address @ ..] = octets else {
        return Err(ParseError::ShortInput);
    };
    let family = 256 * *f as u16 + *g as u16;
    if family == 1 {
        let found = address_of::<4>(*source, address)?;
        return Ok(ClientSubnet {
            source: *source,
            scope: *scope,
            addr: IpAddr::V4(found),
        });
    }
    if family == 2 {
        let found = address_of::<16>(*source, address)?;
        return Ok(ClientSubnet {
            source: *source,
            scope: *scope,
            addr: IpAddr::V6(found),
        });
    }
    Err(ParseError::Form(FormReason::Family))
}

impl OptData for ClientSubnet {
    ghost code_of = { λ _. 8 };

    fn code(&self) -> OptionCode {
        OptionCode::CLIENT_SUBNET
    }
}

impl<'a> ParseOptData<'a> for ClientSubnet {
    ghost takes = { for_code 8 subnet_data };

    fn parse_option(
        code: OptionCode,
        parser: &mut Parser<'a>,
    ) -> Result<Option<ClientSubnet>, ParseError> {
        if code != OptionCode::CLIENT_SUBNET {
            return Ok(None);
        }
        let found = ClientSubnet::parse(parser)?;
        Ok(Some(found))
    }
}

impl ComposeOptData for ClientSubnet {
    ghost octets = { subnet_octets };

    /// The number of octets: 4, and those that the source prefix takes.
    fn compose_len(&self) -> u16
        ensures value { result ≡ length (subnet_octets self.now) }
        ensures readable { IsClear self.now }
    {
        4 + self.sent().len() as u16
    }

    fn compose_option(&self, alloc: Global, target: &mut Vec<u8>) -> Result<(), OutOfMemory> {
        let sent = self.sent();
        target.reserve(4 + sent.len())?;
        target.extend_from_slice(&[0, family_of(&self.addr), self.source, self.scope])?;
        target.extend_from_slice(sent)?;
        Ok(())
    }
}

impl<'a> ReadBack<'a> for ClientSubnet {
    ghost is_readable = { IsClear };

    ghost comes_back = { subnet_again };
}

/// The address, the source prefix after a slash, and the scope prefix after another if it isn't 0.
impl fmt::Display for ClientSubnet {
    fn fmt<W: fmt::Write>(&self, f: &mut fmt::Formatter<W>) -> fmt::Result {
        let ClientSubnet {
            source,
            scope,
            addr,
        } = *self;
        write!(f, "{addr}/{source}")?;
        if scope != 0 {
            write!(f, "/{scope}")?;
        }
        Ok(())
    }
}
