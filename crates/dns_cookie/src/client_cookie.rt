//! Client cookies (RFC 7873, section 4.1).

ghost use Rattle.std.specs.Prelude.{Some, ◌≡◌, ◌++◌, length, OnOk, OnErr};
ghost use Rattle.std.specs.Borrow.{sem};
ghost use Rattle.hex.specs.Hex.{encode_upper};
ghost use Rattle.dns_name.specs.OptData.{ParsesData};
ghost use Rattle.dns_name.specs.Place.{rest};
ghost use Rattle.dns_cookie.specs.ClientCookie.{client_octets, client_cookie_of};
ghost use Rattle.dns_cookie.specs.CookieData.{client_data};
ghost use Rattle.dns_cookie.specs.Lending.{LendsClient};

use crate::hex_text::write_hex;
use crate::octet_array::OctetArray;
use dns_name::{OutOfMemory, ParseError, Parser};
use std::alloc::Global;
use std::convert::AsSlice;
use std::fmt;

/// A client cookie: eight octets that a client chose for one server.
///
/// Equality and order are those of the octets.
#[derive(Clone, Copy, Debug, PartialEq, Eq, PartialOrd, Ord, Hash)]
pub struct ClientCookie {
    cells: OctetArray<8>,
}

/// A client cookie has eight octets (RFC 7873, section 4.1).
const _: () = prove!(ClientCookie::COMPOSE_LEN == 8);

impl ClientCookie {
    /// The number of octets of a client cookie.
    pub const COMPOSE_LEN: u16 = 8;

    /// The client cookie of these octets.
    pub const fn from_octets(octets: [u8; 8]) -> ClientCookie
        ensures { result ≡ client_cookie_of octets }
    {
        ClientCookie {
            cells: OctetArray { octets },
        }
    }

    /// The eight octets that the client chose.
    pub const fn into_octets(self) -> [u8; 8]
        ensures { result ≡ client_octets self }
    {
        self.cells.octets
    }

    /// Reads a client cookie. A refused call leaves the parser.
    pub fn parse(parser: &mut Parser) -> Result<ClientCookie, ParseError>
        ensures { ParsesData (client_data (rest parser.old)) parser.old parser.new result }
    {
        let mut octets = [0; 8];
        parser.parse_buf(&mut octets)?;
        Ok(ClientCookie::from_octets(octets))
    }

    /// The octets as a slice.
    pub fn as_slice(&self) -> &[u8]
        ensures value { result.now ≡ client_octets self.now }
        ensures len { length result.now ≡ 8 }
    {
        &self.cells.octets
    }

    /// The octets as a slice that can be written.
    pub fn as_slice_mut(&mut self) -> &mut [u8]
        ensures* writes_back { sem 𝓛 (LendsClient self.entry result) }
        ensures value { result.now ≡ client_octets self.old }
        ensures len { length result.now ≡ 8 }
    {
        self.cells.as_slice_mut()
    }

    /// The number of octets, which is `COMPOSE_LEN`.
    pub(crate) fn compose_len(&self) -> u16
        ensures value { result ≡ length (client_octets self.now) }
        ensures fixed { result ≡ 8 }
    {
        self.as_slice().len() as u16
    }

    /// Appends the octets to `target`, which is left as it was if memory runs out.
    pub fn compose(&self, _alloc: Global, target: &mut Vec<u8>) -> Result<(), OutOfMemory>
        ensures ok { OnOk result (target.new.items ≡ target.old.items ++ client_octets self.now) }
        ensures err { OnErr result (target.new.items ≡ target.old.items) }
    {
        target.extend_from_slice(self.as_slice())?;
        Ok(())
    }
}

impl AsSlice<u8> for ClientCookie {
    ghost items = { client_octets };

    fn as_slice(&self) -> &[u8] {
        ClientCookie::as_slice(self)
    }
}

impl From<[u8; 8]> for ClientCookie {
    ghost from_gives = { λ octets c. c ≡ client_cookie_of octets };

    fn from(octets: [u8; 8]) -> ClientCookie {
        ClientCookie::from_octets(octets)
    }
}

impl From<ClientCookie> for [u8; 8] {
    ghost from_gives = { λ c octets. octets ≡ client_octets c };

    fn from(cookie: ClientCookie) -> [u8; 8] {
        cookie.into_octets()
    }
}

impl fmt::Display for ClientCookie {
    ghost output = { λ c. Some (encode_upper (client_octets c)) };

    /// Writes the octets as upper-case hexadecimal digits.
    fn fmt<W: fmt::Write>(&self, f: &mut fmt::Formatter<W>) -> fmt::Result {
        write_hex(self.as_slice(), f)
    }
}
