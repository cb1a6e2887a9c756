//! Server cookies (RFC 7873, section 4.2).

ghost use Rattle.std.specs.Prelude.{Some, ◌≡◌, ◌==◌, ◌++◌, ◌≤◌, length, OnOk, OnErr};
ghost use Rattle.std.proofs.Common.{rules};
ghost use Rattle.std.specs.Cmp.{partial_order_from_own_ties};
ghost use Rattle.std.specs.Cmp.Lexicographic.{pointwise, slice_cmp};
ghost use Rattle.std.specs.Cmp.Rules.{comparing, hashing};
ghost use Rattle.std.specs.Hash as fed;
ghost use Rattle.std.specs.Ordering.{nat_cmp, as_partial_cmp};
ghost use Rattle.dns_cookie.specs.Cookies.{standard_part};
ghost use Rattle.hex.specs.Hex.{encode_upper};
ghost use Rattle.dns_name.specs.OptData.{ParsesData};
ghost use Rattle.dns_name.specs.Place.{rest};
ghost use Rattle.dns_cookie.specs.CookieData.{server_data, server_part};

use crate::hex_text::write_hex;
use crate::standard_server_cookie::StandardServerCookie;
use dns_name::{FormReason, OutOfMemory, ParseError, Parser};
use std::alloc::Global;
use std::cmp::Ordering;
use std::convert::AsSlice;
use std::fmt;
use std::hash::{Hash, Hasher};
use std::marker::Model;

/// A server cookie: 8 to 32 octets that a server made of a client cookie.
///
/// Equality and order are those of the octets.
#[derive(Clone, Copy, Debug)]
pub struct ServerCookie {
    /// The octets, and zeros after them.
    octets: [u8; 32],
    len: u8,
}

impl Model for ServerCookie {
    ghost use Rattle.std.specs.Prelude.{List, ℕ};

    ghost Value = { List ℕ };

    ghost use Rattle.dns_cookie.specs.Padded.{IsPadded, octets_in, padded, padded-octets_in};

    ghost view = { octets_in };

    ghost invariant = { IsPadded };

    ghost inverse = { padded };

    ghost inverse_ok = { padded-octets_in };
}

impl ServerCookie {
    /// The server cookie of these octets.
    pub fn from_octets(slice: &[u8]) -> ServerCookie
        requires least { 8 ≤ length slice.now }
        requires most { length slice.now ≤ 32 }
        ensures { result ≡ slice.now }
    {
        let mut octets = [0; 32];
        octets[..slice.len()].copy_from_slice(slice);
        ServerCookie {
            octets,
            len: slice.len() as u8,
        }
    }

    /// Reads a server cookie, which is all that is left. A refused call leaves the parser.
    pub fn parse(parser: &mut Parser) -> Result<ServerCookie, ParseError>
        ensures { ParsesData (server_data (rest parser.old)) parser.old parser.new result }
    {
        let octets = parser.peek_all();
        if octets.len() < 8 {
            return Err(ParseError::Form(FormReason::ShortServerCookie));
        }
        if octets.len() > 32 {
            return Err(ParseError::Form(FormReason::LongServerCookie));
        }
        parser.advance_to_end();
        Ok(ServerCookie::from_octets(octets))
    }

    /// Reads a server cookie, or none if nothing is left. A refused call leaves the parser.
    pub fn parse_opt(parser: &mut Parser) -> Result<Option<ServerCookie>, ParseError>
        ensures { ParsesData (server_part (rest parser.old)) parser.old parser.new result }
    {
        if parser.remaining() == 0 {
            return Ok(None);
        }
        Ok(Some(ServerCookie::parse(parser)?))
    }

    /// The standard server cookie that this is, if it has 16 octets (RFC 9018, section 4).
    pub fn try_to_standard(&self) -> Option<StandardServerCookie>
        ensures { result ≡ standard_part self.now }
    {
        let octets = <[u8; 16]>::try_from(self.as_slice()).ok()?;
        Some(StandardServerCookie::from_octets(octets))
    }

    /// The number of octets, from 8 to 32.
    pub fn compose_len(&self) -> u16
        ensures value { result ≡ length self.now }
        ensures least { 8 ≤ result }
        ensures most { result ≤ 32 }
    {
        u16::from(self.len)
    }

    /// The octets as a slice.
    pub fn as_slice(&self) -> &[u8]
        ensures value { result.now ≡ self.now }
        ensures least { 8 ≤ length result.now }
        ensures most { length result.now ≤ 32 }
    {
        &self.octets[..usize::from(self.len)]
    }

    /// Appends the octets to `target`, which is left as it was if memory runs out.
    pub fn compose(&self, _alloc: Global, target: &mut Vec<u8>) -> Result<(), OutOfMemory>
        ensures ok { OnOk result (target.new.items ≡ target.old.items ++ self.now) }
        ensures err { OnErr result (target.new.items ≡ target.old.items) }
    {
        target.extend_from_slice(self.as_slice())?;
        Ok(())
    }
}

impl AsSlice<u8> for ServerCookie {
    ghost items = { λ c. c };

    fn as_slice(&self) -> &[u8] {
        ServerCookie::as_slice(self)
    }
}

impl From<StandardServerCookie> for ServerCookie {
    ghost from_gives = { λ standard c. c ≡ standard };

    fn from(standard: StandardServerCookie) -> ServerCookie {
        ServerCookie::from_octets(&standard.into_octets())
    }
}

impl PartialEq for ServerCookie {
    ghost eq = { pointwise ◌==◌ };

    ghost laws = { Prim.search (comparing, rules) };

    fn eq(&self, other: &ServerCookie) -> bool {
        self.as_slice() == other.as_slice()
    }
}

impl Eq for ServerCookie {
    ghost laws = { Prim.search (comparing, rules) };
}

impl PartialOrd for ServerCookie {
    ghost partial_cmp = { as_partial_cmp (slice_cmp nat_cmp) };

    ghost laws = { partial_order_from_own_ties (Prim.search (comparing, rules)) (Prim.search (comparing, rules)) };

    fn partial_cmp(&self, other: &ServerCookie) -> Option<Ordering> {
        Some(self.cmp(other))
    }
}

impl Ord for ServerCookie {
    ghost cmp = { slice_cmp nat_cmp };

    ghost total = { Prim.search (comparing, rules) };

    ghost matches_partial_cmp = { Prim.search (comparing, rules) };

    ghost matches_eq = { Prim.search (comparing, rules) };

    fn cmp(&self, other: &ServerCookie) -> Ordering {
        self.as_slice().cmp(other.as_slice())
    }
}

impl Hash for ServerCookie {
    ghost hash_input = { fed.slice fed.u8 };

    ghost respects_eq = { Prim.search (hashing, rules) };

    fn hash<H: Hasher>(&self, state: &mut H) {
        self.as_slice().hash(state);
    }
}

impl fmt::Display for ServerCookie {
    ghost output = { λ c. Some (encode_upper c) };

    /// Writes the octets as upper-case hexadecimal digits.
    fn fmt<W: fmt::Write>(&self, f: &mut fmt::Formatter<W>) -> fmt::Result {
        write_hex(self.as_slice(), f)
    }
}
