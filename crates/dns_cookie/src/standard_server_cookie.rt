//! The standard server cookie (RFC 9018, section 4).

ghost use Rattle.std.specs.Prelude.{Some, ◌≡◌, ◌≤◌, ◌+◌, ◌++◌, ◌↔◌, IsTrue, length, take};
ghost use Rattle.std.specs.Int.{w64, to_le_bytes};
ghost use Rattle.dns_cookie.specs.ClientCookie.{client_octets};
ghost use Rattle.dns_cookie.specs.Cookies.{octets_before_hash, version_of, reserved_of, timestamp_of, hash_of, hash_number, server_cookie, HashAgrees};
ghost use Rattle.hex.specs.Hex.{encode_upper};

use crate::client_cookie::ClientCookie;
use crate::hex_text::write_hex;
use crate::siphash::siphash24;
use dns_name::{IpAddr, Serial};
use std::fmt;
use std::marker::Model;

/// The server cookie that servers of one site share: a version, three reserved octets, a timestamp
/// in seconds and a hash of eight octets.
///
/// It is kept as its 16 octets, since the hash is taken over the first eight as they came. Equality and order are those of the
/// octets.
#[derive(Clone, Copy, Debug, PartialEq, Eq, PartialOrd, Ord, Hash)]
pub struct StandardServerCookie {
    octets: [u8; 16],
}

impl Model for StandardServerCookie {
    ghost use Rattle.std.specs.Prelude.{List, ℕ};

    ghost Value = { List ℕ };

    ghost view = { λ c. c.octets };

    ghost inverse = { λ o. record { octets = o } };
}

impl StandardServerCookie {
    /// The cookie of these parts.
    pub fn new(
        version: u8,
        reserved: [u8; 3],
        timestamp: Serial,
        hash: [u8; 8],
    ) -> StandardServerCookie
        ensures { result ≡ octets_before_hash version reserved timestamp.0 ++ hash }
    {
        // the version stands first, and the other octets are written over
        let mut octets = [version; 16];
        put(&mut octets, 1, &reserved);
        put(&mut octets, 4, &timestamp.into_int().to_be_bytes());
        put(&mut octets, 8, &hash);
        StandardServerCookie { octets }
    }

    /// The cookie of version 1 for this client at this time, whose hash is made under `secret`.
    pub fn calculate(
        client_cookie: ClientCookie,
        timestamp: Serial,
        client_ip: IpAddr,
        secret: &[u8; 16],
    ) -> StandardServerCookie
        ensures { result ≡ server_cookie secret.now (client_octets client_cookie) timestamp.0 client_ip }
    {
        let mut cookie = StandardServerCookie::new(1, [0; 3], timestamp, [0; 8]);
        let hash = cookie.calculate_hash(client_cookie, client_ip, secret);
        cookie.set_hash(hash.to_le_bytes());
        cookie
    }

    pub(crate) fn from_octets(octets: [u8; 16]) -> StandardServerCookie
        ensures { result ≡ octets }
    {
        StandardServerCookie { octets }
    }

    pub(crate) fn into_octets(self) -> [u8; 16]
        ensures { result ≡ self }
    {
        self.octets
    }

    /// The version, which RFC 9018 sets to 1.
    pub fn version(self) -> u8
        ensures { result ≡ version_of self }
    {
        self.octets[0]
    }

    /// The three octets after the version, which RFC 9018 sets to zero.
    pub fn reserved(self) -> [u8; 3]
        ensures { result ≡ reserved_of self }
    {
        let [_, r0, r1, r2, ..] = self.octets;
        [r0, r1, r2]
    }

    /// When the server made the cookie, in seconds.
    pub fn timestamp(self) -> Serial
        ensures { result.0 ≡ timestamp_of self }
    {
        let [_, _, _, _, t0, t1, t2, t3, ..] = self.octets;
        Serial(u32::from_be_bytes([t0, t1, t2, t3]))
    }

    /// The hash, the last eight octets (RFC 9018, section 4.4).
    pub fn hash(self) -> [u8; 8]
        ensures { result ≡ hash_of self }
    {
        let [.., h0, h1, h2, h3, h4, h5, h6, h7] = self.octets;
        [h0, h1, h2, h3, h4, h5, h6, h7]
    }

    /// Replaces the hash; version, reserved octets and timestamp stay.
    pub fn set_hash(&mut self, hash: [u8; 8])
        ensures { self.new ≡ take 8 self.old ++ hash }
    {
        put(&mut self.octets, 8, &hash);
    }

    /// Whether the hash is the one made under `secret` for this client, over the version, the
    /// reserved octets and the timestamp as they came.
    ///
    /// All eight octets are compared at once, as one number. How long it takes is not proved.
    pub fn check_hash(
        self,
        client_cookie: ClientCookie,
        client_ip: IpAddr,
        secret: &[u8; 16],
    ) -> bool
        ensures { IsTrue result ↔ HashAgrees secret.now (client_octets client_cookie) client_ip self }
    {
        is_number(
            &self.hash(),
            self.calculate_hash(client_cookie, client_ip, secret),
        )
    }

    /// The hash for this client as a number, which the cookie holds little-endian.
    fn calculate_hash(
        self,
        client_cookie: ClientCookie,
        client_ip: IpAddr,
        secret: &[u8; 16],
    ) -> u64
        ensures { result ≡ hash_number secret.now (client_octets client_cookie) (take 8 self) client_ip }
    {
        let address = client_ip.as_slice();
        let mut input = [0; 32];
        put(&mut input, 0, client_cookie.as_slice());
        put(&mut input, 8, &self.octets[..8]);
        put(&mut input, 16, address);
        siphash24(secret, &input[..16 + address.len()])
    }
}

/// Writes `octets` into `buffer` from the place `at` on.
fn put(buffer: &mut [u8], at: usize, octets: &[u8])
    requires { at + length octets.now ≤ length buffer.old }
    ensures { take (at + length octets.now) buffer.new ≡ take at buffer.old ++ octets.now }
{
    buffer[at..at + octets.len()].copy_from_slice(octets);
}

/// Whether the octets are the number, little-endian: one comparison, of all eight at once.
fn is_number(octets: &[u8; 8], number: u64) -> bool
    ensures { IsTrue result ↔ (octets.now ≡ to_le_bytes w64 number) }
{
    u64::from_le_bytes(*octets) == number
}

impl fmt::Display for StandardServerCookie {
    ghost output = { λ c. Some (encode_upper c) };

    /// Writes the octets as upper-case hexadecimal digits.
    fn fmt<W: fmt::Write>(&self, f: &mut fmt::Formatter<W>) -> fmt::Result {
        write_hex(&self.octets, f)
    }
}
