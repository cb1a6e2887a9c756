//! The header of a message.

ghost use Rattle.std.specs.Prelude.{◌≡◌, ◌≤◌, ◌<◌, ◌+◌, ◌/◌, ◌%◌, [], ◌∷◌, length, IsTrue};
ghost use Rattle.dns_message.specs.Header.{bit, header_in, header_octets, header_of, low_bit, lower_flags, upper_flags, IsHeader};
ghost use Rattle.dns_message.specs.Sections.{field, number_of};

use dns_name::{Opcode, Rcode};

/// A header without its counts (RFC 1035, section 4.1.1; RFC 4035, section 3.2, for AD and CD).
#[derive(Clone, Copy, Debug, PartialEq, Eq)]
pub struct Header {
    /// The identifier, which a reply copies.
    pub id: u16,
    /// Whether this is a response.
    pub qr: bool,
    /// The kind of query.
    pub opcode: Opcode,
    /// Authoritative answer.
    pub aa: bool,
    /// Truncation.
    pub tc: bool,
    /// Recursion desired.
    pub rd: bool,
    /// Recursion available.
    pub ra: bool,
    /// Reserved.
    pub z: bool,
    /// Authentic data.
    pub ad: bool,
    /// Checking disabled.
    pub cd: bool,
    /// The response code.
    pub rcode: Rcode,
}

/// The numbers of items in the four sections (RFC 1035, section 4.1.1).
#[derive(Clone, Copy, Debug, PartialEq, Eq)]
pub struct HeaderCounts {
    /// Questions.
    pub qdcount: u16,
    /// Answer records.
    pub ancount: u16,
    /// Authority records.
    pub nscount: u16,
    /// Additional records.
    pub arcount: u16,
}

impl Header {
    /// The four octets that begin a message with this header: identifier, flags and codes (RFC 1035, section 4.1.1).
    pub fn octets(&self) -> [u8; 4]
        ensures value { result ≡ header_octets self.now }
        ensures lawful { IsHeader self.now }
    {
        [
            (self.id / 256) as u8,
            (self.id % 256) as u8,
            upper_of(self),
            lower_of(self),
        ]
    }

    /// The identifier, which a reply copies.
    pub fn id(self) -> u16
        ensures { result ≡ self.id }
    {
        self.id
    }

    /// Replaces the identifier.
    pub fn set_id(&mut self, id: u16)
        ensures { self.new ≡ record self.old { id = id } }
    {
        self.id = id;
    }

    /// Whether this is a response.
    pub fn qr(self) -> bool
        ensures { result ≡ self.qr }
    {
        self.qr
    }

    /// Sets or clears QR: whether the message is a response.
    pub fn set_qr(&mut self, qr: bool)
        ensures { self.new ≡ record self.old { qr = qr } }
    {
        self.qr = qr;
    }

    /// The kind of query, four bits (RFC 1035, section 4.1.1).
    pub fn opcode(self) -> Opcode
        ensures { result ≡ self.opcode }
    {
        self.opcode
    }

    /// Replaces the kind of query.
    pub fn set_opcode(&mut self, opcode: Opcode)
        ensures { self.new ≡ record self.old { opcode = opcode } }
    {
        self.opcode = opcode;
    }

    /// Whether AA is set: the answer is authoritative.
    pub fn aa(self) -> bool
        ensures { result ≡ self.aa }
    {
        self.aa
    }

    /// Sets or clears AA: whether the answer is authoritative.
    pub fn set_aa(&mut self, aa: bool)
        ensures { self.new ≡ record self.old { aa = aa } }
    {
        self.aa = aa;
    }

    /// Whether TC is set: the message was truncated.
    pub fn tc(self) -> bool
        ensures { result ≡ self.tc }
    {
        self.tc
    }

    /// Sets or clears TC: whether the message was truncated.
    pub fn set_tc(&mut self, tc: bool)
        ensures { self.new ≡ record self.old { tc = tc } }
    {
        self.tc = tc;
    }

    /// Whether RD is set: recursion is desired.
    pub fn rd(self) -> bool
        ensures { result ≡ self.rd }
    {
        self.rd
    }

    /// Sets or clears RD: whether recursion is desired.
    pub fn set_rd(&mut self, rd: bool)
        ensures { self.new ≡ record self.old { rd = rd } }
    {
        self.rd = rd;
    }

    /// Whether RA is set: recursion is available.
    pub fn ra(self) -> bool
        ensures { result ≡ self.ra }
    {
        self.ra
    }

    /// Sets or clears RA: whether recursion is available.
    pub fn set_ra(&mut self, ra: bool)
        ensures { self.new ≡ record self.old { ra = ra } }
    {
        self.ra = ra;
    }

    /// Whether the reserved bit Z is set.
    pub fn z(self) -> bool
        ensures { result ≡ self.z }
    {
        self.z
    }

    /// Sets or clears the reserved bit Z.
    pub fn set_z(&mut self, z: bool)
        ensures { self.new ≡ record self.old { z = z } }
    {
        self.z = z;
    }

    /// Whether AD is set: the data is authentic (RFC 4035, section 3.2.3).
    pub fn ad(self) -> bool
        ensures { result ≡ self.ad }
    {
        self.ad
    }

    /// Sets or clears AD: whether the data is authentic.
    pub fn set_ad(&mut self, ad: bool)
        ensures { self.new ≡ record self.old { ad = ad } }
    {
        self.ad = ad;
    }

    /// Whether CD is set: checking is disabled (RFC 4035, section 3.2.2).
    pub fn cd(self) -> bool
        ensures { result ≡ self.cd }
    {
        self.cd
    }

    /// Sets or clears CD: whether checking is disabled.
    pub fn set_cd(&mut self, cd: bool)
        ensures { self.new ≡ record self.old { cd = cd } }
    {
        self.cd = cd;
    }

    /// The header's response code, four bits; an OPT record may add eight more.
    pub fn rcode(self) -> Rcode
        ensures { result ≡ self.rcode }
    {
        self.rcode
    }

    /// Replaces the header's response code, four bits.
    pub fn set_rcode(&mut self, rcode: Rcode)
        ensures { self.new ≡ record self.old { rcode = rcode } }
    {
        self.rcode = rcode;
    }
}

impl HeaderCounts {
    /// How many questions there are.
    pub fn qdcount(self) -> u16
        ensures { result ≡ self.qdcount }
    {
        self.qdcount
    }

    /// How many answer records there are.
    pub fn ancount(self) -> u16
        ensures { result ≡ self.ancount }
    {
        self.ancount
    }

    /// How many authority records there are.
    pub fn nscount(self) -> u16
        ensures { result ≡ self.nscount }
    {
        self.nscount
    }

    /// How many additional records there are.
    pub fn arcount(self) -> u16
        ensures { result ≡ self.arcount }
    {
        self.arcount
    }
}

/// A flag as a bit.
fn bit_of(flag: bool) -> u8
    ensures value { result ≡ bit flag }
    ensures small { result ≤ 1 }
{
    if flag { 1 } else { 0 }
}

/// The flag with this weight in an octet.
fn flag_in(octet: u8, weight: u8) -> bool
    requires { 0 < weight }
    ensures { result ≡ low_bit (octet / weight) }
{
    octet / weight % 2 == 1
}

fn opcode_in(octet: u8) -> Opcode
    ensures { result ≡ octet / 8 % 16 }
{
    match Opcode::checked_from_int(octet / 8 % 16) {
        Some(opcode) => opcode,
        None => Opcode::QUERY,
    }
}

fn rcode_in(octet: u8) -> Rcode
    ensures { result ≡ octet % 16 }
{
    match Rcode::checked_from_int(octet % 16) {
        Some(rcode) => rcode,
        None => Rcode::NOERROR,
    }
}

/// The header of a message's octets.
pub(crate) fn header_in(octets: &[u8]) -> Header
    ensures { result ≡ header_of octets.now }
{
    match octets {
        [a, b, c, d, ..] => header_from(*a, *b, *c, *d),
        _ => header_from(0, 0, 0, 0),
    }
}

/// The header that four octets are.
fn header_from(a: u8, b: u8, c: u8, d: u8) -> Header
    ensures { result ≡ header_in a b c d }
{
    Header {
        id: 256 * a as u16 + b as u16,
        qr: flag_in(c, 128),
        opcode: opcode_in(c),
        aa: flag_in(c, 4),
        tc: flag_in(c, 2),
        rd: flag_in(c, 1),
        ra: flag_in(d, 128),
        z: flag_in(d, 64),
        ad: flag_in(d, 32),
        cd: flag_in(d, 16),
        rcode: rcode_in(d),
    }
}

/// The upper octet of flags and codes.
fn upper_of(header: &Header) -> u8
    ensures value { result ≡ upper_flags header.now }
    ensures opcode { header.now.opcode < 16 }
{
    let opcode = header.opcode.to_int();
    128 * bit_of(header.qr)
        + 8 * opcode
        + 4 * bit_of(header.aa)
        + 2 * bit_of(header.tc)
        + bit_of(header.rd)
}

/// The lower octet of flags and codes.
fn lower_of(header: &Header) -> u8
    ensures value { result ≡ lower_flags header.now }
    ensures rcode { header.now.rcode < 16 }
{
    let rcode = header.rcode.to_int();
    128 * bit_of(header.ra)
        + 64 * bit_of(header.z)
        + 32 * bit_of(header.ad)
        + 16 * bit_of(header.cd)
        + rcode
}

/// The number of two octets at a place of a message, high octet first; 0 if fewer than two stand there. The counts
/// of a header stand at the places 4, 6, 8 and 10 (RFC 1035, section 4.1.1).
pub fn number_at(octets: &[u8], at: usize) -> u16
    requires { at ≤ length octets.now }
    ensures { result ≡ field at octets.now }
{
    number_in(&octets[at..])
}

fn number_in(octets: &[u8]) -> u16
    ensures { result ≡ number_of octets.now }
{
    match octets {
        [a, b, ..] => 256 * (*a as u16) + (*b as u16),
        _ => 0,
    }
}
