//! The head of an OPT record.

ghost use Rattle.std.specs.Prelude.{◌≡◌, ◌+◌, ◌*◌, ◌/◌, ◌++◌, IsTrue, ◌↔◌, OnErr, OnOk};
ghost use Rattle.dns_opt.specs.OptRecords.{head_octets, head_of, is_do, with_do, zero_head};

use dns_base::Header;
use dns_name::{OptRcode, OutOfMemory, ParseError, Rcode, Ttl};
use std::alloc::Global;
use std::marker::Model;

/// The head of an OPT record: payload size, upper response code, version and flags.
#[derive(Clone, Copy, Debug, PartialEq, Eq)]
pub struct OptHeader {
    pub(crate) size: u16,
    pub(crate) ext: u8,
    pub(crate) version: u8,
    pub(crate) flags: u16,
}

impl Model for OptHeader {
    ghost use Rattle.std.specs.Prelude.{◌<◌};
    ghost use Rattle.dns_opt.specs.OptRecords.{OptHead};

    ghost Value = { OptHead };

    ghost view = { λ h. record { size = h.size; ext = h.ext; version = h.version; flags = h.flags } };

    ghost inverse = { λ v. record { size = v.size; ext = v.ext; version = v.version; flags = v.flags } };

    ghost invariant = { λ h. (h.size < 65536) × (h.ext < 256) × (h.version < 256) × (h.flags < 65536) };
}

impl Default for OptHeader {
    ghost is_default = { λ h. h ≡ zero_head };

    fn default() -> OptHeader {
        OptHeader {
            size: 0,
            ext: 0,
            version: 0,
            flags: 0,
        }
    }
}

impl OptHeader {
    /// The head of an OPT record's octets, from its name on, which takes one octet.
    pub fn from_record_slice(octets: &[u8]) -> Result<OptHeader, ParseError>
        ensures { result ≡ head_of octets.now }
    {
        if octets.len() < 9 {
            return Err(ParseError::ShortInput);
        }
        Ok(OptHeader {
            size: 256 * octets[3] as u16 + octets[4] as u16,
            ext: octets[5],
            version: octets[6],
            flags: 256 * octets[7] as u16 + octets[8] as u16,
        })
    }

    /// The greatest payload over UDP, in octets.
    pub fn udp_payload_size(&self) -> u16
        ensures { result ≡ self.now.size }
    {
        self.size
    }

    /// Sets the greatest payload over UDP.
    pub fn set_udp_payload_size(&mut self, size: u16)
        ensures { self.new ≡ record self.old { size = size } }
    {
        self.size = size;
    }

    /// The response code, with the lower four bits of the message's header.
    pub fn rcode(&self, header: Header) -> OptRcode
        ensures { result ≡ 16 * self.now.ext + header.rcode }
    {
        self.rcode_above(header.rcode)
    }

    /// The response code with these lower four bits.
    pub(crate) fn rcode_above(&self, low: Rcode) -> OptRcode
        ensures { result ≡ 16 * self.now.ext + low }
    {
        OptRcode::from_parts(low, self.ext)
    }

    /// Sets the upper eight bits of the response code.
    pub fn set_rcode(&mut self, rcode: OptRcode)
        ensures { self.new ≡ record self.old { ext = rcode / 16 } }
    {
        self.ext = rcode.ext();
    }

    /// The version of EDNS, 0 in RFC 6891.
    pub fn version(&self) -> u8
        ensures { result ≡ self.now.version }
    {
        self.version
    }

    /// Sets the version of EDNS.
    pub fn set_version(&mut self, version: u8)
        ensures { self.new ≡ record self.old { version = version } }
    {
        self.version = version;
    }

    /// Whether DNSSEC records are wanted (RFC 3225, section 3).
    pub fn dnssec_ok(&self) -> bool
        ensures { result ≡ is_do self.now.flags }
    {
        self.flags >= 32768
    }

    /// Says whether DNSSEC records are wanted.
    pub fn set_dnssec_ok(&mut self, value: bool)
        ensures { self.new ≡ record self.old { flags = with_do self.old.flags value } }
    {
        let others = self.flags % 32768;
        self.flags = if value { others + 32768 } else { others };
    }

    /// What stands in the place of the record's TTL: upper response code, version and flags (RFC 6891, section 6.1.3).
    pub(crate) fn ttl(self) -> Ttl
        ensures { result ≡ 16777216 * self.ext + 65536 * self.version + self.flags }
    {
        let secs = 16777216 * self.ext as u32 + 65536 * self.version as u32 + self.flags as u32;
        Ttl::from_secs(secs)
    }

    /// Appends the nine octets of an OPT record before the length of its options. A refused call leaves the target.
    pub fn compose(&self, alloc: Global, target: &mut Vec<u8>) -> Result<(), OutOfMemory>
        ensures ok { OnOk result (target.new.items ≡ target.old.items ++ head_octets self.now) }
        ensures err { OnErr result (target.new.items ≡ target.old.items) }
    {
        let octets = [
            0,
            0,
            41,
            (self.size / 256) as u8,
            (self.size % 256) as u8,
            self.ext,
            self.version,
            (self.flags / 256) as u8,
            (self.flags % 256) as u8,
        ];
        target.extend_from_slice(&octets)?;
        Ok(())
    }
}
