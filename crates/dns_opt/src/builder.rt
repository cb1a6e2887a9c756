//! OPT records under construction.

ghost use Rattle.std.specs.Prelude.{◌≡◌, ◌*◌, ◌+◌, ◌<◌, ◌/◌, ◌%◌, ℕ, length};
ghost use Rattle.dns_opt.specs.Drafts.{OptDraft, PushedIn, PushedRawIn};
ghost use Rattle.dns_opt.specs.OptRecords.{is_do, with_do};
ghost use Rattle.dns_options.specs.Pushes.{Fits};
ghost use Rattle.dns_options.specs.Writes.{Writes};

use crate::header::OptHeader;
use dns_name::{BuildDataError, ComposeOptData, OptRcode, OptionCode, OutOfMemory, Rcode};
use dns_options::{Opt, written_by};
use std::alloc::Global;
use std::marker::Model;

/// An OPT record that is built for a message.
#[derive(Debug, Drop)]
pub struct OptBuilder {
    pub(crate) head: OptHeader,
    pub(crate) low: Rcode,
    pub(crate) options: Opt,
    pub(crate) room: usize,
}

impl Model for OptBuilder {
    ghost use Rattle.dns_opt.specs.Drafts.{OptDraft};

    ghost Value = { OptDraft };

    ghost view = { λ b. record { head = b.head; low = b.low; options = b.options; room = b.room } };
}

impl OptBuilder {
    /// The greatest payload over UDP, in octets.
    pub fn udp_payload_size(&self) -> u16
        ensures { result ≡ self.now.head.size }
    {
        self.head.udp_payload_size()
    }

    /// The response code: its upper eight bits are here, its lower four in the message's header.
    pub fn rcode(&self) -> OptRcode
        ensures { result ≡ 16 * self.now.head.ext + self.now.low }
    {
        self.head.rcode_above(self.low)
    }

    /// The version of EDNS, 0 in RFC 6891.
    pub fn version(&self) -> u8
        ensures { result ≡ self.now.head.version }
    {
        self.head.version()
    }

    /// Whether DNSSEC records are wanted.
    pub fn dnssec_ok(&self) -> bool
        ensures { result ≡ is_do self.now.head.flags }
    {
        self.head.dnssec_ok()
    }

    /// The options that were pushed so far, as one list.
    pub fn options(&self) -> &Opt
        ensures { result.now ≡ self.now.options }
    {
        &self.options
    }

    /// Sets the greatest payload over UDP, in octets.
    pub fn set_udp_payload_size(&mut self, size: u16)
        ensures { self.new ≡ record self.old { head = record self.old.head { size = size } } }
    {
        self.head.set_udp_payload_size(size);
    }

    /// Sets the response code: its upper eight bits here, its lower four in the message's header.
    pub fn set_rcode(&mut self, rcode: OptRcode)
        ensures { self.new ≡ record self.old { head = record self.old.head { ext = rcode / 16 }; low = rcode % 16 } }
    {
        self.head.set_rcode(rcode);
        self.low = rcode.rcode();
    }

    /// Sets the version of EDNS.
    pub fn set_version(&mut self, version: u8)
        ensures { self.new ≡ record self.old { head = record self.old.head { version = version } } }
    {
        self.head.set_version(version);
    }

    /// Says whether DNSSEC records are wanted.
    pub fn set_dnssec_ok(&mut self, value: bool)
        ensures { self.new ≡ record self.old { head = record self.old.head { flags = with_do self.old.head.flags value } } }
    {
        self.head.set_dnssec_ok(value);
    }

    /// Appends an option. A refused push leaves the record.
    pub fn push<D: ComposeOptData>(
        &mut self,
        alloc: Global,
        value: &D,
    ) -> Result<(), BuildDataError>
        ensures { PushedIn (D.code_of value.now) (D.octets value.now) self.old self.new result }
    {
        let total = self.options.len() + 4 + value.compose_len() as usize;
        if total > 65535 {
            return Err(BuildDataError::LongOptData);
        }
        if self.room < total + 11 {
            return Err(BuildDataError::ShortBuf);
        }
        self.options.push(alloc, value)
    }

    /// Appends an option whose data a closure writes to an empty vector, as many octets as are stated.
    /// A refused push leaves the record.
    pub fn push_raw_option<F: FnOnce(&mut Vec<u8>) -> Result<(), OutOfMemory>>(
        &mut self,
        alloc: Global,
        code: OptionCode,
        len: u16,
        write: F,
    ) -> Result<(), BuildDataError>
        requires { F.IsAlwaysCallable write }
        ensures { PushedRawIn (Writes F.FnOnce write) code len self.old self.new result }
    {
        let total = self.options.len() + 4 + len as usize;
        if total > 65535 {
            return Err(BuildDataError::LongOptData);
        }
        if self.room >= total + 11 {
            return self.options.push_raw_option(alloc, code, len, write);
        }
        Err(refused_without_room(alloc, len, write))
    }
}

/// Why an option of that many octets is refused if the message has no room for it. The closure is called, and what it
/// writes isn't kept.
fn refused_without_room<F: FnOnce(&mut Vec<u8>) -> Result<(), OutOfMemory>>(
    alloc: Global,
    len: u16,
    write: F,
) -> BuildDataError
    requires { F.IsAlwaysCallable write }
    ensures { (code : ℕ) → (d : OptDraft) → Fits d.options len → d.room < length d.options + 4 + len + 11
        → PushedRawIn (Writes F.FnOnce write) code len d d (Err result) }
{
    match written_by(alloc, write) {
        Ok(octets) => {
            let written = octets.len();
            if written == len as usize {
                BuildDataError::ShortBuf
            } else {
                BuildDataError::WrongLength {
                    stated: len,
                    written,
                }
            }
        }
        Err(_) => BuildDataError::OutOfMemory,
    }
}
