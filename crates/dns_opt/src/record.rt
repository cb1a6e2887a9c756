//! OPT records.

ghost use Rattle.std.specs.Prelude.{◌≡◌, ◌+◌, ◌*◌, ◌/◌, ◌%◌, [], IfOk};
ghost use Rattle.dns_base.specs.Built.{Pushes, with_additional};
ghost use Rattle.dns_base.specs.Records.{IsLawful, record_of};
ghost use Rattle.dns_opt.specs.OptRecords.{from_data, from_record, head_by, is_do, opt_record, opt_state, with_do, zero_head};
ghost use Rattle.dns_options.specs.Pushes.{Pushed, PushedRaw};
ghost use Rattle.dns_options.specs.Writes.{Writes};

use crate::header::OptHeader;
use dns_base::{AdditionalBuilder, Header, PushError, Record, RecordData};
use dns_name::{
    BuildDataError, Class, ComposeOptData, HoldsOctets, Name, Octets, OptRcode, OptionCode,
    OutOfMemory, Ttl,
};
use dns_options::{HeldOpt, Opt, OptRef};
use std::alloc::Global;
use std::marker::Model;

/// An OPT record whose options are in S.
#[derive(Drop)]
#[derive_where(Debug)]
#[derive_where(Clone; S: Copy)]
pub struct HeldOptRecord<S: HoldsOctets> {
    head: OptHeader,
    options: HeldOpt<S>,
}

impl<S: HoldsOctets> Model for HeldOptRecord<S> {
    ghost use Rattle.dns_opt.specs.OptRecords.{OptState, opt_state};

    ghost Value = { OptState };

    ghost view = { λ r. opt_state r.head r.options };
}

/// An OPT record with options in memory of its own (RFC 6891, section 6.1).
pub type OptRecord = HeldOptRecord<Vec<u8>>;

/// An OPT record whose options are borrowed (RFC 6891, section 6.1).
pub type OptRecordRef<'a> = HeldOptRecord<&'a [u8]>;

/// The head that a record's class and TTL are.
pub(crate) fn head_by(class: Class, ttl: Ttl) -> OptHeader
    ensures { result ≡ head_by class ttl }
{
    let secs = ttl.as_secs();
    OptHeader {
        size: class.to_int(),
        ext: (secs / 16777216) as u8,
        version: (secs / 65536 % 256) as u8,
        flags: (secs % 65536) as u16,
    }
}

/// The OPT record of a head and the data of a record; none if the data is of another type, or no option list.
fn from_data(head: OptHeader, rdata: RecordData) -> Option<OptRecord>
    ensures { result ≡ from_data head rdata }
{
    match rdata {
        RecordData::Opt(octets) => match Opt::from_octets(octets.into_vec()) {
            Ok(options) => Some(HeldOptRecord { head, options }),
            Err(_) => None,
        },
        _ => None,
    }
}

impl<S: HoldsOctets> HeldOptRecord<S> {
    /// The greatest payload over UDP, in octets.
    pub fn udp_payload_size(&self) -> u16
        ensures { result ≡ self.now.head.size }
    {
        self.head.udp_payload_size()
    }

    /// The response code, with the lower four bits of the message's header.
    pub fn rcode(&self, header: Header) -> OptRcode
        ensures { result ≡ 16 * self.now.head.ext + header.rcode }
    {
        self.head.rcode(header)
    }

    /// The version of EDNS, 0 in RFC 6891.
    pub fn version(&self) -> u8
        ensures { result ≡ self.now.head.version }
    {
        self.head.version()
    }

    /// Whether DNSSEC records are wanted.
    pub fn dnssec_ok(&self) -> bool
        ensures { result ≡ is_do self.now.head.flags }
    {
        self.head.dnssec_ok()
    }

    /// The options, as one list.
    pub fn opt(&self) -> &HeldOpt<S>
        ensures { result.now ≡ self.now.options }
    {
        &self.options
    }
}

impl OptRecord {
    /// A record whose numbers are all 0, without options.
    pub fn default(alloc: Global) -> OptRecord
        ensures { result ≡ opt_state zero_head [] }
    {
        HeldOptRecord {
            head: OptHeader::default(),
            options: Opt::empty(alloc),
        }
    }

    /// The OPT record that a record is; none if its type is another, or its data no option list.
    pub fn from_record(source: Record) -> Option<OptRecord>
        ensures { result ≡ from_record source }
    {
        from_data(head_by(source.class, source.ttl), source.rdata)
    }

    /// Sets the greatest payload over UDP.
    pub fn set_udp_payload_size(&mut self, size: u16)
        ensures { self.new ≡ opt_state (record self.old.head { size = size }) self.old.options }
    {
        self.head.set_udp_payload_size(size);
    }

    /// Says whether DNSSEC records are wanted.
    pub fn set_dnssec_ok(&mut self, value: bool)
        ensures { self.new ≡ opt_state (record self.old.head { flags = with_do self.old.head.flags value }) self.old.options }
    {
        self.head.set_dnssec_ok(value);
    }

    /// Borrows the record; its options aren't copied.
    pub fn for_slice(&self) -> OptRecordRef<'_>
        ensures { result ≡ self.now }
    {
        HeldOptRecord {
            head: self.head,
            options: self.options.for_slice_ref(),
        }
    }

    /// Appends an option. A refused push leaves the record.
    pub fn push<D: ComposeOptData>(
        &mut self,
        alloc: Global,
        value: &D,
    ) -> Result<(), BuildDataError>
        ensures options { Pushed (D.code_of value.now) (D.octets value.now) self.old.options self.new.options result }
        ensures head { self.new.head ≡ self.old.head }
    {
        self.options.push(alloc, value)
    }

    /// Appends an option whose data a closure writes, as many octets as are stated. A refused push leaves the record.
    pub fn push_raw_option<F: FnOnce(&mut Vec<u8>) -> Result<(), OutOfMemory>>(
        &mut self,
        alloc: Global,
        code: OptionCode,
        len: u16,
        write: F,
    ) -> Result<(), BuildDataError>
        requires { F.IsAlwaysCallable write }
        ensures options { PushedRaw (Writes F.FnOnce write) code len self.old.options self.new.options result }
        ensures head { self.new.head ≡ self.old.head }
    {
        self.options.push_raw_option(alloc, code, len, write)
    }

    /// The head and the options.
    pub(crate) fn into_parts(self) -> (OptHeader, Opt)
        ensures { opt_state result.0 result.1 ≡ self }
    {
        let HeldOptRecord { head, options } = self;
        (head, options)
    }

    /// The record as a message holds it.
    pub fn as_record(&self, alloc: Global) -> Result<Record, OutOfMemory>
        ensures value { IfOk result (λ r. record_of r ≡ opt_record self.now) }
        ensures lawful { IfOk result (λ r. IsLawful r.rdata) }
    {
        let options = self.options.for_slice_ref().to_owned(alloc)?;
        record_by(alloc, self.head, options)
    }

    /// Appends the record to a message, if it is written at once: no memory is taken but the message's.
    pub fn append_to(&self, alloc: Global, message: &mut AdditionalBuilder) -> Result<(), PushError>
        ensures { Pushes message.old message.new (with_additional message.old (opt_record self.now)) result }
    {
        append(message, alloc, self.head, &self.options)
    }
}

/// Appends a record of a head and options to a message.
pub(crate) fn append(
    message: &mut AdditionalBuilder,
    alloc: Global,
    head: OptHeader,
    options: &Opt,
) -> Result<(), PushError>
    ensures { Pushes message.old message.new (with_additional message.old (opt_record (opt_state head options.now))) result }
{
    message.push_opt(alloc, head.size, head.ttl(), options.as_slice())
}

/// A record of a head and options, which aren't copied.
fn record_by(alloc: Global, head: OptHeader, options: Opt) -> Result<Record, OutOfMemory>
    ensures value { IfOk result (λ r. record_of r ≡ opt_record (opt_state head options)) }
    ensures lawful { IfOk result (λ r. IsLawful r.rdata) }
{
    let owner = Name::root(alloc)?;
    let octets = Octets::from_vec(options.into_octets());
    Ok(Record {
        owner,
        class: Class::from_int(head.size),
        ttl: head.ttl(),
        rdata: RecordData::Opt(octets),
    })
}

impl<'a> HeldOptRecord<&'a [u8]> {
    pub(crate) fn head(&self) -> OptHeader
        ensures { result ≡ self.now.head }
    {
        self.head
    }

    pub(crate) fn of(head: OptHeader, options: OptRef<'a>) -> OptRecordRef<'a>
        ensures { result ≡ opt_state head options.entry }
    {
        HeldOptRecord { head, options }
    }

    /// Copies the record, with all options, into an owned one.
    pub fn to_owned(&self, alloc: Global) -> Result<OptRecord, OutOfMemory>
        ensures { IfOk result (λ r. r ≡ self.now) }
    {
        let options = self.options.to_owned(alloc)?;
        Ok(HeldOptRecord {
            head: self.head,
            options,
        })
    }
}
