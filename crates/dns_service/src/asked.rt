//! What is read of a request, once, before anything is decided about it.

ghost use Rattle.std.specs.Prelude.{◌≡◌, [], IfOk};
ghost use Rattle.dns_replies.specs.OptRecords.{head_by, opt_state};
ghost use Rattle.dns_service.specs.OptItems.{items_among, opt_items};
ghost use Rattle.dns_service.specs.Asked.{asked_cookie, asked_of, asked_opt, asked_record, behind_record, client_size, cookie_in, has_item, sends_timeout};

use dns_base::{Message, Opcode, RecordIter, RecordRef, Rtype};
use dns_replies::{Cookie, OptRef};

/// The first COOKIE option of a request (RFC 7873, section 4).
#[derive(Clone, Copy, Debug)]
pub enum AskedCookie {
    /// The request has no COOKIE option.
    NoCookie,
    /// The first COOKIE option can't be read.
    Unreadable,
    /// The first COOKIE option is this cookie.
    Sent(Cookie),
}

/// What is kept of an OPT record of a request (RFC 6891, section 6.1.2).
#[derive(Clone, Copy, Debug)]
pub struct AskedRecord {
    /// The greatest payload over UDP, in octets.
    pub size: u16,
    /// The version of EDNS.
    pub version: u8,
    /// Whether the first keepalive has a timeout, which a client may not send (RFC 7828, section 3.2.1).
    pub sends_timeout: bool,
    /// The first cookie.
    pub cookie: AskedCookie,
}

/// What a request has for an OPT record (RFC 6891, section 6.1.1).
#[derive(Clone, Copy, Debug)]
pub enum AskedOpt {
    /// Nothing.
    NoItem,
    /// One record that can be read.
    One(AskedRecord),
    /// Two or more items, or a first one that can't be read. The first record is kept, if it can be read.
    Faulty(Option<AskedRecord>),
}

/// What is read of a request.
#[derive(Clone, Copy, Debug)]
pub struct Asked {
    /// The identifier.
    pub id: u16,
    /// Whether recursion is desired.
    pub rd: bool,
    /// The kind of query.
    pub opcode: Opcode,
    /// The number of questions that the header states.
    pub qdcount: u16,
    /// The OPT record.
    pub opt: AskedOpt,
}

impl AskedOpt {
    /// The first cookie of the first item, if that is a record that can be read.
    pub fn cookie(&self) -> AskedCookie
        ensures { result ≡ asked_cookie self.now }
    {
        match self {
            AskedOpt::NoItem => AskedCookie::NoCookie,
            AskedOpt::One(record) => record.cookie,
            AskedOpt::Faulty(None) => AskedCookie::NoCookie,
            AskedOpt::Faulty(Some(record)) => record.cookie,
        }
    }

    /// The greatest payload over UDP that this record states, in octets.
    pub fn client_size(&self) -> Option<u16>
        ensures { result ≡ client_size self.now }
    {
        match self {
            AskedOpt::NoItem => None,
            AskedOpt::One(record) => Some(record.size),
            AskedOpt::Faulty(None) => None,
            AskedOpt::Faulty(Some(record)) => Some(record.size),
        }
    }

    /// Whether there is an item at all.
    pub fn has_item(&self) -> bool
        ensures { result ≡ has_item self.now }
    {
        match self {
            AskedOpt::NoItem => false,
            AskedOpt::One(_) => true,
            AskedOpt::Faulty(_) => true,
        }
    }
}

/// Reads a request. Each of its records is read once.
#[inline(always)]
pub fn read_asked(message: &Message) -> Asked
    ensures { result ≡ asked_of message.now }
{
    let header = message.header();
    Asked {
        id: header.id,
        rd: header.rd,
        opcode: header.opcode,
        qdcount: message.header_counts().qdcount,
        opt: asked_opt(message),
    }
}

/// What a message has for an OPT record.
#[tactic(auto, using(crate::proofs::AskedLaws::none_stated))]
#[inline(always)]
fn asked_opt(message: &Message) -> AskedOpt
    ensures { result ≡ asked_opt (opt_items message.now) }
{
    if message.header_counts().arcount == 0 {
        return AskedOpt::NoItem;
    }
    stated_opt(message)
}

/// What a message has for an OPT record, by its additional records.
#[inline(never)]
fn stated_opt(message: &Message) -> AskedOpt
    ensures { result ≡ asked_opt (opt_items message.now) }
{
    match message.additional() {
        Ok(records) => first_among(records),
        Err(_) => AskedOpt::NoItem,
    }
}

/// The first item among records, and what is after it.
fn first_among(records: RecordIter<'_>) -> AskedOpt
    ensures { result ≡ asked_opt (items_among records.entry) }
{
    let mut left = records;
    'walk: while let Some(item) = left.next() {
        let Ok(record) = item else {
            return AskedOpt::Faulty(None);
        };
        if record.rtype() == Rtype::OPT {
            return match OptRef::from_slice(record.rdata()) {
                Ok(options) => behind_record(asked_record(&record, &options), left),
                Err(_) => AskedOpt::Faulty(None),
            };
        }
    }
    AskedOpt::NoItem
}

/// A record, and whether there are items after it.
fn behind_record(first: AskedRecord, records: RecordIter<'_>) -> AskedOpt
    ensures { result ≡ behind_record first (items_among records.entry) }
{
    let mut left = records;
    'walk: while let Some(item) = left.next() {
        let Ok(record) = item else {
            return AskedOpt::Faulty(Some(first));
        };
        if record.rtype() == Rtype::OPT {
            return AskedOpt::Faulty(Some(first));
        }
    }
    AskedOpt::One(first)
}

/// What is kept of an OPT record that has these options.
fn asked_record(item: &RecordRef<'_>, options: &OptRef<'_>) -> AskedRecord
    ensures { result ≡ asked_record (opt_state (head_by item.now.resource.class item.now.resource.ttl) options.now) }
{
    AskedRecord {
        size: item.class().to_int(),
        version: (item.ttl().as_secs() / 65536 % 256) as u8,
        sends_timeout: sends_timeout(options),
        cookie: cookie_in(options),
    }
}

/// Whether the first keepalive has a timeout.
fn sends_timeout(options: &OptRef<'_>) -> bool
    ensures { result ≡ sends_timeout options.now }
{
    match options.tcp_keepalive() {
        Some(keepalive) => match keepalive.timeout() {
            Some(_) => true,
            None => false,
        },
        None => false,
    }
}

/// The first cookie.
fn cookie_in(options: &OptRef<'_>) -> AskedCookie
    ensures { result ≡ cookie_in options.now }
{
    match options.iter::<Cookie>().next() {
        None => AskedCookie::NoCookie,
        Some(Ok(cookie)) => AskedCookie::Sent(cookie),
        Some(Err(_)) => AskedCookie::Unreadable,
    }
}
