//! The check of a secondary's copy: the primary is asked for its SOA record, and for the zone if that is newer.

ghost use Rattle.std.specs.Prelude.{IfOk, OnOk};
ghost use Rattle.dns_zone_copies.specs.Replies.{GoesOnTo, IsReplyTo, MayEnd};

use crate::primary::{receive, seconds, send, send_signed};
use anyhow::bail;
use dns_base::AdditionalBuilder;
use dns_generation::Generation;
use dns_incoming::{IncomingTransfer, TransferDefect, TransferStatus};
use dns_message::{Message, Record};
use dns_name::{Name, OutOfMemory};
use dns_peer_keys::{Key, Mac, TransferReplies, verified_reply};
use dns_secondary::{SoaTimers, ZoneCopy, soa_query, transfer_query};
use dns_zone_file::write_zone;
use std::alloc::Global;
use std::io::{Read, Write};
use std::net::TcpStream;
use std::rt::Clock;
use std::sync::Arc;
use std::sync::atomic::AtomicBool;

/// How many messages a transfer has at most.
const MOST_MESSAGES: u64 = 10_000_000;

/// How many records a zone has at most that is transferred.
const MOST_RECORDS: usize = 10_000_000;

/// The identifiers of both queries, which are asked one after another in one connection.
const SOA_ID: u16 = 1;

const TRANSFER_ID: u16 = 2;

/// What is checked, over a connection to the primary.
#[derive(Drop)]
pub(crate) struct Check {
    pub(crate) apex: Name,
    pub(crate) stream: TcpStream,
    /// The key that is shared with the primary.
    pub(crate) key: Option<Arc<Key>>,
    pub(crate) copy: ZoneCopy,
    /// Set if the check is to be given up.
    pub(crate) stop: Arc<AtomicBool>,
}

/// What came of a check.
#[derive(Drop)]
pub(crate) enum Checked {
    /// The copy is current: what the primary's SOA record says.
    Current(SoaTimers),
    /// A newer zone came, as the text of a zone file.
    Came(SoaTimers, Vec<u8>),
}

/// Why what came is no transfer, in words.
fn fault_text(fault: TransferDefect) -> &'static str {
    match fault {
        TransferDefect::Identifier => "another message came than the response",
        TransferDefect::Code => "the response has a response code other than NOERROR",
        TransferDefect::Unreadable => "the response is unreadable",
        TransferDefect::NoSoa => "the first record is no SOA record of the zone",
        TransferDefect::OtherSoa => "another SOA record came",
        TransferDefect::Behind => "a record came behind the end",
        TransferDefect::Outside => "a record outside the zone came",
        TransferDefect::TooMany => "too many records came",
    }
}

/// Takes a message of a transfer, and says how far that is.
fn take(
    alloc: Global,
    incoming: &mut IncomingTransfer,
    message: &Message,
) -> anyhow::Result<TransferStatus> {
    incoming.take(alloc, message)?;
    match incoming.status() {
        TransferStatus::Refused(fault) => bail!("{}", fault_text(fault)),
        status => Ok(status),
    }
}

/// A key, and the MAC of the query that was signed under it.
#[derive(Drop)]
struct SignedQuery {
    key: Arc<Key>,
    mac: Mac,
}

/// Sends a query, signed if there is a key.
fn ask<R: Clock, S: Write>(
    rt: &R,
    alloc: Global,
    stream: &mut S,
    key: &Option<Arc<Key>>,
    query: AdditionalBuilder,
) -> anyhow::Result<Option<SignedQuery>> {
    match key {
        Some(key) => {
            let mac = send_signed(rt, alloc, stream, key, query)?;
            let key = Arc::try_clone(key)?;
            Ok(Some(SignedQuery { key, mac }))
        }
        None => {
            send(stream, query)?;
            Ok(None)
        }
    }
}

/// A reply to a query: if that was signed, one that verifies, without its TSIG.
fn verified<R: Clock>(
    rt: &R,
    alloc: Global,
    asked: &Option<SignedQuery>,
    message: Message,
) -> anyhow::Result<Message>
    ensures { IfOk result (IsReplyTo asked.now message) }
{
    match asked {
        Some(asked) => {
            let secs = seconds(rt)?;
            Ok(verified_reply(alloc, &asked.key, &asked.mac, secs, &message)?)
        }
        None => Ok(message),
    }
}

/// What the primary's SOA record says.
fn ask_soa<R: Clock, S: Read + Write>(
    rt: &R,
    alloc: Global,
    stream: &mut S,
    key: &Option<Arc<Key>>,
    apex: &Name,
    stop: &AtomicBool,
) -> anyhow::Result<SoaTimers> {
    let asked = match soa_query(alloc, SOA_ID, apex) {
        Ok(query) => ask(rt, alloc, stream, key, query)?,
        Err(_) => bail!("out of memory"),
    };
    let message = verified(rt, alloc, &asked, receive(alloc, stream, stop)?)?;
    let mut incoming = IncomingTransfer::new(alloc, SOA_ID, apex.try_clone(alloc)?, 1);
    let _ = take(alloc, &mut incoming, &message)?;
    let records = incoming.into_records();
    match first_timers(records.as_slice()) {
        Some(timers) => Ok(timers),
        None => bail!("the response has no SOA record"),
    }
}

/// What the first of some records says of copies, if that is an SOA record.
fn first_timers(records: &[Record]) -> Option<SoaTimers> {
    match records.get(0) {
        Some(record) => SoaTimers::of(&record.rdata),
        None => None,
    }
}

/// Asks for the zone that the primary has, and gives what verifies its replies if the query was signed.
fn ask_transfer<R: Clock, S: Write>(
    rt: &R,
    alloc: Global,
    stream: &mut S,
    key: &Option<Arc<Key>>,
    apex: &Name,
) -> anyhow::Result<Option<TransferReplies>> {
    let asked = match transfer_query(alloc, TRANSFER_ID, apex) {
        Ok(query) => ask(rt, alloc, stream, key, query)?,
        Err(_) => bail!("out of memory"),
    };
    Ok(replies_to(asked)?)
}

/// What verifies the replies to a query for a transfer that was signed.
fn replies_to(asked: Option<SignedQuery>) -> Result<Option<TransferReplies>, OutOfMemory> {
    match asked {
        Some(asked) => Ok(Some(TransferReplies::new(&asked.key, &asked.mac)?)),
        None => Ok(None),
    }
}

/// Receives a message of a transfer: one that goes on what was verified before.
fn receive_more<R: Clock, S: Read>(
    rt: &R,
    alloc: Global,
    stream: &mut S,
    replies: &mut Option<TransferReplies>,
    stop: &AtomicBool,
) -> anyhow::Result<Message>
    ensures { IfOk result (GoesOnTo replies.old replies.new) }
{
    let message = receive(alloc, stream, stop)?;
    go_on(rt, replies, &message)?;
    Ok(message)
}

/// Takes a message of a transfer that goes on what was verified before.
fn go_on<R: Clock>(
    rt: &R,
    replies: &mut Option<TransferReplies>,
    message: &Message,
) -> anyhow::Result<()>
    ensures { OnOk result (GoesOnTo replies.old replies.new message.now) }
{
    match replies {
        Some(replies) => Ok(replies.take(seconds(rt)?, message)?),
        None => Ok(()),
    }
}

/// Whether a transfer may end: if it was asked under a key, its last message was signed.
fn may_end(replies: &Option<TransferReplies>) -> bool
    ensures { MayEnd replies.now result }
{
    match replies {
        Some(replies) => replies.is_whole(),
        None => true,
    }
}

/// The records of the zone that the primary has, unless the check is to be given up.
fn ask_zone<R: Clock, S: Read + Write>(
    rt: &R,
    alloc: Global,
    stream: &mut S,
    key: &Option<Arc<Key>>,
    apex: &Name,
    stop: &AtomicBool,
) -> anyhow::Result<Vec<Record>> {
    let mut replies = ask_transfer(rt, alloc, stream, key, apex)?;
    let apex = apex.try_clone(alloc)?;
    let mut incoming = IncomingTransfer::new(alloc, TRANSFER_ID, apex, MOST_RECORDS);
    for _ in 0..MOST_MESSAGES {
        let message = receive_more(rt, alloc, stream, &mut replies, stop)?;
        if let TransferStatus::Done = take(alloc, &mut incoming, &message)? {
            if !may_end(&replies) {
                bail!("the last message of the transfer isn't signed");
            }
            return Ok(incoming.into_records());
        }
    }
    bail!("too many messages came")
}

/// The text of a zone file of records, if they are a zone, and what its SOA record says.
fn judged(alloc: Global, apex: &Name, records: &[Record]) -> anyhow::Result<Checked> {
    let text = write_zone(alloc, records)?;
    let mut generation = Generation::new(alloc, Vec::new(alloc));
    generation.add(alloc, apex, text.as_slice())?;
    let timers = match generation.summaries().get(0) {
        Some(summary) => summary.timers,
        None => None,
    };
    match timers {
        Some(timers) => Ok(Checked::Came(timers, text)),
        None => bail!("the zone has no SOA record"),
    }
}

/// Asks the primary of a zone.
fn outcome<R: Clock>(rt: &R, alloc: Global, check: Check) -> anyhow::Result<Checked> {
    let Check {
        apex,
        mut stream,
        key,
        copy,
        stop,
    } = check;
    let timers = ask_soa(rt, alloc, &mut stream, &key, &apex, &stop)?;
    if !copy.is_newer(timers.serial) {
        return Ok(Checked::Current(timers));
    }
    let records = ask_zone(rt, alloc, &mut stream, &key, &apex, &stop)?;
    judged(alloc, &apex, records.as_slice())
}

/// Checks a copy: what came of it, or why nothing did.
pub(crate) fn run<R: Clock>(rt: &R, alloc: Global, check: Check) -> Result<Checked, String> {
    match outcome(rt, alloc, check) {
        Ok(checked) => Ok(checked),
        Err(fault) => Err(text_of(alloc, &fault)),
    }
}

/// A fault as text; nothing if there is no memory.
fn text_of(alloc: Global, fault: &anyhow::Error) -> String {
    match format!(in alloc; "{fault:#}") {
        Ok(text) => text,
        Err(_) => String::new(alloc),
    }
}
