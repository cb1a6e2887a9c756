//! What is counted while the server runs, and its lines.

ghost use Rattle.std.specs.Prelude.{◌≡◌, ◌++◌, IfOk, OnOk, map, string_bytes};
ghost use Rattle.std.specs.Arc.{arc_value};
ghost use Rattle.dns_listener.specs.Counting.{Reports, code_names, code_of, limited_line, other_lines, reply_line, reply_lines};

use crate::layers::Tally;
use dns_base::Rcode;
use dns_limited_sock::{LimitNote, Limiting};
use dns_name::OutOfMemory;
use dns_query_sock::QueryCounts;
use dns_reply_counts::ReplyCounts;
use dns_socket_addr::SocketAddrText;
use dns_transfer_notes::{TransferNews, TransferNote, TransferNotes};
use log::{Log, info, warn};
use std::alloc::{AllocError, Global};
use std::fmt::Write;
use std::sync::{Arc, Wait};

/// How many notes of transfers are logged at a time.
const MOST_NOTES: usize = 256;

/// What counts replies, connections, dropped responses and transfers, and what limits replies, at all listeners.
#[derive(Drop)]
pub struct Counters {
    replies: Arc<ReplyCounts>,
    queries: Arc<QueryCounts>,
    notes: Arc<TransferNotes>,
    limiting: Arc<Limiting>,
}

/// How many replies had a response code, over each transport.
#[derive(Clone, Copy)]
pub struct ReplyNumbers {
    /// The name of the code.
    pub code: &'static str,
    pub udp: u64,
    pub tcp: u64,
}

/// What was counted up to a moment.
#[derive(Clone, Copy)]
pub struct Numbers {
    pub replies: [ReplyNumbers; 8],
    /// Connections that were accepted.
    pub connections: u64,
    /// Responses that were dropped.
    pub dropped: u64,
    /// Transfers that began.
    pub begun: u64,
    /// Transfers that were refused.
    pub refused: u64,
    /// Replies over UDP that were sent truncated, as too many went to their network.
    pub truncated: u64,
    /// Replies over UDP that weren't sent for that.
    pub limited: u64,
}

/// How many replies had a response code, which has this name.
fn reply_numbers(counts: &ReplyCounts, code: &'static str, number: Rcode) -> ReplyNumbers
    ensures { result.code.now ≡ code.now }
{
    ReplyNumbers {
        code,
        udp: counts.number(false, number),
        tcp: counts.number(true, number),
    }
}

/// How many replies over a transport had a response code without a line of its own.
fn others(counts: &ReplyCounts, is_stream: bool) -> u64 {
    let codes = [
        Rcode::YXDOMAIN,
        Rcode::YXRRSET,
        Rcode::NXRRSET,
        Rcode::NOTZONE,
        Rcode::DSOTYPENI,
    ];
    let mut number = 0u64;
    for code in codes {
        number = number.saturating_add(counts.number(is_stream, code));
    }
    number
}

/// How many replies had each response code that is counted, by the four bits of the header, and how many had another one.
fn all_replies(counts: &ReplyCounts) -> [ReplyNumbers; 8]
    ensures { map code_of result ≡ code_names }
{
    [
        reply_numbers(counts, "NOERROR", Rcode::NOERROR),
        reply_numbers(counts, "FORMERR", Rcode::FORMERR),
        reply_numbers(counts, "SERVFAIL", Rcode::SERVFAIL),
        reply_numbers(counts, "NXDOMAIN", Rcode::NXDOMAIN),
        reply_numbers(counts, "NOTIMP", Rcode::NOTIMP),
        reply_numbers(counts, "REFUSED", Rcode::REFUSED),
        reply_numbers(counts, "NOTAUTH", Rcode::NOTAUTH),
        ReplyNumbers {
            code: "other",
            udp: others(counts, false),
            tcp: others(counts, true),
        },
    ]
}

/// Appends the line of a response code.
fn push_reply(text: &mut String, reply: &ReplyNumbers) -> Result<(), AllocError>
    ensures { OnOk result (string_bytes text.new ≡ string_bytes text.old ++ reply_line reply.now) }
{
    let ReplyNumbers { code, udp, tcp } = *reply;
    writeln!(text, "replies {code} {udp} over UDP, {tcp} over TCP")
}

/// Appends a line for each response code.
fn push_replies(text: &mut String, replies: &[ReplyNumbers]) -> Result<(), AllocError>
    ensures { OnOk result (string_bytes text.new ≡ string_bytes text.old ++ reply_lines replies.now) }
{
    'each: for reply in replies {
        push_reply(text, reply)?;
    }
    Ok(())
}

/// Appends a line for each other count.
fn push_others(text: &mut String, numbers: &Numbers) -> Result<(), AllocError>
    ensures { OnOk result (string_bytes text.new ≡ string_bytes text.old ++ other_lines numbers.now) }
{
    let Numbers {
        connections,
        dropped,
        begun,
        refused,
        ..
    } = *numbers;
    writeln!(text, "connections {connections} accepted")?;
    writeln!(text, "responses {dropped} dropped")?;
    writeln!(text, "transfers {begun} begun, {refused} refused")
}

/// Appends the line of replies that were limited.
fn push_limited(text: &mut String, numbers: &Numbers) -> Result<(), AllocError>
    ensures { OnOk result (string_bytes text.new ≡ string_bytes text.old ++ limited_line numbers.now) }
{
    let Numbers {
        truncated,
        limited,
        ..
    } = *numbers;
    writeln!(
        text,
        "limited replies {truncated} truncated, {limited} not sent"
    )
}

/// Logs what became of a question for a transfer, or that a NOTIFY or an SOA query was refused.
fn log_note<R: Log>(rt: &R, note: &TransferNote) {
    let client = SocketAddrText(note.client);
    match note.news {
        TransferNews::Begun => info!(rt; "{}: a transfer to {client} begins", note.apex),
        TransferNews::Ended => info!(rt; "{}: a transfer to {client} has ended", note.apex),
        TransferNews::BrokenOff => {
            warn!(rt; "{}: a transfer to {client} was broken off", note.apex)
        }
        TransferNews::Refused(code) => {
            warn!(rt; "{}: a transfer to {client} is refused with code {}", note.apex, code.to_int())
        }
        TransferNews::NotifyRefused(code) => {
            warn!(rt; "{}: a NOTIFY from {client} is refused with code {}", note.apex, code.to_int())
        }
        TransferNews::SoaRefused => {
            warn!(rt; "{}: an SOA query from {client} isn't taken: its signature is wrong", note.apex)
        }
    }
}

/// Logs that replies to a network are limited.
fn log_limit<R: Log>(rt: &R, note: &LimitNote) {
    let network = note.address;
    let bits = note.bits;
    warn!(rt; "replies to {network}/{bits} are limited");
}

impl Counters {
    /// Nothing was counted yet, and nothing is limited.
    pub fn new(alloc: Global) -> Result<Counters, OutOfMemory> {
        Ok(Counters {
            replies: Arc::new(alloc, ReplyCounts::new(alloc)?)?,
            queries: Arc::new(alloc, QueryCounts::new())?,
            notes: Arc::new(alloc, TransferNotes::new(alloc)?)?,
            limiting: Arc::new(alloc, Limiting::new(alloc)?)?,
        })
    }

    /// What counts at the sockets.
    pub fn queries(&self) -> &Arc<QueryCounts>
        ensures { result.now ≡ self.now.queries }
    {
        &self.queries
    }

    /// What limits replies at the sockets.
    pub fn limiting(&self) -> &Arc<Limiting>
        ensures { result.now ≡ self.now.limiting }
    {
        &self.limiting
    }

    /// What counts the replies of a listener.
    pub fn tally(&self) -> Result<Tally, OutOfMemory>
        ensures counts { IfOk result (λ t. arc_value t.counts ≡ arc_value self.now.replies) }
        ensures notes { IfOk result (λ t. arc_value t.notes ≡ arc_value self.now.notes) }
    {
        Ok(Tally {
            counts: Arc::try_clone(&self.replies)?,
            notes: Arc::try_clone(&self.notes)?,
        })
    }

    /// Logs the transfers that were noted since.
    pub fn log_transfers<R: Wait + Log>(&self, rt: &R) {
        for _ in 0..MOST_NOTES {
            match self.notes.next(rt) {
                Some(note) => log_note(rt, &note),
                None => return,
            }
        }
    }

    /// Logs the networks whose replies are limited, as they were noted since.
    pub fn log_limits<R: Wait + Log>(&self, rt: &R) {
        for _ in 0..MOST_NOTES {
            match self.limiting.next(rt) {
                Some(note) => log_limit(rt, &note),
                None => return,
            }
        }
    }

    /// What was counted so far.
    pub fn numbers(&self) -> Numbers
        ensures { map code_of result.replies ≡ code_names }
    {
        let limits = self.limiting.numbers();
        Numbers {
            replies: all_replies(&self.replies),
            connections: self.queries.connections(),
            dropped: self.queries.dropped(),
            begun: self.notes.begun(),
            refused: self.notes.refused(),
            truncated: limits.truncated,
            limited: limits.dropped,
        }
    }

    /// A line for each count.
    pub fn report(&self, alloc: Global) -> Result<String, AllocError>
        ensures { IfOk result (λ text. Reports (string_bytes text)) }
    {
        let numbers = self.numbers();
        let mut text = String::new(alloc);
        push_replies(&mut text, &numbers.replies)?;
        push_others(&mut text, &numbers)?;
        push_limited(&mut text, &numbers)?;
        Ok(text)
    }
}
