//! The lines of events and of looks.

ghost use Rattle.std.specs.Prelude.{◌≡◌};
ghost use Rattle.dns_trace.specs.Reading.{GivesLine};
ghost use Rattle.dns_trace.specs.EventLines.{moment_of, event_of, socket_addr_of, datagram_line, turn_line, offer_line, piece_line, write_line, bare_line, wide_event_of, last_budget, reconfigure_line, named_line, event_line, step_line};

use crate::budget_line::{Budget, budget_values, with_budget};
use crate::dgram_line::dgram_values;
use crate::reason::{LineError, Reason};
use crate::stream_line::stream_values;
use crate::values::{addr, num, octets, port};
use crate::words::Words;
use dns_events::{Event, EventKind, Step};
use dns_name::SocketAddr;
use std::alloc::Global;

/// The moment and the seconds of a line.
#[tactic(auto, unfolding(crate::specs::EventLines::moment_of))]
fn moment(words: &Words) -> Result<(u64, u64), Reason>
    ensures { result ≡ moment_of words.now }
{
    let at = num(words.word(1))?;
    let secs = num(words.word(2))?;
    Ok((at, secs))
}

/// An event of this kind, at the moment, the seconds and of the client of a line.
#[tactic(auto, unfolding(crate::specs::EventLines::event_of))]
fn event(words: &Words, kind: EventKind) -> Result<Event, Reason>
    ensures { result ≡ event_of words.now kind }
{
    let (at, secs) = moment(words)?;
    let client = num(words.word(3))?;
    Ok(Event {
        at,
        secs,
        client,
        kind,
    })
}

/// The address and the port after the client of a line.
#[tactic(auto, unfolding(crate::specs::EventLines::socket_addr_of))]
fn socket_addr(alloc: Global, words: &Words) -> Result<SocketAddr, LineError>
    ensures { GivesLine (λ a. a) result (socket_addr_of words.now) }
{
    let ip = addr(alloc, words.word(4))?;
    let port = port(words.word(5))?;
    Ok(SocketAddr { ip, port })
}

/// The event of a line `datagram AT SECS CLIENT ADDR PORT HEX`. The first word is not looked at.
#[tactic(auto, unfolding(crate::specs::EventLines::datagram_line))]
fn read_datagram(alloc: Global, words: &Words) -> Result<Event, LineError>
    ensures { GivesLine (λ e. e) result (datagram_line words.now) }
{
    if words.len() != 7 {
        return Err(LineError::Refused(Reason::Count));
    }
    let addr = socket_addr(alloc, words)?;
    let octets = octets(alloc, words.word(6))?;
    Ok(event(words, EventKind::Datagram { addr, octets })?)
}

/// The event of a line `turn AT SECS CLIENT REQUEST`. The first word is not looked at.
#[tactic(auto, unfolding(crate::specs::EventLines::turn_line))]
fn read_turn(words: &Words) -> Result<Event, LineError>
    ensures { GivesLine (λ e. e) result (turn_line words.now) }
{
    if words.len() != 5 {
        return Err(LineError::Refused(Reason::Count));
    }
    let request = num(words.word(4))?;
    Ok(event(words, EventKind::Turn { request })?)
}

/// The event of a line `offer AT SECS CLIENT ADDR PORT`. The first word is not looked at.
#[tactic(auto, unfolding(crate::specs::EventLines::offer_line))]
fn read_offer(alloc: Global, words: &Words) -> Result<Event, LineError>
    ensures { GivesLine (λ e. e) result (offer_line words.now) }
{
    if words.len() != 6 {
        return Err(LineError::Refused(Reason::Count));
    }
    let addr = socket_addr(alloc, words)?;
    Ok(event(words, EventKind::Offer { addr })?)
}

/// The event of a line `piece AT SECS CLIENT HEX`. The first word is not looked at.
#[tactic(auto, unfolding(crate::specs::EventLines::piece_line))]
fn read_piece(alloc: Global, words: &Words) -> Result<Event, LineError>
    ensures { GivesLine (λ e. e) result (piece_line words.now) }
{
    if words.len() != 5 {
        return Err(LineError::Refused(Reason::Count));
    }
    let octets = octets(alloc, words.word(4))?;
    Ok(event(words, EventKind::Piece(octets))?)
}

/// The event of a line `write AT SECS CLIENT TOOK`. The first word is not looked at.
#[tactic(auto, unfolding(crate::specs::EventLines::write_line))]
fn read_write(words: &Words) -> Result<Event, LineError>
    ensures { GivesLine (λ e. e) result (write_line words.now) }
{
    if words.len() != 5 {
        return Err(LineError::Refused(Reason::Count));
    }
    let took = num(words.word(4))?;
    Ok(event(words, EventKind::Write { took })?)
}

/// The event of a line of a name and `AT SECS CLIENT`. The first word is not looked at.
#[tactic(auto, unfolding(crate::specs::EventLines::bare_line))]
fn read_bare(words: &Words, kind: EventKind) -> Result<Event, LineError>
    ensures { GivesLine (λ e. e) result (bare_line words.now kind) }
{
    if words.len() != 4 {
        return Err(LineError::Refused(Reason::Count));
    }
    Ok(event(words, kind)?)
}

/// An event that all clients hear, at the moment and the seconds of a line.
#[tactic(auto, unfolding(crate::specs::EventLines::wide_event_of))]
fn wide_event(words: &Words, kind: EventKind) -> Result<Event, Reason>
    ensures { result ≡ wide_event_of words.now kind }
{
    let (at, secs) = moment(words)?;
    Ok(Event {
        at,
        secs,
        client: 0,
        kind,
    })
}

/// The budget `BUDGET WINDOW` that the two last words of twelve say, which ten words lack.
#[tactic(auto, unfolding(crate::specs::EventLines::last_budget))]
fn last_budget(words: &Words) -> Result<Option<Budget>, Reason>
    ensures { result ≡ last_budget words.now }
{
    if words.len() != 12 {
        return Ok(None);
    }
    let budget = budget_values(words, 10)?;
    Ok(Some(budget))
}

/// The event of a line `reconfigure AT SECS SIZE WRITE IDLE WRITE QUEUE LIMIT yes|no`, with the two last words
/// `BUDGET WINDOW` or without. The first word is not looked at.
#[tactic(auto, unfolding(crate::specs::EventLines::reconfigure_line))]
fn read_reconfigure(words: &Words) -> Result<Event, Reason>
    ensures { result ≡ reconfigure_line words.now }
{
    if words.len() != 10 && words.len() != 12 {
        return Err(Reason::Count);
    }
    let dgram = dgram_values(words, 3)?;
    let stream = stream_values(words, 5)?;
    let stream = with_budget(last_budget(words)?, stream);
    wide_event(words, EventKind::Reconfigure { dgram, stream })
}

/// The event of a line of a name and `AT SECS CLIENT`: `end`, `fault`, `close` or `tick`; or one that all clients hear:
/// `reconfigure AT SECS SIZE WRITE IDLE WRITE QUEUE LIMIT yes|no`, and then `BUDGET WINDOW` or nothing; or `shutdown AT SECS`.
#[tactic(auto, unfolding(crate::specs::EventLines::shutdown_line))]
fn read_named(words: &Words) -> Result<Event, LineError>
    ensures { GivesLine (λ e. e) result (named_line words.now) }
{
    let name = words.word(0);
    if name == b"end".as_slice() {
        return read_bare(words, EventKind::End);
    }
    if name == b"fault".as_slice() {
        return read_bare(words, EventKind::Fault);
    }
    if name == b"close".as_slice() {
        return read_bare(words, EventKind::Close);
    }
    if name == b"tick".as_slice() {
        return read_bare(words, EventKind::Tick);
    }
    if name == b"reconfigure".as_slice() {
        return Ok(read_reconfigure(words)?);
    }
    if name == b"shutdown".as_slice() {
        if words.len() != 3 {
            return Err(LineError::Refused(Reason::Count));
        }
        return Ok(wide_event(words, EventKind::Shutdown)?);
    }
    Err(LineError::Refused(Reason::Word))
}

/// The event of a line: `datagram AT SECS CLIENT ADDR PORT HEX`, `turn AT SECS CLIENT REQUEST`,
/// `offer AT SECS CLIENT ADDR PORT`, `piece AT SECS CLIENT HEX`, `write AT SECS CLIENT TOOK`; `end`, `fault`, `close`, `tick`
/// or `release` and `AT SECS CLIENT`; or one that all clients hear.
pub fn read_event(alloc: Global, words: &Words) -> Result<Event, LineError>
    ensures { GivesLine (λ e. e) result (event_line words.now) }
{
    let name = words.word(0);
    if name == b"datagram".as_slice() {
        return read_datagram(alloc, words);
    }
    if name == b"turn".as_slice() {
        return read_turn(words);
    }
    if name == b"offer".as_slice() {
        return read_offer(alloc, words);
    }
    if name == b"piece".as_slice() {
        return read_piece(alloc, words);
    }
    if name == b"write".as_slice() {
        return read_write(words);
    }
    if name == b"release".as_slice() {
        return read_bare(words, EventKind::Release);
    }
    read_named(words)
}

/// The step of a line: `look AT SECS CLIENT`, or the line of an event.
#[tactic(auto, unfolding(crate::specs::EventLines::step_line, crate::specs::EventLines::look_line))]
pub fn read_step(alloc: Global, words: &Words) -> Result<Step, LineError>
    ensures { GivesLine (λ s. s) result (step_line words.now) }
{
    if words.word(0) != b"look".as_slice() {
        let event = read_event(alloc, words)?;
        return Ok(Step::Own(event));
    }
    if words.len() == 4 {
        let (at, secs) = moment(words)?;
        let client = num(words.word(3))?;
        return Ok(Step::Look { at, secs, client });
    }
    Err(LineError::Refused(Reason::Count))
}
