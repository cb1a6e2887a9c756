//! The lines of settings and of events, as they are written.

ghost use Rattle.std.specs.Prelude.{◌≡◌, ◌++◌, ◌∷◌, [], None, OnErr, OnOk, codes, decimal, flat_map, map};
ghost use Rattle.std.specs.Io.{StartsWith};
ghost use Rattle.std.specs.Option.{option_map};
ghost use Rattle.hex.specs.Hex.{encode_lower};
ghost use Rattle.dns_trace.specs.Spelling.{line_of_words, octets_word, spaced, yes_no};
ghost use Rattle.dns_trace.specs.Trace.{addr_words, bare_name, budget_words, client_words, config_lines, deny_words, dgram_words, event_text, secret_lines, settings_text, stream_words, wide_words};

use crate::text_writer::TextWriter;
use crate::trace_settings::TraceSettings;
use dns_events::{ConnectionConfig, DgramConfig, Event, EventKind, StreamConfig};
use dns_name::{IpAddr, Octets, OutOfMemory, SocketAddr};

/// A size as a number of 64 bits.
fn long_size(size: Option<u16>) -> Option<u64>
    ensures { result ≡ size }
{
    match size {
        Some(size) => Some(size as u64),
        None => None,
    }
}

/// A count as a number of 64 bits.
fn long_count(count: Option<u32>) -> Option<u64>
    ensures { result ≡ count }
{
    match count {
        Some(count) => Some(count as u64),
        None => None,
    }
}

/// `SIZE WRITE`.
#[tactic(auto, using(crate::proofs::Starts::starts))]
fn dgram_words(text: &mut TextWriter, dgram: &DgramConfig) -> Result<(), OutOfMemory>
    ensures ok { OnOk result (text.new ≡ text.old ++ spaced (dgram_words dgram.now)) }
    ensures err { OnErr result (StartsWith text.new text.old) }
{
    text.number_or_none(long_size(dgram.max_response_size()))?;
    text.number(dgram.write_timeout())
}

/// `IDLE WRITE QUEUE LIMIT yes|no`.
#[tactic(auto, using(crate::proofs::Starts::starts))]
fn stream_words(text: &mut TextWriter, stream: &StreamConfig) -> Result<(), OutOfMemory>
    ensures ok { OnOk result (text.new ≡ text.old ++ spaced (stream_words stream.now)) }
    ensures err { OnErr result (StartsWith text.new text.old) }
{
    let connection = stream.connection_config();
    text.number(connection.idle_timeout())?;
    text.number(connection.response_write_timeout())?;
    text.number(connection.max_queued_responses() as u64)?;
    text.number(stream.max_concurrent_connections() as u64)?;
    text.yes_no(stream.accept_connections_at_max())
}

/// `BUDGET WINDOW`.
#[tactic(auto, using(crate::proofs::Starts::starts))]
fn budget_words(text: &mut TextWriter, connection: &ConnectionConfig) -> Result<(), OutOfMemory>
    ensures ok { OnOk result (text.new ≡ text.old ++ spaced (budget_words connection.now)) }
    ensures err { OnErr result (StartsWith text.new text.old) }
{
    text.number_or_none(long_count(connection.response_budget()))?;
    text.number(connection.budget_window())
}

/// `ADDR PORT`.
#[tactic(auto, using(crate::proofs::Starts::starts))]
fn addr_words(text: &mut TextWriter, addr: &SocketAddr) -> Result<(), OutOfMemory>
    ensures ok { OnOk result (text.new ≡ text.old ++ spaced (addr_words addr.now)) }
    ensures err { OnErr result (StartsWith text.new text.old) }
{
    text.address(&addr.ip)?;
    text.number(u64::from(addr.port))
}

/// A name and `AT SECS`.
#[tactic(auto, using(crate::proofs::Starts::starts))]
fn begin_wide(text: &mut TextWriter, name: &str, event: &Event) -> Result<(), OutOfMemory>
    ensures ok { OnOk result (text.new ≡ text.old ++ name.now ++ spaced (decimal event.now.at ∷ decimal event.now.secs ∷ [])) }
    ensures err { OnErr result (StartsWith text.new text.old) }
{
    text.name(name)?;
    text.number(event.at)?;
    text.number(event.secs)
}

/// A name and `AT SECS CLIENT`.
#[tactic(auto, using(crate::proofs::Starts::starts))]
fn begin(text: &mut TextWriter, name: &str, event: &Event) -> Result<(), OutOfMemory>
    ensures ok { OnOk result (text.new ≡ text.old ++ name.now
        ++ spaced (decimal event.now.at ∷ decimal event.now.secs ∷ decimal event.now.client ∷ [])) }
    ensures err { OnErr result (StartsWith text.new text.old) }
{
    begin_wide(text, name, event)?;
    text.number(event.client)
}

/// The line of a name and `AT SECS CLIENT`.
#[tactic(auto, using(crate::proofs::Starts::starts))]
fn bare_line(text: &mut TextWriter, name: &str, event: &Event) -> Result<(), OutOfMemory>
    ensures ok { OnOk result (text.new ≡ text.old ++ line_of_words (client_words name.now event.now [])) }
    ensures err { OnErr result (StartsWith text.new text.old) }
{
    begin(text, name, event)?;
    text.end_line()
}

/// The line of a name, `AT SECS CLIENT` and a number.
#[tactic(auto, using(crate::proofs::Starts::starts))]
fn number_line(
    text: &mut TextWriter,
    name: &str,
    event: &Event,
    number: u64,
) -> Result<(), OutOfMemory>
    ensures ok { OnOk result (text.new ≡ text.old ++ line_of_words (client_words name.now event.now (decimal number ∷ []))) }
    ensures err { OnErr result (StartsWith text.new text.old) }
{
    begin(text, name, event)?;
    text.number(number)?;
    text.end_line()
}

/// The line of a piece.
#[tactic(auto, using(crate::proofs::Starts::starts))]
fn piece_line(text: &mut TextWriter, event: &Event, octets: &Octets) -> Result<(), OutOfMemory>
    ensures ok { OnOk result (text.new ≡ text.old ++ line_of_words (client_words (codes "piece") event.now (octets_word octets.now ∷ []))) }
    ensures err { OnErr result (StartsWith text.new text.old) }
{
    begin(text, "piece", event)?;
    text.octets(octets.as_slice())?;
    text.end_line()
}

/// The line of an offer.
#[tactic(auto, using(crate::proofs::Starts::starts))]
fn offer_line(text: &mut TextWriter, event: &Event, addr: &SocketAddr) -> Result<(), OutOfMemory>
    ensures ok { OnOk result (text.new ≡ text.old ++ line_of_words (client_words (codes "offer") event.now (addr_words addr.now))) }
    ensures err { OnErr result (StartsWith text.new text.old) }
{
    begin(text, "offer", event)?;
    addr_words(text, addr)?;
    text.end_line()
}

/// The line of a datagram.
#[tactic(auto, using(crate::proofs::Starts::starts))]
fn datagram_line(
    text: &mut TextWriter,
    event: &Event,
    addr: &SocketAddr,
    octets: &Octets,
) -> Result<(), OutOfMemory>
    ensures ok { OnOk result (text.new ≡ text.old
        ++ line_of_words (client_words (codes "datagram") event.now (addr_words addr.now ++ octets_word octets.now ∷ []))) }
    ensures err { OnErr result (StartsWith text.new text.old) }
{
    begin(text, "datagram", event)?;
    addr_words(text, addr)?;
    text.octets(octets.as_slice())?;
    text.end_line()
}

/// `SIZE WRITE IDLE WRITE QUEUE LIMIT yes|no BUDGET WINDOW`.
#[tactic(auto, using(crate::proofs::Starts::starts))]
fn config_words(
    text: &mut TextWriter,
    dgram: &DgramConfig,
    stream: &StreamConfig,
) -> Result<(), OutOfMemory>
    ensures ok { OnOk result (text.new ≡ text.old
        ++ spaced (dgram_words dgram.now ++ (stream_words stream.now ++ budget_words stream.now.connection_config))) }
    ensures err { OnErr result (StartsWith text.new text.old) }
{
    dgram_words(text, dgram)?;
    stream_words(text, stream)?;
    budget_words(text, &stream.connection_config())
}

/// The line of new configurations.
#[tactic(auto, using(crate::proofs::Starts::starts))]
fn reconfigure_line(
    text: &mut TextWriter,
    event: &Event,
    dgram: &DgramConfig,
    stream: &StreamConfig,
) -> Result<(), OutOfMemory>
    ensures ok { OnOk result (text.new ≡ text.old
        ++ line_of_words (wide_words (codes "reconfigure") event.now
        (dgram_words dgram.now ++ (stream_words stream.now ++ budget_words stream.now.connection_config)))) }
    ensures err { OnErr result (StartsWith text.new text.old) }
{
    begin_wide(text, "reconfigure", event)?;
    config_words(text, dgram, stream)?;
    text.end_line()
}

/// The line of a shutdown.
#[tactic(auto, using(crate::proofs::Starts::starts))]
fn shutdown_line(text: &mut TextWriter, event: &Event) -> Result<(), OutOfMemory>
    ensures ok { OnOk result (text.new ≡ text.old ++ line_of_words (wide_words (codes "shutdown") event.now [])) }
    ensures err { OnErr result (StartsWith text.new text.old) }
{
    begin_wide(text, "shutdown", event)?;
    text.end_line()
}

/// The name of a line that says no more than it and `AT SECS CLIENT`.
fn bare_name(kind: &EventKind) -> Option<&'static str>
    ensures { option_map (λ name. name.now) result ≡ bare_name kind.now }
{
    match kind {
        EventKind::End => Some("end"),
        EventKind::Fault => Some("fault"),
        EventKind::Close => Some("close"),
        EventKind::Tick => Some("tick"),
        EventKind::Release => Some("release"),
        _ => None,
    }
}

/// The line of an event that says more.
#[tactic(auto, unfolding(crate::specs::Trace::event_text))]
fn full_line(text: &mut TextWriter, event: &Event) -> Result<(), OutOfMemory>
    requires { bare_name event.now.kind ≡ None }
    ensures ok { OnOk result (text.new ≡ text.old ++ event_text event.now) }
    ensures err { OnErr result (StartsWith text.new text.old) }
{
    match &event.kind {
        EventKind::Datagram { addr, octets } => datagram_line(text, event, addr, octets),
        EventKind::Turn { request } => number_line(text, "turn", event, *request),
        EventKind::Offer { addr } => offer_line(text, event, addr),
        EventKind::Piece(octets) => piece_line(text, event, octets),
        EventKind::Write { took } => number_line(text, "write", event, *took),
        EventKind::Reconfigure { dgram, stream } => reconfigure_line(text, event, dgram, stream),
        EventKind::Shutdown => shutdown_line(text, event),
        _ => unreachable!(),
    }
}

/// The line of an event. After memory ran out the text begins with what it was.
#[tactic(auto, using(crate::proofs::Written::bare_text))]
pub fn write_event(text: &mut TextWriter, event: &Event) -> Result<(), OutOfMemory>
    ensures ok { OnOk result (text.new ≡ text.old ++ event_text event.now) }
    ensures err { OnErr result (StartsWith text.new text.old) }
{
    match bare_name(&event.kind) {
        Some(name) => bare_line(text, name, event),
        None => full_line(text, event),
    }
}

/// The line of a name and `yes|no`.
#[tactic(auto, using(crate::proofs::Starts::starts))]
fn yes_no_line(text: &mut TextWriter, name: &str, yes: bool) -> Result<(), OutOfMemory>
    ensures ok { OnOk result (text.new ≡ text.old ++ line_of_words (name.now ∷ yes_no yes ∷ [])) }
    ensures err { OnErr result (StartsWith text.new text.old) }
{
    text.name(name)?;
    text.yes_no(yes)?;
    text.end_line()
}

/// The line of a secret, if there is one.
#[tactic(auto, using(crate::proofs::Starts::starts))]
fn secret_line(text: &mut TextWriter, secret: Option<[u8; 16]>) -> Result<(), OutOfMemory>
    ensures ok { OnOk result (text.new ≡ text.old ++ flat_map line_of_words (secret_lines secret)) }
    ensures err { OnErr result (StartsWith text.new text.old) }
{
    let Some(secret) = secret else {
        return Ok(());
    };
    text.name("secret")?;
    text.hex(secret.as_slice())?;
    text.end_line()
}

/// The line of an address that is denied.
#[tactic(auto, using(crate::proofs::Starts::starts))]
fn deny_line(text: &mut TextWriter, address: &IpAddr) -> Result<(), OutOfMemory>
    ensures ok { OnOk result (text.new ≡ text.old ++ line_of_words (deny_words address.now)) }
    ensures err { OnErr result (StartsWith text.new text.old) }
{
    text.name("deny")?;
    text.address(address)?;
    text.end_line()
}

/// The lines of the addresses that are denied.
#[tactic(auto, using(crate::proofs::Starts::starts_later, crate::proofs::Starts::starts_on))]
fn deny_lines(text: &mut TextWriter, denied: &[IpAddr]) -> Result<(), OutOfMemory>
    ensures ok { OnOk result (text.new ≡ text.old ++ flat_map line_of_words (map deny_words denied.now)) }
    ensures err { OnErr result (StartsWith text.new text.old) }
{
    for address in denied {
        deny_line(text, address)?;
    }
    Ok(())
}

/// The line of the configuration of the datagram server.
#[tactic(auto, using(crate::proofs::Starts::starts))]
fn dgram_line(text: &mut TextWriter, dgram: &DgramConfig) -> Result<(), OutOfMemory>
    ensures ok { OnOk result (text.new ≡ text.old ++ line_of_words (codes "dgram" ∷ dgram_words dgram.now)) }
    ensures err { OnErr result (StartsWith text.new text.old) }
{
    text.name("dgram")?;
    dgram_words(text, dgram)?;
    text.end_line()
}

/// The line of the configuration of the stream server.
#[tactic(auto, using(crate::proofs::Starts::starts))]
fn stream_line(text: &mut TextWriter, stream: &StreamConfig) -> Result<(), OutOfMemory>
    ensures ok { OnOk result (text.new ≡ text.old ++ line_of_words (codes "stream" ∷ stream_words stream.now)) }
    ensures err { OnErr result (StartsWith text.new text.old) }
{
    text.name("stream")?;
    stream_words(text, stream)?;
    text.end_line()
}

/// The line of the budget of each connection.
#[tactic(auto, using(crate::proofs::Starts::starts))]
fn budget_line(text: &mut TextWriter, connection: &ConnectionConfig) -> Result<(), OutOfMemory>
    ensures ok { OnOk result (text.new ≡ text.old ++ line_of_words (codes "budget" ∷ budget_words connection.now)) }
    ensures err { OnErr result (StartsWith text.new text.old) }
{
    text.name("budget")?;
    budget_words(text, connection)?;
    text.end_line()
}

/// The lines of the configurations.
#[tactic(auto, using(crate::proofs::Starts::starts))]
fn config_lines(text: &mut TextWriter, settings: &TraceSettings) -> Result<(), OutOfMemory>
    ensures ok { OnOk result (text.new ≡ text.old ++ flat_map line_of_words (config_lines settings.now)) }
    ensures err { OnErr result (StartsWith text.new text.old) }
{
    dgram_line(text, &settings.dgram)?;
    stream_line(text, &settings.stream)?;
    budget_line(text, &settings.stream.connection_config())
}

/// The lines of settings. After memory ran out the text begins with what it was.
#[tactic(auto, using(crate::proofs::Starts::starts), unfolding(crate::specs::Trace::settings_text))]
pub fn write_settings(text: &mut TextWriter, settings: &TraceSettings) -> Result<(), OutOfMemory>
    ensures ok { OnOk result (text.new ≡ text.old ++ settings_text settings.now) }
    ensures err { OnErr result (StartsWith text.new text.old) }
{
    yes_no_line(text, "strict", settings.strict)?;
    yes_no_line(text, "edns", settings.edns)?;
    secret_line(text, settings.cookies)?;
    deny_lines(text, settings.denied.as_slice())?;
    config_lines(text, settings)
}
