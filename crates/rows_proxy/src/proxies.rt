//! Rows of proxies that steps are taken with.

use crate::row_proxies::{CLIENT, UPSTREAM, next_cookies, next_network, next_proxy, next_secret};
use dns_fronts::{CachedFront, Network, ServerFront};
use dns_name::{Octets, OutOfMemory, SocketAddr};
use dns_proxy::{
    ClientMessage, ClientTransport, LookupEvent, Proxy, QueryOutcome, Started, WhenFull,
};
use dns_service::Settings;
use rows_table::{Calls, Row, RowError, Steps};

/// What a proxy leads to at steps.
pub(crate) struct Proxies;

impl Calls for Proxies {
    fn answer(&self, call: &str, row: &mut Row<'_>) -> Result<(), RowError> {
        match call {
            "proxy" => {
                let settings = Settings::new(row.alloc());
                let required = Vec::new(row.alloc());
                step_all(row, settings, required)
            }
            "cookie_proxy" => {
                let settings = next_cookies(row);
                let required = Vec::new(row.alloc());
                step_all(row, settings, required)
            }
            "network_proxy" => {
                let settings = next_secret(row);
                let required = next_network(row);
                step_all(row, settings, required)
            }
            _ => return Err(RowError::NoSuchCall),
        }
        Ok(())
    }
}

/// What a proxy of some settings and networks leads to at steps.
fn step_all(row: &mut Row<'_>, settings: Settings, required: Vec<Network>) {
    match next_proxy(row, settings, required) {
        Ok(proxy) => row.take_steps(";", &mut Stepped { proxy }),
        Err(fault) => row.fail(fault),
    }
}

/// A proxy that steps are taken with.
#[derive(Drop)]
struct Stepped {
    proxy: Proxy<ServerFront<CachedFront>>,
}

impl Steps for Stepped {
    /// A client's message, in a datagram, which may wait if the proxy is full, or over a connection; an event of the query at a place:
    /// a datagram, a message over a connection, that it was lost, or the time; or when a tick at a place is due.
    fn take_step(&mut self, step: &str, row: &mut Row<'_>) {
        match step {
            "datagram" => {
                began(
                    row,
                    &mut self.proxy,
                    ClientTransport::Datagram,
                    WhenFull::Fail,
                )
            }
            "waiting" => {
                began(
                    row,
                    &mut self.proxy,
                    ClientTransport::Datagram,
                    WhenFull::Wait,
                )
            }
            "message" => {
                let idle_timeout: u64 = row.number();
                let transport = ClientTransport::Connection { idle_timeout };
                began(row, &mut self.proxy, transport, WhenFull::Fail)
            }
            "due" => due(row, &self.proxy),
            _ => {
                let place: usize = row.number();
                match next_event(row, step) {
                    Some(event) => led(row, self.proxy.step(row.alloc(), place, &event)),
                    None => row.fail(RowError::NoSuchStep),
                }
            }
        }
    }
}

/// How a message of a client starts, by the next words: the client's number, the moment, the seconds, the identifier for the
/// upstream, and the octets.
fn began(
    row: &mut Row<'_>,
    proxy: &mut Proxy<ServerFront<CachedFront>>,
    transport: ClientTransport,
    when_full: WhenFull,
) {
    let client: u64 = row.number();
    let at: u64 = row.number();
    let secs: u64 = row.number();
    let id: u16 = row.number();
    let octets = Octets::from_vec(row.vector());
    let came = ClientMessage {
        client,
        addr: CLIENT,
        transport,
        at,
        secs,
        octets,
    };
    match proxy.begin(row.alloc(), &came, UPSTREAM, id, when_full) {
        Ok(Started::Sent(octets)) => sent(row, "sent", octets),
        Ok(Started::Short) => row.say("short"),
        Ok(Started::Full) => row.say("full"),
        Ok(Started::Asks { place, octets }) => {
            row.say("asks");
            row.show(&place);
            row.hexadecimal(octets.as_slice())
        }
        Err(_) => row.fail(RowError::OutOfMemory),
    }
}

/// When a tick at the place of the next word is due.
fn due(row: &mut Row<'_>, proxy: &Proxy<ServerFront<CachedFront>>) {
    let place: usize = row.number();
    match proxy.deadline(place) {
        Some(at) => row.show(&at),
        None => row.say("never"),
    }
}

/// The event of a step's name, by the next words.
fn next_event(row: &mut Row<'_>, step: &str) -> Option<LookupEvent> {
    match step {
        "arrived" => {
            let ip = row.address();
            let port: u16 = row.number();
            let at: u64 = row.number();
            let octets = Octets::from_vec(row.vector());
            let from = SocketAddr { ip, port };
            Some(LookupEvent::Datagram { from, at, octets })
        }
        "frame" => {
            let at: u64 = row.number();
            let octets = Octets::from_vec(row.vector());
            Some(LookupEvent::Frame { at, octets })
        }
        "lost" => Some(LookupEvent::Lost),
        "tick" => {
            let at: u64 = row.number();
            Some(LookupEvent::Tick { at })
        }
        _ => None,
    }
}

/// What an event leads to.
fn led(row: &mut Row<'_>, outcome: Result<QueryOutcome, OutOfMemory>) {
    match outcome {
        Ok(QueryOutcome::Nothing) => row.say("nothing"),
        Ok(QueryOutcome::Send(octets)) => sent(row, "send", Some(octets)),
        Ok(QueryOutcome::Connect(octets)) => sent(row, "connect", Some(octets)),
        Ok(QueryOutcome::Reply(octets)) => sent(row, "reply", octets),
        Err(_) => row.fail(RowError::OutOfMemory),
    }
}

/// Octets that are sent, if there are some, after a word.
fn sent(row: &mut Row<'_>, word: &str, octets: Option<Octets>) {
    row.say(word);
    if let Some(octets) = octets {
        row.hexadecimal(octets.as_slice())
    }
}
