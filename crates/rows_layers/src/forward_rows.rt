//! Rows of a question that is asked of one upstream, and of forwarders.

use crate::router_rows::{Planned, asked_at, next_transport};
use dns_base::Message;
use dns_forward::{Asking, AskingEvent, Forwarder, Forwarding, ask_all, led_to};
use dns_name::{Name, Octets};
use dns_route::{ClientTransportToSingleService, SendRequest, SingleService};
use dns_service::Polled;
use rows_table::{Row, RowError, Steps};

/// What a message is asked by.
#[derive(Clone, Copy)]
struct Terms {
    id: u16,
    tries: u8,
    timeout: u64,
    at: u64,
}

/// What a message is asked by, in the next words: an identifier, tries, a timeout and the moment of the first send.
fn next_terms(row: &mut Row<'_>) -> Terms {
    let id: u16 = row.number();
    let tries: u8 = row.number();
    let timeout: u64 = row.number();
    let at: u64 = row.number();
    Terms {
        id,
        tries,
        timeout,
        at,
    }
}

/// An asking of the message of the next word by the words after it.
fn next_asking(row: &mut Row<'_>) -> Result<Asking, RowError> {
    let message = Message::from_octets(row.vector()).or(Err(RowError::OutOfForm))?;
    let terms = next_terms(row);
    Asking::new(
        row.alloc(),
        message,
        terms.id,
        terms.tries,
        terms.timeout,
        terms.at,
    )
    .or(Err(RowError::OutOfMemory))
}

/// What an asking says at steps.
pub(crate) fn asking(row: &mut Row<'_>) {
    match next_asking(row) {
        Ok(asking) => row.take_steps(";", &mut Stepped { asking }),
        Err(fault) => row.fail(fault),
    }
}

/// An asking that steps are taken with.
#[derive(Drop)]
struct Stepped {
    asking: Asking,
}

impl Steps for Stepped {
    /// Says the octets, what is to be done at a moment, the answer, if it arrived, the deadline, or whether it has ended.
    fn take_step(&mut self, step: &str, row: &mut Row<'_>) {
        match step {
            "octets" => row.hexadecimal(self.asking.octets()),
            "tick" => {
                let at = row.number();
                row.debug(&self.asking.tick(at))
            }
            "arrived" => {
                let at = row.number();
                let octets = row.octets();
                match self.asking.arrived(row.alloc(), at, octets) {
                    Ok(Some(answer)) => row.hexadecimal(answer.as_slice()),
                    Ok(None) => row.say("none"),
                    Err(_) => row.fail(RowError::OutOfMemory),
                }
            }
            "deadline" => row.debug(&self.asking.deadline()),
            "ended" => row.whether(self.asking.has_ended()),
            _ => row.fail(RowError::OutOfForm),
        }
    }
}

/// What events lead to.
pub(crate) fn asked_all(row: &mut Row<'_>) {
    match next_asking(row) {
        Ok(asking) => all_of(row, asking),
        Err(fault) => row.fail(fault),
    }
}

/// What the events of the next words make of an asking: the message, the error, or `pending`.
fn all_of(row: &mut Row<'_>, asking: Asking) {
    let events = next_events(row);
    match ask_all(row.alloc(), asking, events.as_slice()) {
        Ok(outcomes) => match led_to(outcomes) {
            Polled::Ready(Ok(message)) => row.hexadecimal(message.as_slice()),
            Polled::Ready(Err(error)) => row.debug(&error),
            Polled::Pending => row.say("pending"),
        },
        Err(_) => row.fail(RowError::OutOfMemory),
    }
}

/// The events of the next word, which commas part: `tick:AT`, or `AT:OCTETS` for octets that arrive; `-` for none.
fn next_events(row: &mut Row<'_>) -> Vec<AskingEvent> {
    let mut events = Vec::new(row.alloc());
    for event in row.word().split(',') {
        if let Some((first, second)) = event.split_once(':') {
            let event = event_of(row, first, second);
            row.keep(events.push(event));
        }
    }
    events
}

/// The event of two words.
fn event_of(row: &mut Row<'_>, first: &str, second: &str) -> AskingEvent {
    if first == "tick" {
        return AskingEvent::Tick {
            at: row.number_of(second),
        };
    }
    let at = row.number_of(first);
    let octets = row.octets_of(second);
    AskingEvent::Arrived {
        at,
        octets: Octets::from_vec(row.copied(octets)),
    }
}

/// What a forwarder says at a turn, to which a transport was added under the name of the next word.
pub(crate) fn forwarder(row: &mut Row<'_>) {
    let name = row.word();
    let k = row.number();
    match next_transport(row) {
        Ok(conn) => match Box::new(row.alloc(), conn) {
            Ok(conn) => over_box(row, name, k, conn),
            Err(_) => row.fail(RowError::OutOfMemory),
        },
        Err(fault) => row.fail(fault),
    }
}

/// What a forwarder says at turn `k` over a transport in a box. The octets are those of its name's word.
fn over_box(row: &mut Row<'_>, name: &str, k: u64, conn: Box<dyn SendRequest + Send + Sync>) {
    let octets = row.octets_of(name);
    match Name::from_octets(row.copied(octets)) {
        Ok(name) => forwarded(row, name, k, conn),
        Err(_) => row.fail(RowError::OutOfForm),
    }
}

/// What a forwarder says at turn `k`, to which the transport was added under this name.
fn forwarded(row: &mut Row<'_>, name: Name, k: u64, conn: Box<dyn SendRequest + Send + Sync>) {
    let alloc = row.alloc();
    let mut forwarder = Forwarder::new(alloc);
    row.keep(forwarder.add(alloc, name, conn));
    asked_at(row, &forwarder, k)
}

/// A single service over a transport.
pub(crate) type Relay = ClientTransportToSingleService<Planned>;

/// What an empty forwarder to which transports of one type are added says at a turn: the next word has their count, and before
/// each is the name that it is added under.
pub(crate) fn forwarding(row: &mut Row<'_>, empty: Forwarding<Relay>) {
    let mut forwarding = empty;
    let count: u8 = row.number();
    for _ in 0..count {
        add_next(row, &mut forwarding);
    }
    let k = row.number();
    asked_at(row, &forwarding, k)
}

/// Adds the next transport under the name of the word before it.
fn add_next(row: &mut Row<'_>, forwarding: &mut Forwarding<Relay>) {
    let name = row.word();
    match next_transport(row) {
        Ok(conn) => add(
            row,
            forwarding,
            name,
            ClientTransportToSingleService::new(conn),
        ),
        Err(fault) => row.fail(fault),
    }
}

/// Adds a service under a name.
fn add<S: SingleService>(
    row: &mut Row<'_>,
    forwarding: &mut Forwarding<S>,
    name: &str,
    service: S,
) {
    let octets = row.octets_of(name);
    match Name::from_octets(row.copied(octets)) {
        Ok(name) => row.keep(forwarding.add_service(row.alloc(), name, service)),
        Err(_) => row.fail(RowError::OutOfForm),
    }
}
