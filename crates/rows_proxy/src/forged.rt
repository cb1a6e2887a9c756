//! A query that is sent many forged answers.

use crate::row_proxies::{CLIENT, UPSTREAM, next_proxy};
use dns_fronts::{CachedFront, ServerFront};
use dns_name::{Octets, SocketAddr};
use dns_proxy::{
    ClientMessage, ClientTransport, LookupEvent, Proxy, QueryOutcome, Started, WhenFull,
};
use dns_service::Settings;
use rows_table::{Calls, Row, RowError};

/// The identifier that the upstream is asked under.
const ID: u16 = 0x1234;

/// How many of some forged answers lead to anything.
pub(crate) struct Forged;

impl Calls for Forged {
    fn answer(&self, call: &str, row: &mut Row<'_>) -> Result<(), RowError> {
        match call {
            "forged" => count_taken(row),
            _ => return Err(RowError::NoSuchCall),
        }
        Ok(())
    }
}

/// How many of that many forged answers to the query of the next words lead to anything. Each has the octets after the identifier
/// that follow.
fn count_taken(row: &mut Row<'_>) {
    let settings = Settings::new(row.alloc());
    let times: u64 = row.number();
    let required = Vec::new(row.alloc());
    match next_proxy(row, settings, required) {
        Ok(proxy) => {
            let mut proxy = proxy;
            if begun(row, &mut proxy) {
                let rest = row.octets();
                let taken = count(row, &mut proxy, times, rest);
                row.show(&taken)
            } else {
                row.fail(RowError::OutOfForm)
            }
        }
        Err(fault) => row.fail(fault),
    }
}

/// Whether an upstream is asked for the datagram of the next word.
fn begun(row: &mut Row<'_>, proxy: &mut Proxy<ServerFront<CachedFront>>) -> bool {
    let octets = Octets::from_vec(row.vector());
    let came = ClientMessage {
        client: 1,
        addr: CLIENT,
        transport: ClientTransport::Datagram,
        at: 0,
        secs: 0,
        octets,
    };
    matches!(
        proxy.begin(row.alloc(), &came, UPSTREAM, ID, WhenFull::Fail),
        Ok(Started::Asks { .. })
    )
}

/// How many of that many answers lead to anything. Their identifiers are all in turn; if one is the right one, its port is not.
fn count(
    row: &mut Row<'_>,
    proxy: &mut Proxy<ServerFront<CachedFront>>,
    times: u64,
    rest: &[u8],
) -> u64 {
    let mut taken = 0u64;
    for number in 0..times {
        let id = (number % 65536) as u16;
        let port = if id == ID { 54 } else { 53 };
        if leads(row, proxy, id, port, rest) {
            taken = taken.saturating_add(1);
        }
    }
    taken
}

/// Whether an answer under an identifier from a port of the upstream's address leads to anything.
fn leads(
    row: &mut Row<'_>,
    proxy: &mut Proxy<ServerFront<CachedFront>>,
    id: u16,
    port: u16,
    rest: &[u8],
) -> bool {
    let mut octets = Vec::new(row.alloc());
    row.keep(octets.push((id / 256) as u8));
    row.keep(octets.push((id % 256) as u8));
    row.keep(octets.extend_from_slice(rest));
    let from = SocketAddr {
        ip: UPSTREAM.addr.ip,
        port,
    };
    let octets = Octets::from_vec(octets);
    let event = LookupEvent::Datagram {
        from,
        at: 0,
        octets,
    };
    !matches!(
        proxy.step(row.alloc(), 0, &event),
        Ok(QueryOutcome::Nothing)
    )
}
