//! Requests that came by a good cookie.

ghost use Rattle.std.specs.Prelude.{◌≡◌, ◌≤◌, [], length, position};
ghost use Rattle.dns_limited_sock.specs.GoodCookies.{HasGoodCookie, Puts, Takes, exchange_of, is_same};

use crate::cookie::has_good_cookie;
use dns_base::{MessageRef, number_at};
use dns_name::SocketAddr;
use dns_socket_addr::same_socket_addr;
use std::alloc::Global;

/// How many requests are remembered. A server mostly answers one before it receives the next.
const MOST: usize = 64;

/// How many octets a header has (RFC 1035, section 4.1.1).
const HEADER: usize = 12;

/// A request and its reply: the other end, and the identifier.
#[derive(Clone, Copy)]
pub(crate) struct Exchange {
    pub(crate) peer: SocketAddr,
    pub(crate) id: u16,
}

impl Exchange {
    /// The request or reply that octets are, with its other end, if they have an identifier.
    pub(crate) fn of(octets: &[u8], peer: SocketAddr) -> Option<Exchange>
        ensures { result ≡ exchange_of octets.now peer }
    {
        if octets.len() < HEADER {
            return None;
        }
        Some(Exchange {
            peer,
            id: number_at(octets, 0),
        })
    }

    /// Whether a reply is to a request.
    pub(crate) fn is_same(self, other: Exchange) -> bool
        ensures { result ≡ is_same self other }
    {
        self.id == other.id && same_socket_addr(self.peer, other.peer)
    }
}

/// The place of the first of some requests that a reply is to.
fn first_of(waiting: &[Exchange], exchange: Exchange) -> Option<usize>
    ensures { result ≡ position (is_same exchange) waiting.now }
{
    waiting.iter().position(|one| exchange.is_same(*one))
}

/// The requests that came by a good server cookie, and whose replies weren't sent yet. Past 64 the first one is forgotten.
#[derive(Drop)]
pub struct GoodCookies {
    waiting: Vec<Exchange>,
    ghost bounded: { length waiting.items ≤ 64 },
}

impl GoodCookies {
    /// None yet.
    pub fn new(alloc: Global) -> GoodCookies
        ensures { result.waiting.items ≡ [] }
    {
        GoodCookies {
            waiting: Vec::new(alloc),
        }
    }

    /// Remembers a request. Without memory it is forgotten.
    fn put(&mut self, exchange: Exchange)
        ensures { Puts exchange self.old.waiting.items self.new.waiting.items }
    {
        if self.waiting.len() >= MOST {
            let _ = self.waiting.remove(0);
        }
        let _ = self.waiting.push(exchange);
    }

    /// Remembers a request if it has a good server cookie.
    pub(crate) fn hear(
        &mut self,
        exchange: Exchange,
        request: &MessageRef<'_>,
        secret: &[u8; 16],
        second: u64,
    )
        ensures good { HasGoodCookie request.now secret.now exchange.peer.ip second
            → Puts exchange self.old.waiting.items self.new.waiting.items }
        ensures bad { (HasGoodCookie request.now secret.now exchange.peer.ip second → ⊥)
            → self.new.waiting.items ≡ self.old.waiting.items }
    {
        if has_good_cookie(request, secret, exchange.peer.ip, second) {
            self.put(exchange);
        }
    }

    /// Whether a reply is to one of them, which is forgotten then. So each lets one reply through.
    pub(crate) fn take(&mut self, exchange: Exchange) -> bool
        ensures { Takes exchange self.old.waiting.items self.new.waiting.items result }
    {
        match first_of(self.waiting.as_slice(), exchange) {
            Some(place) => {
                let _ = self.waiting.remove(place);
                true
            }
            None => false,
        }
    }
}
