//! What the loop of datagrams keeps.

ghost use Rattle.std.specs.Prelude.{◌≡◌, ℕ, [], false};
ghost use Rattle.dns_dgram_driver.specs.Steps.{kept_at};

use dns_admission::Look;
use dns_book::BookSeat;
use dns_name::SocketAddr;
use dns_service::SharedService;
use dns_session::KeptRequest;
use std::alloc::Global;
use std::collections::VecDeque;

/// What is kept of an exchange whose request isn't done: its number, what is kept of the request, and where its answers go.
#[derive(Drop)]
pub(crate) struct KeptExchange<W: SharedService> {
    pub(crate) number: u64,
    pub(crate) request: KeptRequest<W::Future, W::Stream>,
    pub(crate) addr: SocketAddr,
}

/// The exchanges whose requests aren't done, by rising number, those after all others that this round of polls has passed; the number
/// of the next one, and what was heard of the book: its version, the configurations in force, and whether it was shut down. The seat
/// that looks are made from, and whether a send failed.
#[derive(Drop)]
pub(crate) struct Running<W: SharedService> {
    pub(crate) exchanges: VecDeque<KeptExchange<W>>,
    pub(crate) next: u64,
    pub(crate) heard: Look,
    pub(crate) seat: BookSeat,
    pub(crate) send_failed: bool,
}

/// The state of a loop before its first datagram, which heard this look.
pub(crate) fn begun<W: SharedService>(alloc: Global, heard: Look, seat: BookSeat) -> Running<W>
    ensures empty { (c : ℕ) → kept_at c result.exchanges.items ≡ [] }
    ensures next { result.next ≡ 0 }
    ensures heard { result.heard ≡ heard }
    ensures seat { result.seat ≡ seat }
    ensures sends { result.send_failed ≡ false }
{
    Running {
        exchanges: VecDeque::new(alloc),
        next: 0,
        heard,
        seat,
        send_failed: false,
    }
}

/// What is left when the serving ends: the seat, and whether a send failed.
pub(crate) fn left<W: SharedService>(state: Running<W>) -> (BookSeat, bool)
    ensures seat { result.0 ≡ state.seat }
    ensures sends { result.1 ≡ state.send_failed }
{
    (state.seat, state.send_failed)
}
