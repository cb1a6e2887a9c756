//! One connection is served.

ghost use Rattle.std.specs.Prelude.{◌≡◌, ◌≤◌, false, IfOk, OnErr};
ghost use Rattle.dns_io.specs.Causes.{Observed};
ghost use Rattle.dns_session.specs.Serving.{serving};
ghost use Rattle.dns_recorder.specs.Clocks.{Timed, TimedWhole};
ghost use Rattle.dns_stream_driver.specs.Story.{Broken, LooksAlone, LooksAndRelease, began};
ghost use Rattle.dns_stream_driver.specs.Endings.{WasOffered, Unserved, EndsSo, WhereClosed, ShownFrom, EndShown, EndCauses};
ghost use Rattle.dns_stream_driver.specs.Shown.{Causes};
ghost use Rattle.dns_stream_driver.specs.Turning.{ClosingStory};

use crate::turning::serve_core;
use dns_admission::Look;
use dns_book::{Book, BookSeat};
use dns_io::{Clock, Link};
use dns_name::SocketAddr;
use dns_recorder::{Recorder, note_moment};
use dns_service::{EventKind, OutOfMemory, SharedService, Why};
use dns_session::ClientCore;
use std::alloc::Global;
use std::sync::Wait;

/// How a connection ended.
#[derive(Clone, Copy, Debug, PartialEq, Eq)]
pub enum ConnectionEnd {
    /// It was closed, for this reason.
    Closed(Why),
    /// A call found no memory.
    OutOfMemory,
}

/// Admits a connection that was offered at a moment, and serves it.
fn admit_and_serve<R: Wait, L: Link, C: Clock, J: Recorder, W: SharedService>(
    rt: &R,
    alloc: Global,
    client: u64,
    addr: SocketAddr,
    at: u64,
    look: &Look,
    link: &mut L,
    clock: &mut C,
    journal: &mut J,
    service: &W,
    book: &Book,
    seat: &mut BookSeat,
) -> Result<Why, OutOfMemory>
    requires book { seat.old.book ≡ book.now }
    requires running { look.now.closed ≡ false }
    requires can_call { W.can_call service.now }
    ensures observed { IfOk result (λ why. Observed (L.tells link.new × J.tells journal.new) (L.tells link.old × J.tells journal.old)
        (ClosingStory (serving (W.answer service.now) (W.hint service.now)) (began client addr at look.now) client look.now why
        (J.noted journal.old) (J.noted journal.new) seat.old.known seat.new.known (L.traffic link.old) (L.traffic link.new))) }
    ensures clock { IfOk result (λ why. Observed (L.tells link.new × C.tells clock.new × J.tells journal.new)
        (L.tells link.old × C.tells clock.old × J.tells journal.old)
        (Timed (J.noted journal.old) (J.noted journal.new) (L.traffic link.old).full_writes (L.traffic link.new).full_writes
        (C.readings clock.old) (C.readings clock.new))) }
    ensures no_memory { OnErr result (Observed (L.tells link.new × J.tells journal.new) (L.tells link.old × J.tells journal.old)
        (Broken (serving (W.answer service.now) (W.hint service.now)) (began client addr at look.now) client
        (J.noted journal.old) (J.noted journal.new) (L.traffic link.old) (L.traffic link.new))) }
    ensures cause { IfOk result (λ why. Causes why seat.old.known seat.new.known (L.faults link.old) (L.faults link.new)) }
    ensures later { L.faults link.old ≤ L.faults link.new }
    ensures seat { LooksAlone seat.old.known seat.new.known }
    ensures same { seat.new.book ≡ seat.old.book }
{
    match ClientCore::admit(alloc, client, addr, at, look) {
        Ok(mut core) => {
            let served = serve_core(
                rt, alloc, &mut core, look, client, service, book, seat, link, clock, journal,
            );
            drop(core);
            served
        }
        Err(error) => Err(error),
    }
}

/// Notes the Offer, and serves the connection.
#[tactic(auto, using(crate::proofs::Ends::unserved_early))]
fn serve_offer<R: Wait, L: Link, C: Clock, J: Recorder, W: SharedService>(
    rt: &R,
    alloc: Global,
    link: &mut L,
    clock: &mut C,
    journal: &mut J,
    book: &Book,
    seat: &mut BookSeat,
    client: u64,
    addr: SocketAddr,
    look: &Look,
    service: &W,
) -> Result<Why, OutOfMemory>
    requires book { seat.old.book ≡ book.now }
    requires running { look.now.closed ≡ false }
    requires can_call { W.can_call service.now }
    ensures observed { IfOk result (λ why. Observed (L.tells link.new × J.tells journal.new) (L.tells link.old × J.tells journal.old)
        (WasOffered (serving (W.answer service.now) (W.hint service.now)) why client addr look.now
        (J.noted journal.old) (J.noted journal.new) seat.old.known seat.new.known (L.traffic link.old) (L.traffic link.new))) }
    ensures clock { IfOk result (λ why. Observed (L.tells link.new × C.tells clock.new × J.tells journal.new)
        (L.tells link.old × C.tells clock.old × J.tells journal.old)
        (Timed (J.noted journal.old) (J.noted journal.new) (L.traffic link.old).full_writes (L.traffic link.new).full_writes
        (C.readings clock.old) (C.readings clock.new))) }
    ensures no_memory { OnErr result (Observed (L.tells link.new × J.tells journal.new) (L.tells link.old × J.tells journal.old)
        (Unserved (serving (W.answer service.now) (W.hint service.now)) client addr look.now
        (J.noted journal.old) (J.noted journal.new) (L.traffic link.old) (L.traffic link.new))) }
    ensures shown { IfOk result (λ why. Observed (L.tells link.new × J.tells journal.new) (L.tells link.old × J.tells journal.old)
        (ShownFrom (serving (W.answer service.now) (W.hint service.now)) why client addr look.now (J.noted journal.old)
        (J.noted journal.new) (L.traffic link.old) (L.traffic link.new))) }
    ensures cause { IfOk result (λ why. Causes why seat.old.known seat.new.known (L.faults link.old) (L.faults link.new)) }
    ensures later { L.faults link.old ≤ L.faults link.new }
    ensures seat { LooksAlone seat.old.known seat.new.known }
    ensures same { seat.new.book ≡ seat.old.book }
{
    match note_moment(alloc, client, EventKind::Offer { addr }, clock, journal) {
        Ok(at) => admit_and_serve(
            rt, alloc, client, addr, at, look, link, clock, journal, service, book, seat,
        ),
        Err(error) => Err(error),
    }
}

/// Serves one connection until it is closed, by a look that shows no shutdown. Then its slot is given back and the link
/// closed. Each turn is one look and one own event: a frame that waits is written; if none waits, the next request of
/// this round is polled; if none is left, one read is made, which ends the round.
#[tactic(auto, using(crate::proofs::Ends::looks_release, crate::proofs::ConnectionInvariant::cause_released))]
pub fn serve_connection<R: Wait, L: Link, C: Clock, J: Recorder, W: SharedService>(
    rt: &R,
    alloc: Global,
    book: &Book,
    mut seat: BookSeat,
    client: u64,
    addr: SocketAddr,
    look: &Look,
    service: &W,
    link: &mut L,
    clock: &mut C,
    journal: &mut J,
) -> (BookSeat, ConnectionEnd)
    requires book { seat.book ≡ book.now }
    requires running { look.now.closed ≡ false }
    requires can_call { W.can_call service.now }
    // If link and recorder tell.
    ensures observed { Observed (L.tells link.new × J.tells journal.new) (L.tells link.old × J.tells journal.old)
        (EndsSo (serving (W.answer service.now) (W.hint service.now)) result.1 client addr look.now
        (J.noted journal.old) (J.noted journal.new) seat.known result.0.known (L.traffic link.old) (L.traffic link.new)) }
    // If link and recorder tell: why the connection was closed.
    ensures shown { Observed (L.tells link.new × J.tells journal.new) (L.tells link.old × J.tells journal.old)
        (EndShown (serving (W.answer service.now) (W.hint service.now)) result.1 client addr look.now (J.noted journal.old)
        (J.noted journal.new) (L.traffic link.old) (L.traffic link.new)) }
    // If the clock tells too.
    ensures clock { WhereClosed result.1 (Observed (L.tells link.new × C.tells clock.new × J.tells journal.new)
        (L.tells link.old × C.tells clock.old × J.tells journal.old)
        (TimedWhole (J.noted journal.old) (J.noted journal.new) (L.traffic link.old).full_writes (L.traffic link.new).full_writes
        (C.readings clock.old) (C.readings clock.new))) }
    // Always.
    ensures cause { EndCauses result.1 seat.known result.0.known (L.faults link.old) (L.faults link.new) }
    ensures seat { LooksAndRelease seat.known result.0.known }
    ensures same { result.0.book ≡ seat.book }
{
    let served = serve_offer(
        rt, alloc, link, clock, journal, book, &mut seat, client, addr, look, service,
    );
    book.release(rt, &mut seat);
    link.close();
    match served {
        Ok(why) => (seat, ConnectionEnd::Closed(why)),
        Err(_) => (seat, ConnectionEnd::OutOfMemory),
    }
}
