//! Connections over witnesses.

ghost use Rattle.std.specs.Prelude.{◌≡◌, [], false};
ghost use Rattle.std.specs.Arc.{arc_value};
ghost use Rattle.dns_session.specs.Serving.{serving};
ghost use Rattle.dns_recorder.specs.Clocks.{TimedWhole};
ghost use Rattle.dns_stream_driver.specs.Story.{LooksAndRelease};
ghost use Rattle.dns_stream_driver.specs.Endings.{EndsSo, EndShown, EndCauses, WhereClosed};
ghost use Rattle.dns_witness.specs.Seen.{still};
ghost use Rattle.dns_account.specs.Law.{EndSeen, KeptToTheRules};

use dns_accepts::{ConnectionEnd, ConnectionWork, Silent, serve_connection};
use dns_admission::Look;
use dns_book::{Book, BookSeat};
use dns_io::{Clock, Link, Work};
use dns_name::SocketAddr;
use dns_service::SharedService;
use dns_witness::{Witness, WitnessClock};
use std::alloc::Global;
use std::sync::Wait;

/// The work of a connection over witnesses, as it ends.
fn ended<
    R: Wait,
    L: Link + Send + Drop + 'static,
    C: Clock + Send + Drop + 'static,
    W: SharedService + Send + Sync + 'static,
>(
    rt: &R,
    alloc: Global,
    work: ConnectionWork<Witness<L>, WitnessClock<C>, Silent, W>,
) -> (BookSeat, ConnectionEnd, Witness<L>, WitnessClock<C>, Silent)
    requires { (work.seat.book ≡ arc_value work.book) × (work.look.closed ≡ false) × W.can_call (arc_value work.service) }
    ensures observed { EndsSo
        (serving (W.answer (arc_value work.service)) (W.hint (arc_value work.service))) result.1 work.client work.addr work.look
        work.journal.events result.4.events work.seat.known result.0.known work.link.seen.traffic result.2.seen.traffic }
    ensures shown { EndShown
        (serving (W.answer (arc_value work.service)) (W.hint (arc_value work.service))) result.1 work.client work.addr work.look
        work.journal.events result.4.events work.link.seen.traffic result.2.seen.traffic }
    ensures clock { WhereClosed result.1 (TimedWhole work.journal.events result.4.events
        work.link.seen.traffic.full_writes result.2.seen.traffic.full_writes work.clock.seen.readings result.3.seen.readings) }
    ensures cause { EndCauses result.1 work.seat.known result.0.known (L.faults work.link.link) (L.faults result.2.link) }
    ensures seat { LooksAndRelease work.seat.known result.0.known × (result.0.book ≡ work.seat.book) }
{
    work.run(rt, alloc)
}

/// THE LAW of connections. Each connection that a host serves over witnesses is such a work, and its thread does this: over any
/// link, real sockets too, and by any clock. The octets handed to the link are frames that the rules for this client alone give.
/// They give them for the octets taken from it and the events that it heard, in order. A part of one more may follow. Nothing need
/// tell.
#[tactic(auto, using(crate::proofs::Lawful::lawful, crate::proofs::CloseReasons::end_seen))]
pub fn every_connection_kept_to_the_rules<
    R: Wait,
    L: Link + Send + Drop + 'static,
    C: Clock + Send + Drop + 'static,
    W: SharedService + Send + Sync + 'static,
>(
    rt: &R,
    alloc: Global,
    work: ConnectionWork<Witness<L>, WitnessClock<C>, Silent, W>,
) -> (BookSeat, ConnectionEnd, Witness<L>, WitnessClock<C>, Silent)
    requires { (work.seat.book ≡ arc_value work.book) × (work.look.closed ≡ false) × W.can_call (arc_value work.service) }
    ensures kept { KeptToTheRules
        (serving (W.answer (arc_value work.service)) (W.hint (arc_value work.service))) result.1 work.client work.addr work.look
        work.journal.events result.4.events work.link.seen.traffic result.2.seen.traffic }
    // Why it was closed: what the link's calls said of it, and what the events did.
    ensures seen { EndSeen result.1 work.link.seen.traffic result.2.seen.traffic }
    ensures shown { EndShown
        (serving (W.answer (arc_value work.service)) (W.hint (arc_value work.service))) result.1 work.client work.addr work.look
        work.journal.events result.4.events work.link.seen.traffic result.2.seen.traffic }
    // When each event was.
    ensures clock { WhereClosed result.1 (TimedWhole work.journal.events result.4.events
        work.link.seen.traffic.full_writes result.2.seen.traffic.full_writes work.clock.seen.readings result.3.seen.readings) }
    ensures cause { EndCauses result.1 work.seat.known result.0.known (L.faults work.link.link) (L.faults result.2.link) }
    ensures seat { LooksAndRelease work.seat.known result.0.known × (result.0.book ≡ work.seat.book) }
{
    ended(rt, alloc, work)
}

/// Serves a connection as `serve_connection` does, over a witness of this link and by one of this clock. What it promises if link,
/// clock and recorder tell holds of what the calls of both answered.
pub fn serve_connection_over<R: Wait, L: Link + Drop, C: Clock + Drop, W: SharedService>(
    rt: &R,
    alloc: Global,
    book: &Book,
    seat: BookSeat,
    client: u64,
    addr: SocketAddr,
    look: &Look,
    service: &W,
    link: L,
    clock: C,
) -> (BookSeat, ConnectionEnd, Silent, Witness<L>, WitnessClock<C>)
    requires book { seat.book ≡ book.now }
    requires running { look.now.closed ≡ false }
    requires can_call { W.can_call service.now }
    ensures observed { EndsSo (serving (W.answer service.now) (W.hint service.now)) result.1 client addr look.now
        [] result.2.events seat.known result.0.known still result.3.seen.traffic }
    ensures shown { EndShown (serving (W.answer service.now) (W.hint service.now)) result.1 client addr look.now
        [] result.2.events still result.3.seen.traffic }
    ensures clock { WhereClosed result.1 (TimedWhole [] result.2.events 0 result.3.seen.traffic.full_writes [] result.4.seen.readings) }
    ensures cause { EndCauses result.1 seat.known result.0.known (L.faults link) (L.faults result.3.link) }
    ensures seat { LooksAndRelease seat.known result.0.known × (result.0.book ≡ seat.book) }
{
    let mut link = Witness::new(link);
    let mut clock = WitnessClock::new(clock);
    let mut journal = Silent::new();
    let (seat, end) = serve_connection(
        rt,
        alloc,
        book,
        seat,
        client,
        addr,
        look,
        service,
        &mut link,
        &mut clock,
        &mut journal,
    );
    (seat, end, journal, link, clock)
}
