//! What each connection of a server is served with.

ghost use Rattle.std.specs.Prelude.{◌≡◌, ◌≤◌};
ghost use Rattle.std.specs.Arc.{arc_value};
ghost use Rattle.dns_host.specs.Accepting.{AcceptsTo};
ghost use Rattle.dns_transport.specs.Parts.{IsSeatAt, known_of};

use crate::server_parts::{put_seat, take_seat};
use dns_book::{Book, BookSeat};
use dns_host::{AcceptEnd, ConnectionWork, PreConnect, Silent, serve_accepts};
use dns_io::{AsyncAccept, Clock, Spawner};
use dns_service::SharedService;
use std::alloc::Global;
use std::sync::{Arc, Wait};
use std::thread::Threads;

/// What each connection is served with. A clock of its own is made of this one.
#[derive(Drop)]
pub(crate) struct ConnContext<W, C, K> {
    pub(crate) book: Arc<Book>,
    pub(crate) service: Arc<W>,
    pub(crate) clock: C,
    pub(crate) hook: K,
}

impl<W, C, K: Drop> ConnContext<W, C, K> {
    /// Replaces the hook; book, service and clock are moved.
    pub(crate) fn with_hook<H>(self, hook: H) -> ConnContext<W, C, H>
        ensures { result ≡ record { book = self.book; service = self.service; clock = self.clock; hook = hook } }
    {
        let ConnContext {
            book,
            service,
            clock,
            hook: _old,
        } = self;
        ConnContext {
            book,
            service,
            clock,
            hook,
        }
    }
}

impl<W: SharedService + Send + Sync + 'static, C: Clock + Send + Drop + 'static, K> ConnContext<
    W,
    C,
    K,
>
where
    W::Future: Send,
    W::Stream: Send,
{
    /// Accepts connections without a count, from the seat that stands in its place.
    #[tactic(auto, using(crate::proofs::SeatLaws::is_there))]
    pub(crate) fn accept_all<
        R: Threads + Wait + Copy + Send + 'static,
        A: AsyncAccept,
        P: Spawner<ConnectionWork<A::Link, C, Silent, W>>,
    >(
        &self,
        rt: &R,
        alloc: Global,
        place: &mut Option<BookSeat>,
        accept: &mut A,
        spawner: &mut P,
    ) -> AcceptEnd
    where
        A::Link: Send + Drop + 'static,
        K: PreConnect<A::Link>,
        requires place { IsSeatAt (arc_value self.now.book) place.old }
        requires can_call { W.can_call (arc_value self.now.service) }
        ensures observed { AcceptsTo result 0 (A.tells accept.new × P.tells spawner.new) (A.tells accept.old × P.tells spawner.old)
            (known_of place.old) (known_of place.new)
            (A.accept_traffic accept.old) (A.accept_traffic accept.new) (P.given spawner.old) (P.given spawner.new)
            (A.faults accept.old) (A.faults accept.new) }
        ensures place { IsSeatAt (arc_value self.now.book) place.new }
        ensures accepts_later { A.faults accept.old ≤ A.faults accept.new }
        ensures starts_later { P.faults spawner.old ≤ P.faults spawner.new }
    {
        let seat = take_seat(place);
        let (seat, end) = serve_accepts(
            rt,
            alloc,
            &self.book,
            seat,
            &self.service,
            accept,
            &self.clock,
            spawner,
            &self.hook,
            0,
        );
        put_seat(place, seat);
        end
    }
}
