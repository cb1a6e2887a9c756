//! Accepts beside workers.

ghost use Rattle.std.specs.Prelude.{◌≡◌, length, All, MatchOption};
ghost use Rattle.std.specs.Arc.{arc_value};
ghost use Rattle.dns_session.specs.Serving.{serving};
ghost use Rattle.dns_host.specs.Hosting.{AcceptsWent};
ghost use Rattle.dns_workers.specs.Workers.{AllServed, HasSeatOf, WorkersServed};
ghost use Rattle.dns_workers.specs.Faults.{RoseBy};

use crate::seats::{end_of_accepts, join_workers, seat_workers};
use crate::worker::{Worker, serve_each};
use dns_book::BookSeat;
use dns_host::{AcceptContext, AcceptEnd, ConnectionWork, HostEnd, Recorder, Silent};
use dns_io::{AsyncAccept, AsyncDgramSock, Clock, Spawner};
use dns_service::SharedService;
use std::sync::Wait;
use std::thread::{Threads, join_mut};

/// What a server with several workers stands on outside.
#[derive(Drop)]
pub struct WorkersHost<A, D, C, P, J> {
    /// What connections come from.
    pub accept: A,
    /// What serve datagrams. If there are none, connections alone are served.
    pub workers: Vec<Worker<D, C, J>>,
    /// What starts the work of each connection.
    pub spawner: P,
}

impl<
    A: AsyncAccept,
    D: AsyncDgramSock + Send,
    C: Clock + Send + Drop + 'static,
    P,
    J: Recorder + Send,
> WorkersHost<A, D, C, P, J>
where
    A::Link: Send + Drop + 'static,
{
    /// Accepts connections from this seat, and besides that each worker serves datagrams from its own.
    fn both_beside<
        R: Threads + Wait + Copy + Send + Sync + 'static,
        W: SharedService + Send + Sync + 'static,
    >(
        &mut self,
        accept_context: &AcceptContext<'_, R, C, W>,
        seat: BookSeat,
        count: u64,
    ) -> (BookSeat, AcceptEnd, bool)
    where
        W::Future: Send,
        W::Stream: Send,
        P: Spawner<ConnectionWork<A::Link, C, Silent, W>>,
        requires seat { seat.book ≡ arc_value accept_context.now.serve_context.book.now }
        requires seats { All (λ w. HasSeatOf (arc_value accept_context.now.serve_context.book.now) w) self.old.workers.items }
        requires can_call { W.can_call (arc_value accept_context.now.serve_context.service.now) }
        ensures accepts { AcceptsWent A.tells A.accept_traffic A.faults P.tells P.given P.faults
            result.1 result.2 count seat.known result.0.known self.old.accept self.new.accept self.old.spawner self.new.spawner }
        ensures same { result.0.book ≡ arc_value accept_context.now.serve_context.book.now }
        ensures served { AllServed D.tells D.sock_traffic D.failed_receives D.failed_sends C.tells C.readings J.tells J.noted
            (serving (W.answer (arc_value accept_context.now.serve_context.service.now))
            (W.hint (arc_value accept_context.now.serve_context.service.now)))
            count self.old.workers.items self.new.workers.items }
        ensures seats { All (λ w. HasSeatOf (arc_value accept_context.now.serve_context.book.now) w) self.new.workers.items }
        ensures as_many { length self.new.workers.items ≡ length self.old.workers.items }
    {
        let WorkersHost {
            accept,
            workers,
            spawner,
        } = self;
        let workers = workers.as_mut_slice();
        let serve_context = &accept_context.serve_context;
        let mut place = Some(seat);
        let (_, accepted) = join_mut(
            serve_context.rt,
            &mut ||
                requires seats { All (λ w. HasSeatOf (arc_value serve_context.now.book.now) w) workers.now }
                requires can_call { W.can_call (arc_value serve_context.now.service.now) }
                ensures served { AllServed D.tells D.sock_traffic D.failed_receives D.failed_sends C.tells C.readings J.tells J.noted
                    (serving (W.answer (arc_value serve_context.entry.now.service.now))
                    (W.hint (arc_value serve_context.entry.now.service.now)))
                    count workers.entry.now workers.exit.now }
                ensures seats { All (λ w. HasSeatOf (arc_value serve_context.entry.now.book.now) w) workers.exit.now }
                ensures as_many { length workers.exit.now ≡ length workers.entry.now }
            { serve_each(serve_context, count, workers) },
            &mut || -> (BookSeat, AcceptEnd, bool)
                requires place { MatchOption place ⊥ (λ seat. seat.book ≡ arc_value accept_context.now.serve_context.book.now) }
                requires can_call { W.can_call (arc_value accept_context.now.serve_context.service.now) }
            { accept_context.accepts_beside(accept, spawner, &mut place, count) },
        );
        accepted
    }

    /// Serves connections, and besides that datagrams by each worker, from a socket of its own in a thread of its own. It ends once
    /// `count` connections were accepted and `count` datagrams came to each worker, `count` not 0, or a look shows a shutdown. Each
    /// worker has a seat of its own. One that ends by a fault or because memory ran out shuts the book down, which ends all. Then
    /// `join_all` of the spawner waits for the work of connections, of which no clause says that it has ended. The seats are
    /// joined, and the book is shut down. If no thread can be made the workers serve one after another.
    pub fn serve<
        R: Threads + Wait + Copy + Send + Sync + 'static,
        W: SharedService + Send + Sync + 'static,
    >(
        &mut self,
        accept_context: &AcceptContext<'_, R, C, W>,
        seat: BookSeat,
        count: u64,
    ) -> (BookSeat, HostEnd)
    where
        W::Future: Send,
        W::Stream: Send,
        P: Spawner<ConnectionWork<A::Link, C, Silent, W>>,
        requires book { seat.book ≡ arc_value accept_context.now.serve_context.book.now }
        requires can_call { W.can_call (arc_value accept_context.now.serve_context.service.now) }
        ensures served { WorkersServed D.tells D.sock_traffic D.failed_receives D.failed_sends C.tells C.readings J.tells J.noted
            (serving (W.answer (arc_value accept_context.now.serve_context.service.now))
            (W.hint (arc_value accept_context.now.serve_context.service.now)))
            count A.tells A.accept_traffic A.faults P.tells P.given P.faults result.1 seat.known result.0.known self.old self.new }
        ensures cause { RoseBy D.failed_receives D.failed_sends A.faults P.faults result.1 self.old self.new }
        ensures same { result.0.book ≡ seat.book }
    {
        let rt = accept_context.serve_context.rt;
        let book = accept_context.serve_context.book;
        let first = seat_workers(rt, book, seat, self.workers.as_mut_slice());
        let (first, accept_end, faulted) = self.both_beside(accept_context, first, count);
        self.spawner.join_all(rt);
        let end = end_of_accepts(accept_end, faulted);
        let (mut seat, end) = join_workers(rt, book, first, end, self.workers.as_mut_slice());
        book.shutdown(rt, &mut seat);
        (seat, end)
    }
}
