//! The seats of workers, which come from one seat and are joined to one again.

ghost use Rattle.std.specs.Prelude.{◌≡◌, length, map, All};
ghost use Rattle.dns_workers.specs.Workers.{AreSeated, AreWith, HasSeatOf, JoinedAll, left_after, outcome_of};
ghost use Rattle.dns_workers.specs.Workers.{end_of_accepts, end_of_all, graver_end};

use crate::worker::Worker;
use dns_book::{Book, BookSeat};
use dns_host::{AcceptEnd, HostEnd};
use std::sync::Wait;

/// Gives each worker the second half of the seat, of which the first goes on. The last first half is answered.
pub(crate) fn seat_workers<R: Wait, D, C, J>(
    rt: &R,
    book: &Book,
    seat: BookSeat,
    workers: &mut [Worker<D, C, J>],
) -> BookSeat
    requires { seat.book ≡ book.now }
    ensures left { result.known ≡ left_after (length workers.old) seat.known }
    ensures same { result.book ≡ seat.book }
    ensures seats { All (λ w. HasSeatOf seat.book w) workers.new }
    ensures each { AreSeated seat.book seat.known workers.new }
    ensures parts { AreWith workers.old workers.new }
{
    let mut seat = seat;
    for worker in workers.iter_mut() {
        seat = worker.take_half(rt, book, seat);
    }
    seat
}

/// The graver of two ends: because memory ran out, by a fault, done.
fn graver_end(one: HostEnd, other: HostEnd) -> HostEnd
    ensures { result ≡ graver_end one other }
{
    match (one, other) {
        (HostEnd::OutOfMemory, _) | (_, HostEnd::OutOfMemory) => HostEnd::OutOfMemory,
        (HostEnd::HostFault, _) | (_, HostEnd::HostFault) => HostEnd::HostFault,
        (HostEnd::Done, HostEnd::Done) => HostEnd::Done,
    }
}

/// The end of a host by that of the accepts, and whether one failed or a start was refused.
pub(crate) fn end_of_accepts(end: AcceptEnd, faulted: bool) -> HostEnd
    ensures { result ≡ end_of_accepts end faulted }
{
    match (end, faulted) {
        (AcceptEnd::OutOfMemory, _) => HostEnd::OutOfMemory,
        (_, true) => HostEnd::HostFault,
        (AcceptEnd::Shutdown | AcceptEnd::Counted, false) => HostEnd::Done,
    }
}

/// Joins the workers' seats to this one, in order, and says how all ended together.
pub(crate) fn join_workers<R: Wait, D, C, J>(
    rt: &R,
    book: &Book,
    seat: BookSeat,
    end: HostEnd,
    workers: &mut [Worker<D, C, J>],
) -> (BookSeat, HostEnd)
    requires seat { seat.book ≡ book.now }
    requires seats { All (λ w. HasSeatOf book.now w) workers.old }
    ensures joined { JoinedAll seat.known (map outcome_of workers.old) result.0.known }
    ensures same { result.0.book ≡ seat.book }
    ensures end { result.1 ≡ end_of_all end (map outcome_of workers.old) }
    ensures parts { AreWith workers.old workers.new }
{
    let (mut seat, mut end) = (seat, end);
    for worker in workers.iter_mut() {
        end = graver_end(end, worker.host_end());
        seat = worker.give_back(rt, book, seat);
    }
    (seat, end)
}
