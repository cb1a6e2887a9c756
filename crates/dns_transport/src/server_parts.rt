//! A server's seat at its book.

ghost use Rattle.std.specs.Prelude.{◌≡◌, true, false, Some, IfOk, IsSome};
ghost use Rattle.std.specs.Arc.{arc_value};
ghost use Rattle.dns_service.specs.Config.{default_dgram, default_stream};
ghost use Rattle.dns_admission.specs.Machine.{new_state};
ghost use Rattle.dns_book.specs.Seats.{IsSound, new_known, first_half, second_half};
ghost use Rattle.dns_transport.specs.Parts.{IsSeatAt, known_of};

use crate::control::Control;
use crate::metrics::ServerMetrics;
use dns_book::{Book, BookSeat, BookState};
use dns_name::OutOfMemory;
use dns_service::{DgramConfig, StreamConfig};
use std::alloc::Global;
use std::sync::{Arc, Wait};

/// A book with its first seat, and metrics that are shared twice.
#[derive(Drop)]
pub(crate) struct ServerParts {
    pub(crate) book: Arc<Book>,
    pub(crate) seat: BookSeat,
    pub(crate) metrics: Arc<ServerMetrics>,
    pub(crate) counting: Arc<ServerMetrics>,
}

/// A book in this state, and its first seat.
fn make_book(alloc: Global, state: BookState) -> Result<(Arc<Book>, BookSeat), OutOfMemory>
    ensures { IfOk result (λ r. (r.1.book ≡ arc_value r.0) × (r.1.known ≡ new_known state)) }
{
    let (book, seat) = Book::new(alloc, state)?;
    match Arc::new(alloc, book) {
        Ok(book) => Ok((book, seat)),
        Err(error) => Err(error.into()),
    }
}

/// Two handles on one set of metrics.
fn share(
    alloc: Global,
    metrics: ServerMetrics,
) -> Result<(Arc<ServerMetrics>, Arc<ServerMetrics>), OutOfMemory>
    ensures { IfOk result (λ r. arc_value r.0 ≡ metrics) }
{
    let metrics = Arc::new(alloc, metrics)?;
    let counting = Arc::try_clone(&metrics)?;
    Ok((metrics, counting))
}

/// A book in this state, and these metrics.
fn make_server_parts(
    alloc: Global,
    state: BookState,
    metrics: ServerMetrics,
) -> Result<ServerParts, OutOfMemory>
    ensures seat { IfOk result (λ g. (g.seat.book ≡ arc_value g.book) × (g.seat.known ≡ new_known state)) }
    ensures metrics { IfOk result (λ g. arc_value g.metrics ≡ metrics) }
{
    let (metrics, counting) = share(alloc, metrics)?;
    match make_book(alloc, state) {
        Ok((book, seat)) => Ok(ServerParts {
            book,
            seat,
            metrics,
            counting,
        }),
        Err(error) => Err(error),
    }
}

impl ServerParts {
    /// For datagrams at this configuration. That of streams is the default one.
    pub(crate) fn of_datagrams(
        alloc: Global,
        config: DgramConfig,
    ) -> Result<ServerParts, OutOfMemory>
        ensures seat { IfOk result (λ g. (g.seat.book ≡ arc_value g.book) × (g.seat.known ≡ new_known (new_state config default_stream))) }
        ensures metrics { IfOk result (λ g. arc_value g.metrics ≡ false) }
    {
        let state = BookState::new(config, StreamConfig::new());
        make_server_parts(alloc, state, ServerMetrics::connection_less())
    }

    /// For connections at this configuration. That of datagrams is the default one.
    pub(crate) fn of_connections(
        alloc: Global,
        config: StreamConfig,
    ) -> Result<ServerParts, OutOfMemory>
        ensures seat { IfOk result (λ g. (g.seat.book ≡ arc_value g.book) × (g.seat.known ≡ new_known (new_state default_dgram config))) }
        ensures metrics { IfOk result (λ g. arc_value g.metrics ≡ true) }
    {
        let state = BookState::new(DgramConfig::new(), config);
        make_server_parts(alloc, state, ServerMetrics::connection_oriented())
    }
}

/// The book once more. It waits if the book has so many owners that one more has no room.
fn another<R: Wait>(rt: &R, book: &Arc<Book>) -> Arc<Book>
    ensures { arc_value result ≡ arc_value book.now }
{
    for _ in rt.forever() {
        if let Ok(another) = Arc::try_clone(book) {
            return another;
        }
    }
    unreachable!()
}

/// Takes the seat out of its place.
pub(crate) fn take_seat(place: &mut Option<BookSeat>) -> BookSeat
    requires { IsSome place.old }
    ensures { place.old ≡ Some result }
{
    let Some(seat) = place.take() else {
        unreachable!()
    };
    seat
}

/// Puts a seat into its place.
pub(crate) fn put_seat(place: &mut Option<BookSeat>, seat: BookSeat)
    ensures { place.new ≡ Some seat }
{
    *place = Some(seat);
}

/// Splits the seat in its place, which keeps the first half. The control has the second.
pub(crate) fn split_off<R: Wait>(rt: &R, book: &Arc<Book>, place: &mut Option<BookSeat>) -> Control
    requires { IsSeatAt (arc_value book.now) place.old }
    ensures place { IsSeatAt (arc_value book.now) place.new }
    ensures first { known_of place.new ≡ first_half (known_of place.old) }
    ensures control { result ≡ record { book = arc_value book.now; known = second_half (known_of place.old) } }
    ensures sound { IsSound (known_of place.new) × IsSound result.known }
{
    let Some(seat) = place.take() else {
        unreachable!()
    };
    let theirs = another(rt, book);
    let (first, second) = book.split(rt, seat);
    *place = Some(first);
    Control::new(theirs, second)
}
