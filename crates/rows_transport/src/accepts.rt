//! The loop of accepts alone.

ghost use Rattle.std.specs.Prelude.{◌≡◌};
ghost use Rattle.std.specs.Arc.{arc_value};

use crate::servers::{ANSWER, FRAME, target};
use crate::watched::WatchedAccept;
use dns_book::{Book, BookSeat};
use dns_middleware::{Notifiable, Settings, wrap};
use dns_name::{OptRcode, OutOfMemory};
use dns_outside::{AsyncAccept, Clock, MemoryAccept, MemorySpawner, Spawner};
use dns_service::{Service, SharedService, WithoutMeta};
use dns_transport::{AcceptEnd, ConnectionWork, PreConnect, Silent, serve_accepts};
use rows_links::{Holding, Marking, Seen, SeenLink, accept_of, book_of, clock, show};
use std::alloc::Global;
use std::sync::atomic::{AtomicBool, Ordering};
use std::sync::{Arc, Wait};
use std::thread::Threads;

/// A query for the root's address, with id 1, after its length.
const QUERY: &[u8] =
    b"\x00\x11\x00\x01\x01\x00\x00\x01\x00\x00\x00\x00\x00\x00\x00\x00\x01\x00\x01";

/// The frame of the reply to the query, with the OPT record of an error reply.
const REPLY: &[u8] =
    b"\x00\x1c\x00\x01\x81\x00\x00\x01\x00\x00\x00\x00\x00\x01\x00\x00\x01\x00\x01\x00\x00\x29\x00\x00\x00\x00\x00\x00\x00\x00";

/// What is written on a link that gets no reply.
const NOTHING: &[u8] = b"";

/// What links come from, which keeps its calls.
type WatchedLinks<R> = WatchedAccept<MemoryAccept<SeenLink<R>>>;

/// What a loop of accepts is given, and what is wanted of it.
#[derive(Clone, Copy)]
struct AcceptCase<'a> {
    /// A link comes for each of these queries.
    queries: &'a [&'a [u8]],
    /// The accepts that fail, and those that answer Again.
    failing: &'a [u64],
    again: &'a [u64],
    count: u64,
    /// Whether the book is shut down before.
    is_shut: bool,
    end: AcceptEnd,
    /// The calls of the accept object, by their letters.
    calls: &'a [u8],
    /// The octets written on each link, and how often the hook is handed it; and how often each is closed.
    shown: &'a [(&'a [u8], u64)],
    closed: u64,
}

impl AcceptCase<'_> {
    /// What links come from, with a link for each query.
    fn links<R: Wait + Copy + Drop>(
        &self,
        rt: R,
        alloc: Global,
        seen: &mut Vec<Arc<Seen>>,
    ) -> Result<WatchedLinks<R>, OutOfMemory> {
        let calls = Vec::new(alloc);
        match accept_of(rt, alloc, self.queries, self.failing, self.again, seen) {
            Ok(inner) => Ok(WatchedAccept { inner, calls }),
            Err(error) => Err(error),
        }
    }

    /// Whether the loop ended so, with no slot taken and these calls of the accept object.
    fn is_ended<A>(&self, end: (AcceptEnd, u64), accept: &WatchedAccept<A>) -> bool {
        end == (self.end, 0) && accept.calls.as_slice() == self.calls
    }
}

/// A case, and the service whose polls the flag lets go on.
#[derive(Drop)]
struct Accepting<'a, R, W> {
    rt: &'a R,
    alloc: Global,
    case: &'a AcceptCase<'a>,
    service: &'a Arc<W>,
    flag: &'a AtomicBool,
}

impl<'a, R, W> Accepting<'a, R, W> {
    fn new(
        rt: &'a R,
        alloc: Global,
        case: &'a AcceptCase<'a>,
        service: &'a Arc<W>,
        flag: &'a AtomicBool,
    ) -> Accepting<'a, R, W>
        ensures { result.service.now ≡ service.now }
    {
        Accepting {
            rt,
            alloc,
            case,
            service,
            flag,
        }
    }
}

impl<
    R: Threads + Wait + Copy + Send + Sync + Drop + 'static,
    W: SharedService + Send + Sync + 'static,
> Accepting<'_, R, W>
where
    W::Future: Send,
    W::Stream: Send,
{
    /// How the loop ends, and the seat that it gives back. Polls that are held go on then, and all work is joined.
    fn accept<
        A: AsyncAccept,
        C: Clock + Send + Drop + 'static,
        P: Spawner<ConnectionWork<A::Link, C, Silent, W>>,
        H: PreConnect<A::Link>,
    >(
        &self,
        book: &Arc<Book>,
        seat: BookSeat,
        accept: &mut A,
        clock: &C,
        spawner: &mut P,
        hook: &H,
    ) -> (BookSeat, AcceptEnd)
    where
        A::Link: Send + Drop + 'static,
        requires book { seat.book ≡ arc_value book.now }
        requires can_call { W.can_call (arc_value self.now.service.now) }
        ensures { result.0.book ≡ seat.book }
    {
        let (rt, alloc, service, count) = (self.rt, self.alloc, self.service, self.case.count);
        let served = serve_accepts(
            rt, alloc, book, seat, service, accept, clock, spawner, hook, count,
        );
        self.flag.store(true, Ordering::SeqCst);
        spawner.join_all(rt);
        served
    }

    /// How the loop ends with a clock and a spawner in memory, and the seat that it gives back.
    fn accept_in<A: AsyncAccept, H: PreConnect<A::Link>>(
        &self,
        book: &Arc<Book>,
        seat: BookSeat,
        accept: &mut A,
        hook: &H,
    ) -> (BookSeat, AcceptEnd)
    where
        A::Link: Send + Drop + 'static,
        requires book { seat.book ≡ arc_value book.now }
        requires can_call { W.can_call (arc_value self.now.service.now) }
        ensures { result.0.book ≡ seat.book }
    {
        let clock = clock(self.alloc);
        let mut spawner = MemorySpawner::new(self.alloc, Vec::new(self.alloc));
        self.accept(book, seat, accept, &clock, &mut spawner, hook)
    }

    /// How the loop ends in a book, which may be shut down before, and how many slots are taken then.
    fn end_in<A: AsyncAccept, H: PreConnect<A::Link>>(
        &self,
        book: &Arc<Book>,
        mut seat: BookSeat,
        accept: &mut A,
        hook: &H,
    ) -> (AcceptEnd, u64)
    where
        A::Link: Send + Drop + 'static,
        requires book { seat.book ≡ arc_value book.now }
        requires can_call { W.can_call (arc_value self.now.service.now) }
    {
        if self.case.is_shut {
            book.shutdown(self.rt, &mut seat);
        }
        let (mut seat, end) = self.accept_in(book, seat, accept, hook);
        (end, book.look(self.rt, &mut seat).taken)
    }

    /// How the loop ends in a new book with two slots, and how many of them are taken then.
    fn end<A: AsyncAccept, H: PreConnect<A::Link>>(
        &self,
        accept: &mut A,
        hook: &H,
    ) -> (AcceptEnd, u64)
    where
        A::Link: Send + Drop + 'static,
        requires { W.can_call (arc_value self.now.service.now) }
    {
        match book_of(self.alloc, 2) {
            Ok((book, seat)) => self.end_in(&book, seat, accept, hook),
            Err(_) => (AcceptEnd::OutOfMemory, 1),
        }
    }

    /// Whether the loop over an accept object of its own ends as is wanted.
    fn ends_over(&self, seen: &mut Vec<Arc<Seen>>) -> bool
        requires { W.can_call (arc_value self.now.service.now) }
    {
        match self.case.links(*self.rt, self.alloc, seen) {
            Ok(mut accept) => {
                let end = self.end(&mut accept, &Marking);
                self.case.is_ended(end, &accept)
            }
            Err(_) => false,
        }
    }

    /// Whether the loop ends as is wanted, and the links show what is wanted.
    fn holds(&self) -> bool
        requires { W.can_call (arc_value self.now.service.now) }
    {
        let mut seen = Vec::new(self.alloc);
        self.ends_over(&mut seen) && show(self.rt, &seen, self.case.shown, self.case.closed)
    }
}

/// Whether a case is served as is wanted by this service.
fn is_served<
    R: Threads + Wait + Copy + Send + Sync + Drop + 'static,
    W: SharedService + Send + Sync + 'static,
>(rt: &R, alloc: Global, case: &AcceptCase<'_>, service: W, flag: &AtomicBool) -> bool
where
    W::Future: Send,
    W::Stream: Send,
    requires { W.can_call service }
{
    match Arc::new(alloc, service) {
        Ok(service) => Accepting::new(rt, alloc, case, &service, flag).holds(),
        Err(_) => false,
    }
}

/// Whether a case is served as is wanted by a service that holds polls until the loop has ended.
fn holds<R: Threads + Wait + Copy + Send + Sync + Drop + 'static>(
    rt: &R,
    alloc: Global,
    case: &AcceptCase<'_>,
) -> bool {
    match Holding::new(alloc, false, OptRcode::NOERROR) {
        Ok(service) => is_held(rt, alloc, case, service),
        Err(_) => false,
    }
}

/// Whether a case is served as is wanted by this service, whose flag it is given.
fn is_held<R: Threads + Wait + Copy + Send + Sync + Drop + 'static>(
    rt: &R,
    alloc: Global,
    case: &AcceptCase<'_>,
    service: Holding,
) -> bool {
    match Arc::try_clone(&service.flag) {
        Ok(flag) => is_served(rt, alloc, case, WithoutMeta { service }, &flag),
        Err(_) => false,
    }
}

/// Of three connections two are admitted, since there are two slots: the hook is handed each of these once, and each is
/// answered. The third is closed at once. Afterwards no slot is taken.
const THREE: AcceptCase<'static> = AcceptCase {
    queries: &[QUERY, QUERY, QUERY],
    failing: &[],
    again: &[],
    count: 3,
    is_shut: false,
    end: AcceptEnd::Counted,
    calls: b"aaa",
    shown: &[(REPLY, 1), (REPLY, 1), (NOTHING, 0)],
    closed: 1,
};

/// Loops of accepts, by names.
const CASES: &[(&'static str, AcceptCase<'static>)] = &[
    ("the_hook_is_called_once_a_link", THREE),
    // Each accept that brought no connection, also one that failed, is followed by a wait, and no other is.
    (
        "a_wait_follows_each_again",
        AcceptCase {
            queries: &[QUERY, QUERY],
            failing: &[1],
            again: &[0, 3, 4],
            count: 2,
            calls: b"AzFzaAzAza",
            shown: &[(REPLY, 1), (REPLY, 1)],
            ..THREE
        },
    ),
    // A look that shows a shutdown ends the loop before it accepts.
    (
        "a_shutdown_ends_the_loop",
        AcceptCase {
            queries: &[QUERY],
            count: 0,
            is_shut: true,
            end: AcceptEnd::Shutdown,
            calls: b"",
            shown: &[(NOTHING, 0)],
            closed: 0,
            ..THREE
        },
    ),
];

/// What a test ends with, if all are served as is wanted, and else the name of the first that isn't.
fn all_hold<R: Threads + Wait + Copy + Send + Sync + Drop + 'static>(
    rt: &R,
    alloc: Global,
    cases: &[(&'static str, AcceptCase<'_>)],
) -> Result<(), &'static str> {
    for (name, case) in cases {
        if !holds(rt, alloc, case) {
            return Err(name);
        }
    }
    Ok(())
}

/// One connection, whose query has an OPT record.
const LAYERED: &AcceptCase<'static> = &AcceptCase {
    queries: &[FRAME],
    count: 1,
    calls: b"a",
    shown: &[(ANSWER, 1)],
    ..THREE
};

/// Whether a case is served as is wanted by a service in all layers.
fn is_wrapped<
    R: Threads + Wait + Copy + Send + Sync + Drop + 'static,
    S: Service<()> + Send + Sync + 'static,
    N: Notifiable + Send + Sync + 'static,
>(rt: &R, alloc: Global, case: &AcceptCase<'_>, service: S, target: N) -> bool
where
    S::Future: Send,
    S::Stream: Send,
    N::Future: Send,
    requires { S.can_call service }
{
    let flag = AtomicBool::new(false);
    match wrap(alloc, &Settings::new(alloc), service, target) {
        Ok(service) => is_served(rt, alloc, case, WithoutMeta { service }, &flag),
        Err(_) => false,
    }
}

/// Whether that connection is by one that answers that all is well.
fn is_layered<R: Threads + Wait + Copy + Send + Sync + Drop + 'static>(
    rt: &R,
    alloc: Global,
) -> bool {
    match Holding::new(alloc, false, OptRcode::NOERROR) {
        Ok(service) => is_wrapped(rt, alloc, LAYERED, service, target(alloc)),
        Err(_) => false,
    }
}

/// Each loop ends as is wanted of it.
#[test]
fn each_case_is_served(rt: HostRuntime) -> Result<(), &'static str> {
    // A connection to a service in all layers gets its frame.
    if !is_layered(&rt, rt.alloc()) {
        return Err("a_connection_is_answered");
    }
    all_hold(&rt, rt.alloc(), CASES)
}
