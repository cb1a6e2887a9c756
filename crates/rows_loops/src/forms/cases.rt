//! What is served by services that the tests have in common.

ghost use Rattle.std.specs.Prelude.{◌≡◌};

use crate::forms::counting::Counting;
use crate::forms::forgetful::Forgetful;
use crate::forms::services::{Refusal, refuse};
use crate::forms::watched::Watched;
use dns_book::{Book, BookSeat, BookState};
use dns_middleware::{NoSecondaries, Notifiable, Settings, wrap};
use dns_name::{OutOfMemory, Rcode};
use dns_service::{DgramConfig, Service, SharedService, StreamConfig, WithoutMeta, service_fn};
use std::alloc::Global;
use std::cell::Cell;
use std::sync::Wait;

/// What a case is served by: a service, in a book and by a seat of it.
#[derive(Drop)]
pub(crate) struct Desk<'x, R, W> {
    pub(crate) rt: &'x R,
    pub(crate) alloc: Global,
    pub(crate) book: &'x Book,
    pub(crate) seat: BookSeat,
    pub(crate) service: &'x W,
}

/// What a case is served over: a link or a socket, which keeps its calls, a clock and a recorder.
#[derive(Drop)]
pub(crate) struct Outside<T, C> {
    pub(crate) watched: Watched<T>,
    pub(crate) clock: C,
    pub(crate) journal: Forgetful,
}

impl<T, C> Outside<T, C> {
    /// With memory for that many notes.
    pub(crate) fn new(alloc: Global, inner: T, clock: C, notes: u64) -> Outside<T, C> {
        Outside {
            watched: Watched::new(alloc, inner),
            clock,
            journal: Forgetful::new(alloc, notes),
        }
    }
}

/// What is served, and what is wanted of it.
pub(crate) trait Case {
    /// What it is served over.
    type Outside: Drop;

    /// How the serving ends.
    type End;

    fn outside(&self, alloc: Global) -> Result<Self::Outside, OutOfMemory>;

    /// Serves it at the desk.
    fn serve_at<R: Wait, W: SharedService>(
        &self,
        desk: Desk<'_, R, W>,
        outside: &mut Self::Outside,
    ) -> Self::End
        requires book { desk.seat.book ≡ desk.book.now }
        requires can_call { W.can_call desk.service.now };

    /// Whether it ended so, and what it was served over shows what is wanted.
    fn is_ended(&self, end: Self::End, outside: &Self::Outside) -> bool;
}

/// Whether a case is served so by the service. If memory is short it is not.
fn is_served<R: Wait, S: Service<()> + Drop, K: Case>(
    rt: &R,
    alloc: Global,
    service: S,
    case: &K,
) -> bool
    requires { S.can_call service }
{
    let service = WithoutMeta { service };
    match case.outside(alloc) {
        Ok(mut outside) => is_served_over(rt, alloc, &service, case, &mut outside),
        Err(_) => false,
    }
}

/// Whether a case is served as it wants over `outside`, in a book of its own. It is not if memory runs out.
fn is_served_over<R: Wait, W: SharedService, K: Case>(
    rt: &R,
    alloc: Global,
    service: &W,
    case: &K,
    outside: &mut K::Outside,
) -> bool
    requires { W.can_call service.now }
{
    match Book::new(
        alloc,
        BookState::new(DgramConfig::new(), StreamConfig::new()),
    ) {
        Ok((book, seat)) => {
            let desk = Desk {
                rt,
                alloc,
                book: &book,
                seat,
                service,
            };
            let end = case.serve_at(desk, outside);
            case.is_ended(end, outside)
        }
        Err(_) => false,
    }
}

/// A case, and what it is served by.
#[derive(Clone, Copy)]
pub(crate) enum Trial<K> {
    /// A service that answers each request with the error reply that the name isn't there.
    Refused(K),
    /// A service that counts, and how often it is called and its futures are polled.
    Counted(K, (u64, u64)),
    /// A service in all layers that answers each request with the error reply that the name isn't there. Or it answers, as is said,
    /// that all is well.
    Layered(K, bool),
}

impl<K: Case> Trial<K> {
    /// Whether the case is served as is wanted.
    fn holds<R: Wait>(&self, rt: &R, alloc: Global) -> bool {
        match self {
            Trial::Refused(case) => is_refused(rt, alloc, case),
            Trial::Counted(case, counts) => is_counted(rt, alloc, case, *counts),
            Trial::Layered(case, is_missing) => is_layered(rt, alloc, case, *is_missing),
        }
    }
}

/// What a test ends with, if all trials hold, and else the name of the first that doesn't.
pub(crate) fn all_hold<R: Wait, K: Case>(
    rt: &R,
    alloc: Global,
    trials: &[(&'static str, Trial<K>)],
) -> Result<(), &'static str> {
    for (name, trial) in trials {
        if !trial.holds(rt, alloc) {
            return Err(name);
        }
    }
    Ok(())
}

/// Whether a case is served so by the service that refuses.
fn is_refused<R: Wait, K: Case>(rt: &R, alloc: Global, case: &K) -> bool {
    let service = service_fn::<Refusal, _, _>(refuse, Rcode::NXDOMAIN);
    is_served(rt, alloc, service, case)
}

/// Whether it is by the service that counts, which comes to these counts.
fn is_counted<R: Wait, K: Case>(rt: &R, alloc: Global, case: &K, wanted: (u64, u64)) -> bool {
    let counts = Cell::new((0, 0));
    let service = Counting { counts: &counts };
    is_served(rt, alloc, service, case) && counts.get() == wanted
}

/// Whether it is by the service in all layers.
fn is_layered<R: Wait, K: Case>(rt: &R, alloc: Global, case: &K, is_missing: bool) -> bool {
    let rcode = if is_missing {
        Rcode::NXDOMAIN
    } else {
        Rcode::NOERROR
    };
    let inner = service_fn::<Refusal, _, _>(refuse, rcode);
    is_wrapped(rt, alloc, inner, NoSecondaries {}, case)
}

/// Whether it is by a service in the layers of the first settings.
fn is_wrapped<R: Wait, S: Service<()>, N: Notifiable, K: Case>(
    rt: &R,
    alloc: Global,
    service: S,
    target: N,
    case: &K,
) -> bool
    requires { S.can_call service }
{
    let settings = Settings::new(alloc);
    match wrap(alloc, &settings, service, target) {
        Ok(service) => is_served(rt, alloc, service, case),
        Err(_) => false,
    }
}
