//! A listener that serves in a thread of its own.

ghost use Rattle.std.specs.Prelude.{◌≡◌, IfOk};
ghost use Rattle.std.specs.Arc.{arc_value};
ghost use Rattle.dns_book.specs.Causes.{HasShutdown};
ghost use Rattle.dns_listener.specs.Listeners.{GivesBack};

use crate::layers::{Outside, serve_zones};
use crate::listener::Listener;
use crate::offer::Offer;
use crate::place::Place;
use dns_book::{Book, BookSeat, BookState};
use dns_middleware::{Notifiable, Settings};
use dns_name::{OutOfMemory, SocketAddr};
use dns_workers::HostEnd;
use std::alloc::Global;
use std::rt::Clock;
use std::sync::{Arc, Wait};
use std::thread::{self, Promise, PromisedHandle, Threads};

/// A book of the configurations of the settings, and its seat.
fn open_book(alloc: Global, settings: &Settings) -> Result<(Arc<Book>, BookSeat), OutOfMemory>
    ensures { IfOk result (λ r. r.1.book ≡ arc_value r.0) }
{
    let state = BookState::new(settings.dgram, settings.stream);
    let (book, seat) = Book::new(alloc, state)?;
    match Arc::new(alloc, book) {
        Ok(book) => Ok((book, seat)),
        Err(_) => Err(OutOfMemory),
    }
}

/// A book of the configurations of the settings twice, and a seat for each.
fn open_twice<R: Wait>(
    rt: &R,
    alloc: Global,
    settings: &Settings,
) -> Result<((Arc<Book>, BookSeat), (Arc<Book>, BookSeat)), OutOfMemory>
    ensures mine { IfOk result (λ r. r.0.1.book ≡ arc_value r.0.0) }
    ensures theirs { IfOk result (λ r. r.1.1.book ≡ arc_value r.1.0) }
{
    let (book, seat) = open_book(alloc, settings)?;
    let theirs = Arc::try_clone(&book)?;
    let (mine, seat) = book.split(rt, seat);
    Ok(((book, mine), (theirs, seat)))
}

/// A listener that is to serve, and what is served.
#[derive(Drop)]
struct Post<R, N> {
    place: Place<R>,
    offer: Offer<N>,
}

impl<
    R: Clock + Threads + Wait + Copy + Send + Sync + 'static,
    N: Notifiable + Send + Sync + 'static,
> Post<R, N>
where
    N::Future: Send,
{
    /// Serves until the book is shut down.
    fn serve(self, rt: R, alloc: Global) -> (Listener<R>, HostEnd)
        ensures { GivesBack self.place.listener result.0 }
    {
        let Post { place, offer } = self;
        let Offer {
            settings,
            service,
            target,
            nsid,
            tally,
            rules,
        } = offer;
        let outside = Outside { tally, rules };
        serve_zones(rt, alloc, place, outside, &settings, nsid, service, target)
    }
}

/// That a thread gives the listener back at which it serves: one with this address, and so many workers.
#[derive(Clone, Copy)]
pub(crate) struct ListenerPromise {
    address: SocketAddr,
    workers: usize,
}

impl<R> Promise<(Listener<R>, HostEnd)> for ListenerPromise {
    ghost use Rattle.std.specs.Prelude.{◌≡◌, length};

    ghost kept_by = { λ p r. (r.0.address ≡ p.address) × (length r.0.workers.items ≡ p.workers) };
}

/// A listener that serves in a thread, which gives it back; and another seat at its book, from which it is shut down.
#[derive(Drop)]
pub struct Running<R> {
    thread: PromisedHandle<(Listener<R>, HostEnd), ListenerPromise>,
    book: Arc<Book>,
    seat: BookSeat,
    ghost at_book: { seat.book ≡ arc_value book },
}

/// What came of a listener that was to serve.
#[derive(Drop)]
pub enum Started<R> {
    /// It serves.
    Running(Running<R>),
    /// There is no memory or no thread for it; its sockets stay open.
    Refused(Listener<R>),
}

impl<R: Clock + Threads + Wait + Copy + Send + Sync + 'static> Running<R> {
    ghost use Rattle.dns_listener.specs.RunningListeners.{StartsAt};

    /// Starts a thread in which a listener serves.
    pub fn start<N: Notifiable + Send + Sync + 'static>(
        rt: R,
        alloc: Global,
        listener: Listener<R>,
        offer: Offer<N>,
    ) -> Started<R>
    where
        N::Future: Send,
        ensures { StartsAt listener result }
    {
        match open_twice(&rt, alloc, &offer.settings) {
            Ok((mine, (book, seat))) => {
                let place = Place {
                    listener,
                    book,
                    seat,
                };
                Running::serving(rt, alloc, Post { place, offer }, mine)
            }
            Err(_) => Started::Refused(listener),
        }
    }

    /// Starts a thread at a post, whose book has another seat. If there is none, the post serves nothing, as its book is shut down.
    fn serving<N: Notifiable + Send + Sync + 'static>(
        rt: R,
        alloc: Global,
        post: Post<R, N>,
        mine: (Arc<Book>, BookSeat),
    ) -> Started<R>
    where
        N::Future: Send,
        requires { mine.1.book ≡ arc_value mine.0 }
        ensures { StartsAt post.place.listener result }
    {
        let (book, mut seat) = mine;
        let promise = ListenerPromise {
            address: post.place.listener.address,
            workers: post.place.listener.workers.len(),
        };
        match thread::spawn_with(&rt, promise, move || post.serve(rt, alloc)) {
            Ok(thread) => Started::Running(Running { thread, book, seat }),
            Err(refused) => {
                let _ = book.shutdown(&rt, &mut seat);
                let serve = refused.value;
                let (listener, _) = serve();
                Started::Refused(listener)
            }
        }
    }
}

impl<R> Running<R> {
    ghost use Rattle.dns_listener.specs.RunningListeners.{IsOf, met_closed};

    /// Whether it was shut down or has ended.
    pub(crate) fn is_closed<W: Wait>(&mut self, rt: &W) -> bool
        ensures { result ≡ met_closed self.new }
    {
        self.book.look(rt, &mut self.seat).closed
    }

    /// Shuts it down: it takes nothing more, and flushes its connections.
    pub(crate) fn close<W: Wait>(&mut self, rt: &W)
        ensures { HasShutdown self.new.seat.known.seen }
    {
        let _ = self.book.shutdown(rt, &mut self.seat);
    }

    /// The listener, and how it was served. Its end is waited for.
    pub(crate) fn join<T: Threads>(self, rt: &T) -> (Listener<R>, HostEnd)
        ensures { IsOf self result.0 }
    {
        let Running { thread, .. } = self;
        thread.join(rt)
    }
}
