//! How soon idle workers hear of what changes.

ghost use Rattle.std.specs.Prelude.{◌≡◌, IfOk};
ghost use Rattle.std.specs.Arc.{arc_value};

use crate::machine::{Workers, open_machine, open_workers, served};
use crate::notes::Note;
use dns_book::{Book, BookSeat};
use dns_name::OptRcode;
use dns_outside::{Clock, HostClock};
use dns_service::{DgramConfig, SharedService, StreamConfig, WithoutMeta};
use rows_links::{Holding, book_of};
use std::alloc::{AllocError, Global};
use std::net::Net;
use std::rt;
use std::sync::{Arc, Wait};
use std::thread::{Threads, sleep, spawn};
use std::time::Duration;

/// After how many milliseconds the last of the workers heard of new settings and of the shutdown.
#[derive(Clone, Copy)]
pub(crate) struct Heard {
    pub(crate) settings: u64,
    pub(crate) shutdown: u64,
}

/// What changes the state of a server that is idle for that many milliseconds before each change.
#[derive(Drop)]
struct Changes {
    idle: u64,
    book: Arc<Book>,
    seat: BookSeat,
}

impl Changes {
    /// Replaces the settings, and then shuts the book down. The moments of both.
    fn make<R: rt::Clock + Wait + Copy>(self, rt: &R) -> (u64, u64)
        requires { self.seat.book ≡ arc_value self.book }
    {
        let Changes {
            idle,
            book,
            mut seat,
        } = self;
        let mut clock = HostClock::new(*rt);
        sleep(rt, Duration::from_millis(idle));
        let (settings, _) = clock.now();
        let _ = book.reconfigure(rt, &mut seat, DgramConfig::new(), StreamConfig::new());
        sleep(rt, Duration::from_millis(idle));
        let (shutdown, _) = clock.now();
        book.shutdown(rt, &mut seat);
        (settings, shutdown)
    }
}

/// How long after each moment the last of the workers heard.
fn after<R>(workers: &Workers<R>, moments: (u64, u64)) -> Option<Heard> {
    let settings = Note::Settings.last_moment(workers.as_slice())?;
    let shutdown = Note::Shutdown.last_moment(workers.as_slice())?;
    Some(Heard {
        settings: settings.saturating_sub(moments.0),
        shutdown: shutdown.saturating_sub(moments.1),
    })
}

/// How soon these workers hear, while what changes is made in a thread of its own.
fn heard_by<
    R: Net + rt::Clock + Threads + Wait + Copy + Send + Sync + Drop + 'static,
    W: SharedService + Send + Sync + 'static,
>(
    rt: R,
    alloc: Global,
    changes: Changes,
    workers: Workers<R>,
    service: &Arc<W>,
    book: &Arc<Book>,
    seat: BookSeat,
) -> Option<Heard>
where
    W::Future: Send,
    W::Stream: Send,
    requires changes { changes.seat.book ≡ arc_value changes.book }
    requires book { seat.book ≡ arc_value book.now }
    requires can_call { W.can_call (arc_value service.now) }
{
    let mut machine = open_machine(&rt, alloc, workers).ok()?;
    let changing = spawn(
        &rt,
        move || -> (u64, u64)
            requires { changes.seat.book ≡ arc_value changes.book }
        { changes.make(&rt) },
    )
    .ok()?;
    let _ = served(&rt, alloc, &mut machine, service, book, seat);
    let moments = changing.join(&rt);
    after(&machine.workers, moments)
}

/// What changes, with half of a seat, and the other half.
fn changes_of<R: Wait>(
    rt: &R,
    idle: u64,
    book: &Arc<Book>,
    seat: BookSeat,
) -> Result<(Changes, BookSeat), AllocError>
    requires { seat.book ≡ arc_value book.now }
    ensures { IfOk result (λ r. (r.0.seat.book ≡ arc_value r.0.book) × (r.1.book ≡ arc_value book.now)) }
{
    let theirs = Arc::try_clone(book)?;
    let (first, second) = book.split(rt, seat);
    let changes = Changes {
        idle,
        book: theirs,
        seat: second,
    };
    Ok((changes, first))
}

/// How soon that many workers of loopback hear that were idle for that many milliseconds, if they could be opened and all heard.
pub(crate) fn of_idle<R: Net + rt::Clock + Threads + Wait + Copy + Send + Sync + Drop + 'static>(
    rt: R,
    alloc: Global,
    count: usize,
    idle: u64,
) -> Option<Heard> {
    let (workers, _) = open_workers(rt, alloc, count).ok()?;
    let service = Holding::new(alloc, true, OptRcode::NOERROR).ok()?;
    let service = Arc::new(alloc, WithoutMeta { service }).ok()?;
    let (book, seat) = book_of(alloc, 10).ok()?;
    let (changes, seat) = changes_of(&rt, idle, &book, seat).ok()?;
    heard_by(rt, alloc, changes, workers, &service, &book, seat)
}
