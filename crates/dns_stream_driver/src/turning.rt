//! Turns: one look, and one own event.

ghost use Rattle.std.specs.Prelude.{◌≡◌, ◌≤◌, IfOk, OnErr};
ghost use Rattle.dns_io.specs.Causes.{Observed};
ghost use Rattle.dns_session.specs.Serving.{serving};
ghost use Rattle.dns_session.specs.Slate.{Slate};
ghost use Rattle.dns_service.specs.PolledRequest.{request_answer};
ghost use Rattle.dns_recorder.specs.Clocks.{Timed};
ghost use Rattle.dns_stream_driver.specs.Rounds.{below_of};
ghost use Rattle.dns_stream_driver.specs.Shown.{Causes};
ghost use Rattle.dns_stream_driver.specs.Steps.{LookedOnce};
ghost use Rattle.dns_stream_driver.specs.Story.{Broken, LooksAlone};
ghost use Rattle.dns_stream_driver.specs.Turning.{MadeTurn, TurnedPart, TurnedFor, BeginsOpen, ClosingStory};

use crate::acting::act;
use crate::look_news::poll_book;
use crate::reading::ROOM;
use crate::turn_state::TurnState;
use dns_admission::Look;
use dns_book::{Book, BookSeat};
use dns_io::{Clock, Link};
use dns_recorder::{Recorder, Waits};
use dns_service::{OutOfMemory, SharedService, Why};
use dns_session::ClientCore;
use std::alloc::Global;
use std::sync::Wait;

/// One look, and one own event if that doesn't close the connection. The answer is why it is closed, if it is.
fn turn_once<R: Wait, L: Link, C: Clock, J: Recorder, W: SharedService>(
    rt: &R,
    alloc: Global,
    book: &Book,
    seat: &mut BookSeat,
    client: u64,
    kept: &mut TurnState,
    core: &mut ClientCore<W>,
    service: &W,
    link: &mut L,
    clock: &mut C,
    journal: &mut J,
    buf: &mut [u8; ROOM],
) -> Result<Option<Why>, OutOfMemory>
    requires book { seat.old.book ≡ book.now }
    requires can_call { W.can_call service.now }
    ensures observed { IfOk result (λ why. Observed (L.tells link.new × J.tells journal.new) (L.tells link.old × J.tells journal.old)
        (MadeTurn (request_answer W.Future.answer W.Stream.answer) (serving (W.answer service.now) (W.hint service.now)) client
        (below_of kept.old.turn) (below_of kept.new.turn) why core.old core.new kept.old.last kept.new.last
        (J.noted journal.old) (J.noted journal.new) seat.old.known seat.new.known (L.traffic link.old) (L.traffic link.new))) }
    ensures clock { IfOk result (λ why. Observed (L.tells link.new × C.tells clock.new × J.tells journal.new)
        (L.tells link.old × C.tells clock.old × J.tells journal.old)
        (Timed (J.noted journal.old) (J.noted journal.new) (L.traffic link.old).full_writes (L.traffic link.new).full_writes
        (C.readings clock.old) (C.readings clock.new))) }
    ensures no_memory { OnErr result (Observed (L.tells link.new × J.tells journal.new) (L.tells link.old × J.tells journal.old)
        (TurnedPart (request_answer W.Future.answer W.Stream.answer) (serving (W.answer service.now) (W.hint service.now)) client
        (below_of kept.old.turn) core.old kept.old.last
        (J.noted journal.old) (J.noted journal.new) seat.old.known seat.new.known (L.traffic link.old) (L.traffic link.new))) }
    ensures cause { IfOk result (λ why. TurnedFor (request_answer W.Future.answer W.Stream.answer)
        (serving (W.answer service.now) (W.hint service.now)) why core.old core.new seat.old.known seat.new.known
        (L.faults link.old) (L.faults link.new)) }
    ensures later { L.faults link.old ≤ L.faults link.new }
    ensures looked { LookedOnce seat.old.known seat.new.known }
    ensures same { seat.new.book ≡ seat.old.book }
{
    match poll_book(rt, alloc, book, seat, core, kept, clock, journal) {
        Ok(None) => act(
            rt, alloc, client, core, service, kept, link, clock, journal, buf,
        ),
        Ok(Some(why)) => Ok(Some(why)),
        Err(_) => Err(OutOfMemory),
    }
}

/// Serves the connection of a core that saw a look, turn by turn, until it is closed.
pub(crate) fn serve_core<R: Wait, L: Link, C: Clock, J: Recorder, W: SharedService>(
    rt: &R,
    alloc: Global,
    core: &mut ClientCore<W>,
    look: &Look,
    client: u64,
    service: &W,
    book: &Book,
    seat: &mut BookSeat,
    link: &mut L,
    clock: &mut C,
    journal: &mut J,
) -> Result<Why, OutOfMemory>
    requires book { seat.old.book ≡ book.now }
    requires can_call { W.can_call service.now }
    ensures observed { IfOk result (λ why. Observed (L.tells link.new × J.tells journal.new) (L.tells link.old × J.tells journal.old)
        ((s : Slate) → BeginsOpen (request_answer W.Future.answer W.Stream.answer)
        (serving (W.answer service.now) (W.hint service.now)) core.old look.now s
        → ClosingStory (serving (W.answer service.now) (W.hint service.now)) s client look.now why
        (J.noted journal.old) (J.noted journal.new) seat.old.known seat.new.known (L.traffic link.old) (L.traffic link.new))) }
    ensures clock { IfOk result (λ why. Observed (L.tells link.new × C.tells clock.new × J.tells journal.new)
        (L.tells link.old × C.tells clock.old × J.tells journal.old)
        (Timed (J.noted journal.old) (J.noted journal.new) (L.traffic link.old).full_writes (L.traffic link.new).full_writes
        (C.readings clock.old) (C.readings clock.new))) }
    ensures no_memory { OnErr result (Observed (L.tells link.new × J.tells journal.new) (L.tells link.old × J.tells journal.old)
        ((s : Slate) → BeginsOpen (request_answer W.Future.answer W.Stream.answer)
        (serving (W.answer service.now) (W.hint service.now)) core.old look.now s
        → Broken (serving (W.answer service.now) (W.hint service.now)) s client
        (J.noted journal.old) (J.noted journal.new) (L.traffic link.old) (L.traffic link.new))) }
    ensures cause { IfOk result (λ why. (s : Slate)
        → BeginsOpen (request_answer W.Future.answer W.Stream.answer)
        (serving (W.answer service.now) (W.hint service.now)) core.old look.now s
        → Causes why seat.old.known seat.new.known (L.faults link.old) (L.faults link.new)) }
    ensures later { L.faults link.old ≤ L.faults link.new }
    ensures seat { LooksAlone seat.old.known seat.new.known }
    ensures same { seat.new.book ≡ seat.old.book }
{
    let mut kept = TurnState {
        last: *look,
        turn: None,
        at: 0,
        waits: Waits::new(),
    };
    let mut buf = [0u8; ROOM];
    for _ in rt.forever() {
        match turn_once(
            rt, alloc, book, seat, client, &mut kept, core, service, link, clock, journal, &mut buf,
        ) {
            Ok(None) => {}
            Ok(Some(why)) => return Ok(why),
            Err(_) => return Err(OutOfMemory),
        }
    }
    unreachable!()
}
