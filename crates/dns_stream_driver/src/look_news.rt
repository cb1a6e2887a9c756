//! A look, and its news.

ghost use Rattle.std.specs.Prelude.{◌≡◌, OnOk, OnErr, IfOk};
ghost use Rattle.dns_io.specs.Causes.{Observed};
ghost use Rattle.dns_service.specs.PolledRequest.{request_answer};
ghost use Rattle.dns_recorder.specs.Clocks.{Timed};
ghost use Rattle.dns_recorder.specs.Woven.{seen_with, news_kinds};
ghost use Rattle.dns_recorder.specs.Notes.{NotedKinds, NotedWide};
ghost use Rattle.dns_stream_driver.specs.Blames.{HeardFor};
ghost use Rattle.dns_stream_driver.specs.Steps.{SeesLook, HeardNews, LookedOnce};

use crate::closing::closed_by;
use crate::turn_state::TurnState;
use dns_admission::Look;
use dns_book::{Book, BookSeat};
use dns_io::Clock;
use dns_recorder::{Recorder, note_shutdown, note_version};
use dns_service::{OutOfMemory, SharedService, Why};
use dns_session::ClientCore;
use std::alloc::Global;
use std::sync::Wait;

/// Notes the news of a look, by what was seen before.
#[tactic(auto, using(crate::proofs::LookNewsLaws::wide_none, crate::proofs::LookNewsLaws::wide_version))]
fn note_news<C: Clock, J: Recorder>(
    alloc: Global,
    kept: &TurnState,
    look: &Look,
    clock: &mut C,
    journal: &mut J,
) -> Result<(), OutOfMemory>
    ensures observed { OnOk result (Observed (J.tells journal.new) (J.tells journal.old)
        (NotedKinds (news_kinds kept.now.last look.now) (J.noted journal.old) (J.noted journal.new))) }
    ensures clock { OnOk result (Observed (C.tells clock.new × J.tells journal.new) (C.tells clock.old × J.tells journal.old)
        (Timed (J.noted journal.old) (J.noted journal.new) 0 0 (C.readings clock.old) (C.readings clock.new))) }
    ensures no_memory { OnErr result (Observed (J.tells journal.new) (J.tells journal.old)
        (NotedWide (J.noted journal.old) (J.noted journal.new))) }
{
    note_version(alloc, clock, journal, &kept.last, look)?;
    note_shutdown(alloc, clock, journal, &kept.last, look)?;
    Ok(())
}

/// What was seen, with a look more.
fn with_look(last: &Look, look: &Look) -> Look
    ensures { result ≡ seen_with last.now look.now }
{
    Look {
        closed: last.closed || look.closed,
        ..*look
    }
}

/// The look is added to what was seen, and the core sees it. The answer is why the connection is closed by that, if it is.
fn apply_look<W: SharedService>(
    alloc: Global,
    core: &mut ClientCore<W>,
    kept: &mut TurnState,
    look: &Look,
) -> Result<Option<Why>, OutOfMemory>
    ensures last { kept.new.last ≡ seen_with kept.old.last look.now }
    ensures turn { kept.new.turn ≡ kept.old.turn }
    ensures sees { IfOk result (λ why. SeesLook (request_answer W.Future.answer W.Stream.answer) core.old core.new look.now why) }
{
    kept.last = with_look(&kept.last, look);
    let outs = core.saw(alloc, look)?;
    let why = closed_by(&outs);
    Ok(why)
}

/// One look. Its news are noted, and then the core sees it. The answer is why the connection is closed by that, if it is.
#[tactic(auto, using(crate::proofs::LookNewsLaws::looked_once))]
pub(crate) fn poll_book<R: Wait, C: Clock, J: Recorder, W: SharedService>(
    rt: &R,
    alloc: Global,
    book: &Book,
    seat: &mut BookSeat,
    core: &mut ClientCore<W>,
    kept: &mut TurnState,
    clock: &mut C,
    journal: &mut J,
) -> Result<Option<Why>, OutOfMemory>
    requires { seat.old.book ≡ book.now }
    ensures observed { IfOk result (λ why. Observed (J.tells journal.new) (J.tells journal.old)
        (HeardNews (request_answer W.Future.answer W.Stream.answer) why core.old core.new kept.old.last kept.new.last
        (J.noted journal.old) (J.noted journal.new) seat.old.known seat.new.known)) }
    ensures no_memory { OnErr result (Observed (J.tells journal.new) (J.tells journal.old)
        (NotedWide (J.noted journal.old) (J.noted journal.new))) }
    ensures clock { IfOk result (λ why. Observed (C.tells clock.new × J.tells journal.new) (C.tells clock.old × J.tells journal.old)
        (Timed (J.noted journal.old) (J.noted journal.new) 0 0 (C.readings clock.old) (C.readings clock.new))) }
    ensures blame { IfOk result (λ why. HeardFor
        (request_answer W.Future.answer W.Stream.answer) why core.old core.new seat.old.known seat.new.known) }
    ensures looked { LookedOnce seat.old.known seat.new.known }
    ensures turn { kept.new.turn ≡ kept.old.turn }
    ensures book { seat.new.book ≡ seat.old.book }
{
    let look = book.look(rt, seat);
    match note_news(alloc, kept, &look, clock, journal) {
        Ok(()) => apply_look(alloc, core, kept, &look),
        Err(error) => Err(error),
    }
}
