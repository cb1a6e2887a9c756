//! A look, and its news.

ghost use Rattle.std.specs.Prelude.{◌≡◌, false, OnOk, OnErr};
ghost use Rattle.dns_io.specs.Causes.{Observed};
ghost use Rattle.dns_session.specs.Serving.{serving};
ghost use Rattle.dns_service.specs.PolledRequest.{request_answer};
ghost use Rattle.dns_recorder.specs.Notes.{NotedWide};
ghost use Rattle.dns_dgram_driver.specs.Steps.{NewsNoted, hears};
ghost use Rattle.dns_dgram_driver.specs.Rounds.{TakesLook, StepFails};
ghost use Rattle.dns_dgram_driver.specs.LoopParts.{OnlyPolls, ObservedSo, loop_seen, loop_observed};

use crate::dgram_loop::DgramLoop;
use dns_admission::Look;
use dns_io::{AsyncDgramSock, Clock};
use dns_recorder::{Recorder, note_shutdown, note_version};
use dns_service::{OutOfMemory, SharedService};
use std::alloc::Global;
use std::sync::Wait;

/// Notes a look as heard. After a shutdown the configurations stay.
fn note_look(heard: &mut Look, look: &Look)
    ensures { heard.new ≡ hears heard.old look.now }
{
    if heard.closed || look.version == heard.version {
        heard.version = look.version;
        heard.closed = heard.closed || look.closed;
        return;
    }
    *heard = *look;
}

/// Notes the news of a look, and hears them.
#[inline(never)]
pub(crate) fn apply_news<C: Clock, J: Recorder>(
    alloc: Global,
    clock: &mut C,
    journal: &mut J,
    heard: &mut Look,
    look: &Look,
) -> Result<(), OutOfMemory>
    ensures observed { OnOk result (Observed (C.tells clock.new × J.tells journal.new) (C.tells clock.old × J.tells journal.old)
        (NewsNoted heard.old look.now (J.noted journal.old) (J.noted journal.new) (C.readings clock.old) (C.readings clock.new))) }
    ensures heard { OnOk result (heard.new ≡ hears heard.old look.now) }
    ensures unheard { OnErr result (heard.new ≡ heard.old) }
    ensures no_memory { OnErr result (Observed (C.tells clock.new × J.tells journal.new) (C.tells clock.old × J.tells journal.old)
        (NotedWide (J.noted journal.old) (J.noted journal.new))) }
{
    note_version(alloc, clock, journal, heard, look)?;
    note_shutdown(alloc, clock, journal, heard, look)?;
    note_look(heard, look);
    Ok(())
}

impl<R: Wait, W: SharedService, D: AsyncDgramSock, C: Clock, J: Recorder> DgramLoop<
    '_,
    R,
    W,
    D,
    C,
    J,
> {
    /// One look, and its news.
    #[tactic(auto, using(crate::proofs::Unheard::passes_heard, crate::proofs::Unheard::passes_told))]
    #[inline(always)]
    pub(crate) fn look_once(&mut self) -> Result<(), OutOfMemory>
        requires { self.old.state.now.seat.book ≡ self.old.book.now }
        ensures polls { OnlyPolls D.failed_receives D.failed_sends self.old self.new }
        ensures exchanges { self.new.state.now.exchanges ≡ self.old.state.now.exchanges }
        ensures observed { ObservedSo (loop_observed D.tells C.tells J.tells) (loop_seen D.sock_traffic D.failed_sends C.readings J.noted)
            (λ u. TakesLook (request_answer W.Future.answer W.Stream.answer)
            (serving (W.answer self.old.service.now) (W.hint self.old.service.now)))
            (StepFails (request_answer W.Future.answer W.Stream.answer)
            (serving (W.answer self.old.service.now) (W.hint self.old.service.now)) false) result self.old self.new }
    {
        let version = self.state.heard.version;
        let closed = self.state.heard.closed;
        let seat = &mut self.state.seat;
        let news = self.book.look_for_news(self.rt, seat, version, closed);
        match news {
            Some(look) => {
                let heard = &mut self.state.heard;
                apply_news(self.alloc, self.clock, self.journal, heard, &look)
            }
            None => Ok(()),
        }
    }
}
