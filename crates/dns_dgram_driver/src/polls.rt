//! Polls of exchanges.

ghost use Rattle.std.specs.Prelude.{◌≡◌, ◌<◌, ◌++◌, List, ℕ, [], take, true, false, IfOk};
ghost use Rattle.std.specs.VecDeque.{deque_len};
ghost use Rattle.dns_session.specs.Serving.{serving};
ghost use Rattle.dns_service.specs.PolledRequest.{request_answer};
ghost use Rattle.dns_events.specs.declared.event.EventKind.TheVariants.{Turn};
ghost use Rattle.dns_dgram_driver.specs.Steps.{IsFirstNumber, gone_behind, event_with, numbers_of};
ghost use Rattle.dns_dgram_driver.specs.Rounds.{Turns, StepFails, LoopGoes, Breaks, Finished, SinceNoted};
ghost use Rattle.dns_dgram_driver.specs.LoopParts.{OnlyPolls, ObservedSo, loop_seen, loop_observed};

use crate::dgram_loop::DgramLoop;
use crate::exchanges::{number_first, turn_first};
use crate::notes::{EventHead, note_turn};
use dns_io::{AsyncDgramSock, Clock};
use dns_recorder::{Recorder, pause};
use dns_service::{OutOfMemory, SharedService};
use std::sync::Wait;

impl<R: Wait, W: SharedService, D: AsyncDgramSock, C: Clock, J: Recorder> DgramLoop<
    '_,
    R,
    W,
    D,
    C,
    J,
> {
    /// A Turn of the first exchange, after it was noted, and what is sent for it. Whether its request is done is given.
    #[tactic(auto, using(crate::proofs::Passes::passes_kept))]
    fn turn_noted(&mut self, head: EventHead) -> Result<bool, OutOfMemory>
        requires there { 0 < deque_len self.old.state.now.exchanges }
        requires number { IsFirstNumber head.client self.old.state.now.exchanges.items }
        ensures order { IfOk result (λ done. numbers_of self.new.state.now.exchanges.items
            ≡ gone_behind done (numbers_of self.old.state.now.exchanges.items)) }
        ensures polls { OnlyPolls D.failed_receives D.failed_sends self.old self.new }
        ensures observed { ObservedSo (loop_observed D.tells C.tells J.tells) (loop_seen D.sock_traffic D.failed_sends C.readings J.noted)
            (λ done w s w' s'. SinceNoted (event_with head (Turn 0))
            (λ v. Turns (request_answer W.Future.answer W.Stream.answer)
            (serving (W.answer self.old.service.now) (W.hint self.old.service.now)) head.client true v s w' s') w)
            (λ w s w'. SinceNoted (event_with head (Turn 0))
            (λ v. StepFails (request_answer W.Future.answer W.Stream.answer)
            (serving (W.answer self.old.service.now) (W.hint self.old.service.now)) true v s w') w) result self.old self.new }
    {
        match turn_first(self.alloc, &mut self.state.exchanges, self.spare) {
            Ok((packet, done)) => match self.send_for(head, packet) {
                Ok(()) => Ok(done),
                Err(error) => Err(error),
            },
            Err(error) => Err(error),
        }
    }

    /// Polls the first exchange, which has this number, after its look. Whether its request is done is given.
    #[tactic(auto, using(crate::proofs::Passes::passes_same))]
    fn turn(&mut self, number: u64) -> Result<bool, OutOfMemory>
        requires there { 0 < deque_len self.old.state.now.exchanges }
        requires number { IsFirstNumber number self.old.state.now.exchanges.items }
        ensures order { IfOk result (λ done. numbers_of self.new.state.now.exchanges.items
            ≡ gone_behind done (numbers_of self.old.state.now.exchanges.items)) }
        ensures polls { OnlyPolls D.failed_receives D.failed_sends self.old self.new }
        ensures observed { ObservedSo (loop_observed D.tells C.tells J.tells) (loop_seen D.sock_traffic D.failed_sends C.readings J.noted)
            (λ done. Turns (request_answer W.Future.answer W.Stream.answer)
            (serving (W.answer self.old.service.now) (W.hint self.old.service.now)) number true)
            (StepFails (request_answer W.Future.answer W.Stream.answer)
            (serving (W.answer self.old.service.now) (W.hint self.old.service.now)) true) result self.old self.new }
    {
        match note_turn(self.alloc, self.clock, self.journal, number) {
            Ok(head) => self.turn_noted(head),
            Err(error) => Err(error),
        }
    }

    /// Looks at the book once, then polls the first exchange, which has this number. The result is true if its request
    /// is done.
    fn poll_one(&mut self, number: u64) -> Result<bool, OutOfMemory>
        requires book { self.old.state.now.seat.book ≡ self.old.book.now }
        requires there { 0 < deque_len self.old.state.now.exchanges }
        requires number { IsFirstNumber number self.old.state.now.exchanges.items }
        ensures order { IfOk result (λ done. numbers_of self.new.state.now.exchanges.items
            ≡ gone_behind done (numbers_of self.old.state.now.exchanges.items)) }
        ensures polls { OnlyPolls D.failed_receives D.failed_sends self.old self.new }
        ensures observed { ObservedSo (loop_observed D.tells C.tells J.tells) (loop_seen D.sock_traffic D.failed_sends C.readings J.noted)
            (λ done. Turns (request_answer W.Future.answer W.Stream.answer)
            (serving (W.answer self.old.service.now) (W.hint self.old.service.now)) number false)
            (StepFails (request_answer W.Future.answer W.Stream.answer)
            (serving (W.answer self.old.service.now) (W.hint self.old.service.now)) false) result self.old self.new }
    {
        match self.look_once() {
            Ok(()) => self.turn(number),
            Err(error) => Err(error),
        }
    }

    /// Polls the first exchange, which then stands after all others, or is kept no more if its request is done: that is given.
    fn poll_first(&mut self) -> Result<bool, OutOfMemory>
        requires book { self.old.state.now.seat.book ≡ self.old.book.now }
        requires there { 0 < deque_len self.old.state.now.exchanges }
        ensures order { IfOk result (λ done. numbers_of self.new.state.now.exchanges.items
            ≡ gone_behind done (numbers_of self.old.state.now.exchanges.items)) }
        ensures polls { OnlyPolls D.failed_receives D.failed_sends self.old self.new }
        ensures observed { ObservedSo (loop_observed D.tells C.tells J.tells) (loop_seen D.sock_traffic D.failed_sends C.readings J.noted)
            (λ done w s w' s'. (rest : List ℕ) → LoopGoes (request_answer W.Future.answer W.Stream.answer)
            (serving (W.answer self.old.service.now) (W.hint self.old.service.now)) w s false
            (take 1 (numbers_of s.exchanges.items) ++ rest) w' s' false rest)
            (StepFails (request_answer W.Future.answer W.Stream.answer)
            (serving (W.answer self.old.service.now) (W.hint self.old.service.now)) false) result self.old self.new }
    {
        let number = number_first(&self.state.exchanges);
        self.poll_one(number)
    }

    /// Polls each exchange whose request isn't done once, by rising number.
    pub(crate) fn poll_all(&mut self) -> Result<(), OutOfMemory>
        requires book { self.old.state.now.seat.book ≡ self.old.book.now }
        ensures polls { OnlyPolls D.failed_receives D.failed_sends self.old self.new }
        ensures observed { ObservedSo (loop_observed D.tells C.tells J.tells) (loop_seen D.sock_traffic D.failed_sends C.readings J.noted)
            (λ u w s w' s'. LoopGoes (request_answer W.Future.answer W.Stream.answer)
            (serving (W.answer self.old.service.now) (W.hint self.old.service.now)) w s false (numbers_of s.exchanges.items) w' s' false [])
            (λ w s w'. Breaks (request_answer W.Future.answer W.Stream.answer)
            (serving (W.answer self.old.service.now) (W.hint self.old.service.now)) s.next w s false
            (numbers_of s.exchanges.items) w') result self.old self.new }
    {
        for _polled in 0..self.state.exchanges.len() {
            match self.poll_first() {
                Ok(_done) => {}
                Err(error) => return Err(error),
            }
        }
        Ok(())
    }

    /// Polls each exchange to its end.
    pub(crate) fn finish(&mut self) -> Result<(), OutOfMemory>
        requires book { self.old.state.now.seat.book ≡ self.old.book.now }
        ensures polls { OnlyPolls D.failed_receives D.failed_sends self.old self.new }
        ensures observed { ObservedSo (loop_observed D.tells C.tells J.tells) (loop_seen D.sock_traffic D.failed_sends C.readings J.noted)
            (λ u. Finished (request_answer W.Future.answer W.Stream.answer)
            (serving (W.answer self.old.service.now) (W.hint self.old.service.now)))
            (λ w s w'. Breaks (request_answer W.Future.answer W.Stream.answer)
            (serving (W.answer self.old.service.now) (W.hint self.old.service.now)) s.next w s false [] w') result self.old self.new }
    {
        for _ in self.rt.forever() {
            if self.state.exchanges.is_empty() {
                return Ok(());
            }
            pause(self.rt, self.waits.repoll_wait());
            self.clock.outdate();
            self.waits = self.waits.one_more();
            match self.poll_all() {
                Ok(()) => {}
                Err(error) => return Err(error),
            }
        }
        unreachable!()
    }
}
