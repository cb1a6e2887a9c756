//! What a server is told by, from another thread.

ghost use Rattle.std.specs.Prelude.{◌≡◌, ◌↔◌, Ok, IsTrue, MatchOption, true};
ghost use Rattle.std.specs.Arc.{arc_value};
ghost use Rattle.dns_io.specs.Causes.{Observed};
ghost use Rattle.dns_book.specs.Seats.{Called, state_met};
ghost use Rattle.dns_transport.specs.Controls.{IsDown, Reconfigured, Awaited, ReadAgain, TimePassed};

use dns_book::{Book, BookSeat, Call, Reply};
use dns_host::pause;
use dns_io::Clock;
use dns_service::{DgramConfig, Error, StreamConfig};
use std::marker::Model;
use std::sync::{Arc, Wait};

/// How long it waits between two looks, in milliseconds.
const MAX_PAUSE_MS: u64 = 100;

/// A seat at a server's book, from which the server is reconfigured, shut down and looked at. In clauses it is what the seat
/// is.
#[derive(Drop)]
pub struct Control {
    book: Arc<Book>,
    seat: BookSeat,
}

impl Model for Control {
    ghost use Rattle.std.specs.Prelude.{◌≡◌};
    ghost use Rattle.std.specs.Arc.{arc_value};
    ghost use Rattle.dns_book.specs.Seats.{Seated};

    ghost Value = { Seated };

    ghost view = { λ c. c.seat };

    ghost invariant = { λ c. c.seat.book ≡ arc_value c.book };
}

impl Control {
    /// Of a seat at the book.
    pub fn new(book: Arc<Book>, seat: BookSeat) -> Control
        requires { seat.book ≡ arc_value book }
        ensures { result ≡ seat }
    {
        Control { book, seat }
    }

    /// Replaces both configurations, as `Book::reconfigure` does.
    pub fn reconfigure<R: Wait>(
        &mut self,
        rt: &R,
        dgram: DgramConfig,
        stream: StreamConfig,
    ) -> Result<(), Error>
        ensures book { self.new.book ≡ self.old.book }
        ensures called { Reconfigured dgram stream result self.old.known self.new.known }
    {
        match self.book.reconfigure(rt, &mut self.seat, dgram, stream) {
            Ok(_) => Ok(()),
            Err(error) => Err(error),
        }
    }

    /// Shuts the server down. It is never refused.
    pub fn shutdown<R: Wait>(&mut self, rt: &R) -> Result<(), Error>
        ensures book { self.new.book ≡ self.old.book }
        ensures called { Called self.old.known Call.Shutdown
            (Reply.Look (record (state_met self.new.known) { closed = true })) self.new.known }
        ensures never { result ≡ Ok tt }
    {
        self.book.shutdown(rt, &mut self.seat);
        Ok(())
    }

    /// Whether the server was shut down and no slot is taken, by one look.
    pub fn is_shutdown<R: Wait>(&mut self, rt: &R) -> bool
        ensures book { self.new.book ≡ self.old.book }
        ensures called { Called self.old.known Call.Look (Reply.Look (state_met self.new.known)) self.new.known }
        ensures exactly { IsTrue result ↔ IsDown (state_met self.new.known) }
    {
        let look = self.book.look(rt, &mut self.seat);
        look.closed && look.taken == 0
    }

    /// Looks until a look shows that the server was shut down and no slot is taken, or until that many milliseconds have passed. It
    /// reads the clock at first and after each look that does not show this. Between two looks it waits, 100 ms at most.
    #[tactic(auto, using(crate::proofs::Awaiting::looks_none, crate::proofs::Awaiting::passed_told))]
    pub fn await_shutdown<R: Wait, C: Clock>(&mut self, rt: &R, clock: &mut C, millis: u64) -> bool
        ensures book { self.new.book ≡ self.old.book }
        ensures looks { Awaited result self.old.known self.new.known }
        ensures clock { Observed (C.tells clock.new) (C.tells clock.old)
            (TimePassed result millis (C.readings clock.old) (C.readings clock.new)) }
    {
        let first = clock.now();
        for _ in rt.forever() {
            if let Some(down) = self.look_again(rt, clock, first.0, millis) {
                return down;
            }
        }
        unreachable!()
    }

    // One look. If it doesn't show the end, one reading, and the answer if the time since the first reading has passed;
    // else it waits.
    fn look_again<R: Wait, C: Clock>(
        &mut self,
        rt: &R,
        clock: &mut C,
        start: u64,
        millis: u64,
    ) -> Option<bool>
        ensures book { self.new.book ≡ self.old.book }
        ensures called { Called self.old.known Call.Look (Reply.Look (state_met self.new.known)) self.new.known }
        ensures exactly { MatchOption result (¬ IsDown (state_met self.new.known))
            (λ down. IsTrue down ↔ IsDown (state_met self.new.known)) }
        ensures clock { Observed (C.tells clock.new) (C.tells clock.old)
            (ReadAgain result start millis (C.readings clock.old) (C.readings clock.new)) }
    {
        if self.is_shutdown(rt) {
            return Some(true);
        }
        let (now, _) = clock.now();
        let passed = now.saturating_sub(start);
        if passed >= millis {
            return Some(false);
        }
        pause(rt, MAX_PAUSE_MS.min(millis - passed));
        None
    }
}
