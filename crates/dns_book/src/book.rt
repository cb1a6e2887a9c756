//! A book that any number of threads share, and the seats from which they call it.
ghost use Rattle.std.specs.Prelude.{◌≡◌, ◌-◌, ◌↔◌, true, false, nat_eq, [], if◌then◌else◌, MatchBool, MatchOption, MatchResult, IfOk};
ghost use lib.Pointwise.{pointwise};
ghost use Rattle.atomic_table.specs.Seated.{TableId};
ghost use Rattle.crossbeam_utils.specs.Seq.{cell_view, IsSamePass};
ghost use Rattle.dns_admission.specs.Machine.{state_after, reply_of};
ghost use Rattle.dns_admission.specs.Admissions.{Admits, Reconfigures};
ghost use Rattle.dns_book.specs.Causes.{WasShutDown};
ghost use Rattle.dns_book.specs.News.{news_of};
ghost use Rattle.dns_book.specs.Seats.{IsSound, Called, Joined, new_known, state_met, first_half, second_half};
ghost use Rattle.dns_book.specs.Words.{state_of};
ghost use Rattle.crossbeam_utils.specs.Register.{Turns, Forks, Merges};
ghost use Rattle.dns_book.specs.Rule.{KeptInOrder, CanCall, Made, Settled, newcomer, opened_as, view_of, IsReady};

use crate::rule::{
    ExpectsWords, Halves, HandOver, Looked, OneHistory, Opened, Read, Settle, TakeIn, Try, View,
};
use atomic_table::{Join, Split};
use crossbeam_utils::atomic::seq_cell::{Pass, RuledSeqCell};
use crossbeam_utils::rule::Outcome;
use dns_admission::{Admission, BookState, Call, Look, Reply};
use dns_book_words::{BookWords, book_words, renew, state_in, words_after};
use dns_events::{DgramConfig, Error, StreamConfig};
use dns_name::OutOfMemory;
use std::alloc::Global;
use std::marker::{Brand, Model};
use std::sync::Wait;

type Cell = RuledSeqCell<BookWords, View, OneHistory, 10>;

type SeatPass = Pass<BookWords, View>;

/// A book for any number of threads. In clauses it is the number that tells it from other books.
#[derive(Drop)]
pub struct Book {
    cell: Cell,
}

impl Model for Book {
    ghost Value = { TableId };

    ghost view = { λ b. b.cell.table.shared.table_id };
}

/// A seat of a book, from which one thread at a time calls it. In clauses it is the book and what
/// the seat knows.
#[derive(Drop)]
pub struct BookSeat {
    pass: Pass<BookWords, View>,
    // Whether the book is open. The first seat opens it at its first call.
    opened: bool,
    // What the book showed the seat last, and before that what it opens with.
    shown: Look,
}

impl Model for BookSeat {
    ghost use Rattle.crossbeam_utils.specs.Seq.{cell_view};
    ghost use Rattle.dns_book.specs.Seats.{Seated};
    ghost use Rattle.dns_book.specs.Rule.{view_of, IsReady};

    ghost Value = { Seated };

    ghost view = { λ s. record { book = s.pass.table_id; known = (view_of s.opened s.shown (cell_view s.pass)).known } };

    ghost invariant = { λ s. IsReady s.opened s.shown (cell_view s.pass) };
}

impl Book {
    /// A book in this state, and its first seat.
    pub fn new(alloc: Global, state: BookState) -> Result<(Book, BookSeat), OutOfMemory>
        ensures { IfOk result (λ r. (r.1.book ≡ r.0) × (r.1.known ≡ new_known state)) }
    {
        let shown = state.shown();
        let (cell, pass): (Cell, SeatPass) = Cell::ruled(alloc, book_words(&shown))?;
        let seat = BookSeat {
            pass,
            opened: false,
            shown,
        };
        Ok((Book { cell }, seat))
    }

    /// Takes a slot, if the book is open and one is free.
    #[tactic(auto, using(crate::proofs::Shutdowns::closed_exactly))]
    pub fn admit<R: Wait>(&self, rt: &R, seat: &mut BookSeat) -> Admission
        requires { seat.old.book ≡ self.now }
        ensures book { seat.new.book ≡ seat.old.book }
        ensures called { Called seat.old.known Call.Admit (Reply.Admission result) seat.new.known }
        ensures cause { Admits (state_met seat.new.known) result }
        ensures closed { (result ≡ Admission.Closed) ↔ WasShutDown seat.new.known }
    {
        self.make(rt, seat, Call::Admit).admit()
    }

    /// Gives a slot back, and says how many are taken now.
    pub fn release<R: Wait>(&self, rt: &R, seat: &mut BookSeat) -> u64
        requires { seat.old.book ≡ self.now }
        ensures book { seat.new.book ≡ seat.old.book }
        ensures called { Called seat.old.known Call.Release (Reply.Left result) seat.new.known }
        ensures left { result ≡ (state_met seat.new.known).taken - 1 }
    {
        self.make(rt, seat, Call::Release).release()
    }

    /// Replaces both configurations, and says the version that is in force now.
    pub fn reconfigure<R: Wait>(
        &self,
        rt: &R,
        seat: &mut BookSeat,
        dgram: DgramConfig,
        stream: StreamConfig,
    ) -> Result<u64, Error>
        requires { seat.old.book ≡ self.now }
        ensures book { seat.new.book ≡ seat.old.book }
        ensures called { Called seat.old.known (Call.Reconfigure dgram stream) (Reply.Version result) seat.new.known }
        ensures cause { Reconfigures (state_met seat.new.known) result }
    {
        self.make(rt, seat, Call::Reconfigure { dgram, stream })
            .reconfigure(dgram, stream)
    }

    /// Closes the book for good.
    pub fn shutdown<R: Wait>(&self, rt: &R, seat: &mut BookSeat) -> Look
        requires { seat.old.book ≡ self.now }
        ensures book { seat.new.book ≡ seat.old.book }
        ensures called { Called seat.old.known Call.Shutdown (Reply.Look result) seat.new.known }
        ensures closed { result ≡ record (state_met seat.new.known) { closed = true } }
    {
        self.make(rt, seat, Call::Shutdown).shutdown()
    }

    /// Shows the book, by one load.
    #[inline(always)]
    pub fn look<R: Wait>(&self, rt: &R, seat: &mut BookSeat) -> Look
        requires { seat.old.book ≡ self.now }
        ensures book { seat.new.book ≡ seat.old.book }
        ensures called { Called seat.old.known Call.Look (Reply.Look result) seat.new.known }
        ensures shown { result ≡ state_met seat.new.known }
    {
        self.open(rt, &mut seat.pass, seat.opened, &seat.shown);
        seat.opened = true;
        let now = self.load::<Looked, R>(rt, &mut seat.pass);
        renew(&mut seat.shown, &now);
        seat.shown
    }

    /// Shows the book, by one load, to who heard of this version, and of the shutdown where that is said. If it shows nothing
    /// new, nothing is given.
    #[inline(always)]
    pub fn look_for_news<R: Wait>(
        &self,
        rt: &R,
        seat: &mut BookSeat,
        version: u64,
        closed: bool,
    ) -> Option<Look>
        requires { seat.old.book ≡ self.now }
        ensures book { seat.new.book ≡ seat.old.book }
        ensures called { Called seat.old.known Call.Look (Reply.Look (state_met seat.new.known)) seat.new.known }
        ensures news { result ≡ news_of version closed (state_met seat.new.known) }
    {
        let shown = self.look(rt, seat);
        if shown.version == version && (closed || !shown.closed) {
            return None;
        }
        Some(shown)
    }

    /// Two seats of one, which have seen what it had seen. The first keeps its calls.
    #[tactic(auto, using(crate::proofs::Halves::sound_first, crate::proofs::Halves::sound_second))]
    pub fn split<R: Wait>(&self, rt: &R, seat: BookSeat) -> (BookSeat, BookSeat)
        requires { seat.book ≡ self.now }
        ensures book { (result.0.book ≡ seat.book) × (result.1.book ≡ seat.book) }
        ensures first { result.0.known ≡ first_half seat.known }
        ensures second { result.1.known ≡ second_half seat.known }
        ensures sound { IsSound seat.known × IsSound result.0.known × IsSound result.1.known }
    {
        let BookSeat {
            mut pass,
            opened,
            shown,
        } = seat;
        self.open(rt, &mut pass, opened, &shown);
        let second = self.cut::<Halves>(&mut pass);
        let first = BookSeat {
            pass,
            opened: true,
            shown,
        };
        let second = BookSeat {
            pass: second,
            opened: true,
            shown,
        };
        (first, second)
    }

    /// One seat of two, which has seen what both had seen, and keeps the calls of both.
    pub fn join<R: Wait>(&self, rt: &R, first: BookSeat, second: BookSeat) -> BookSeat
        requires first { first.book ≡ self.now }
        requires second { second.book ≡ self.now }
        ensures book { result.book ≡ first.book }
        ensures joined { Joined first.known second.known result.known }
    {
        let BookSeat {
            mut pass,
            opened,
            shown,
        } = first;
        self.open(rt, &mut pass, opened, &shown);
        let BookSeat {
            pass: mut other,
            opened: other_opened,
            shown: other_shown,
        } = second;
        self.open(rt, &mut other, other_opened, &other_shown);
        let all = self.cut::<HandOver>(&mut other);
        self.merge::<TakeIn>(&mut pass, all);
        self.settle(rt, &mut pass);
        BookSeat {
            pass,
            opened: true,
            shown,
        }
    }

    /// Makes a call that is given as a value.
    pub fn call<R: Wait>(&self, rt: &R, seat: &mut BookSeat, call: Call) -> Reply
        requires { seat.old.book ≡ self.now }
        ensures book { seat.new.book ≡ seat.old.book }
        ensures called { Called seat.old.known call result seat.new.known }
    {
        match call {
            Call::Admit => Reply::Admission(self.admit(rt, seat)),
            Call::Release => Reply::Left(self.release(rt, seat)),
            Call::Reconfigure { dgram, stream } => {
                Reply::Version(self.reconfigure(rt, seat, dgram, stream))
            }
            Call::Shutdown => Reply::Look(self.shutdown(rt, seat)),
            Call::Look => Reply::Look(self.look(rt, seat)),
        }
    }

    // Opens the book, if it is not open.
    fn open<R: Wait>(&self, rt: &R, pass: &mut SeatPass, opened: bool, shown: &Look)
        requires book { pass.old.table_id ≡ self.now }
        requires ready { IsReady opened shown.now (cell_view pass.old) }
        ensures pass { IsSamePass pass.old pass.new }
        ensures view { cell_view pass.new ≡ view_of opened shown.now (cell_view pass.old) }
        ensures open { IsReady true shown.now (cell_view pass.new) }
    {
        if !opened {
            self.write_opening(rt, pass, shown);
        }
    }

    // Writes the words that the book opens with.
    #[cold]
    fn write_opening<R: Wait>(&self, rt: &R, pass: &mut SeatPass, shown: &Look)
        requires book { pass.old.table_id ≡ self.now }
        requires new { cell_view pass.old ≡ newcomer }
        ensures pass { IsSamePass pass.old pass.new }
        ensures view { cell_view pass.new ≡ opened_as shown.now }
    {
        self.swap::<Opened, R>(rt, pass, book_words(shown));
    }

    // The load after a join, by which the pass has seen the whole history.
    fn settle<R: Wait>(&self, rt: &R, pass: &mut SeatPass)
        requires book { pass.old.table_id ≡ self.now }
        requires live { ((cell_view pass.old).opened ≡ true) × ((cell_view pass.old).live ≡ true) }
        ensures pass { IsSamePass pass.old pass.new }
        ensures settled { Settled (cell_view pass.old) (cell_view pass.new) × CanCall (cell_view pass.new) }
    {
        self.load::<Settle, R>(rt, pass);
    }

    // Makes the call if the cell still has these words, and says whether it had.
    fn attempt<K: ExpectsWords, R: Wait>(
        &self,
        rt: &R,
        pass: &mut SeatPass,
        call: &Call,
        current: BookWords,
        next: BookWords,
    ) -> bool
        requires book { pass.old.table_id ≡ self.now }
        requires open { CanCall (cell_view pass.old) }
        requires asked { (K.ask ≡ call.now) × (K.current ≡ current) }
        requires step { state_of next ≡ state_after (state_of current) call.now }
        ensures pass { IsSamePass pass.old pass.new }
        ensures made { MatchBool result (Made call.now (state_of current) (cell_view pass.old) (cell_view pass.new))
            (cell_view pass.new ≡ cell_view pass.old) }
    {
        self.exchange::<Try<K>, R>(rt, pass, current, next).is_ok()
    }

    // One loop for the four calls: load, compute, exchange, and again if another seat came between.
    // It answers the state in which the call was made.
    fn make_at<R: Wait>(&self, rt: &R, pass: &mut SeatPass, call: Call) -> BookState
        requires book { pass.old.table_id ≡ self.now }
        requires open { CanCall (cell_view pass.old) }
        ensures pass { IsSamePass pass.old pass.new }
        ensures made { Made call result (cell_view pass.old) (cell_view pass.new) }
    {
        for _ in rt.forever() {
            if let Some(found) = self.try_once(rt, pass, &call) {
                return found;
            }
        }
        unreachable!()
    }

    // One pass of the loop of a call: load, compute, exchange. There is none if another seat changed the cell between
    // them.
    fn try_once<R: Wait>(&self, rt: &R, pass: &mut SeatPass, call: &Call) -> Option<BookState>
        requires book { pass.old.table_id ≡ self.now }
        requires open { CanCall (cell_view pass.old) }
        ensures pass { IsSamePass pass.old pass.new }
        ensures made { MatchOption result (cell_view pass.new ≡ cell_view pass.old)
            (λ found. Made call.now found (cell_view pass.old) (cell_view pass.new)) }
    {
        let words = self.load::<Read, R>(rt, pass);
        let found = state_in(&words);
        if self.attempt::<Brand, R>(rt, pass, call, words, words_after(&found, call)) {
            Some(found)
        } else {
            None
        }
    }

    // One load, after which the pass has what the outcome says.
    #[inline(always)]
    fn load<M: Outcome<BookWords, View>, R: Wait>(&self, rt: &R, pass: &mut SeatPass) -> BookWords
        requires book { pass.old.table_id ≡ self.now }
        requires rule { Turns KeptInOrder pass.old.id (cell_view pass.old) (λ x. x) M.then }
        ensures pass { IsSamePass pass.old pass.new }
        ensures outcome { M.then (cell_view pass.old) result result (cell_view pass.new) }
    {
        self.cell.load_as::<M, R>(rt, pass)
    }

    // One swap: the cell gets `words`, and the result is the words that stood there. The pass then has what the
    // outcome says.
    fn swap<M: Outcome<BookWords, View>, R: Wait>(
        &self,
        rt: &R,
        pass: &mut SeatPass,
        words: BookWords,
    ) -> BookWords
        requires book { pass.old.table_id ≡ self.now }
        requires rule { Turns KeptInOrder pass.old.id (cell_view pass.old) (λ _. words) M.then }
        ensures pass { IsSamePass pass.old pass.new }
        ensures outcome { M.then (cell_view pass.old) result words (cell_view pass.new) }
    {
        self.cell.swap_as::<M, R>(rt, pass, words)
    }

    // One compare and exchange: `next` replaces `current`. If other words stand there, they stay, and Err holds them.
    fn exchange<M: Outcome<BookWords, View>, R: Wait>(
        &self,
        rt: &R,
        pass: &mut SeatPass,
        current: BookWords,
        next: BookWords,
    ) -> Result<BookWords, BookWords>
        requires book { pass.old.table_id ≡ self.now }
        requires rule { Turns KeptInOrder pass.old.id (cell_view pass.old) (λ x. if pointwise nat_eq x current then next else x) M.then }
        ensures pass { IsSamePass pass.old pass.new }
        ensures outcome { MatchResult result
            (λ x. (pointwise nat_eq x current ≡ true) × M.then (cell_view pass.old) x next (cell_view pass.new))
            (λ x. (pointwise nat_eq x current ≡ false) × M.then (cell_view pass.old) x x (cell_view pass.new)) }
    {
        self.cell
            .compare_exchange_as::<M, R>(rt, pass, current, next)
    }

    // Two passes of one.
    fn cut<M: Split<View>>(&self, pass: &mut SeatPass) -> SeatPass
        requires book { pass.old.table_id ≡ self.now }
        requires rule { Forks KeptInOrder pass.old.id (cell_view pass.old) (M.left (cell_view pass.old)) (M.right (cell_view pass.old)) }
        ensures kept { IsSamePass pass.old pass.new × (cell_view pass.new ≡ M.left (cell_view pass.old)) }
        ensures given { (result.table_id ≡ pass.old.table_id) × (cell_view result ≡ M.right (cell_view pass.old)) × (result.me.1 ≡ []) }
    {
        self.cell.split_pass::<M>(pass)
    }

    // One pass of two.
    fn merge<M: Join<View>>(&self, pass: &mut SeatPass, other: SeatPass)
        requires book { (pass.old.table_id ≡ self.now) × (other.table_id ≡ pass.old.table_id) × (other.me.1 ≡ []) }
        requires rule { Merges KeptInOrder pass.old.id (cell_view pass.old) other.id (cell_view other)
            (M.both (cell_view pass.old) (cell_view other)) M.spent }
        ensures { IsSamePass pass.old pass.new × (cell_view pass.new ≡ M.both (cell_view pass.old) (cell_view other)) }
    {
        self.cell.join_pass::<M>(pass, other);
    }

    // Makes one call through a seat, which writes the book's first words if it has not yet. The result is the state
    // that the call met.
    fn make<R: Wait>(&self, rt: &R, seat: &mut BookSeat, call: Call) -> BookState
        requires { seat.old.book ≡ self.now }
        ensures book { seat.new.book ≡ seat.old.book }
        ensures called { Called seat.old.known call (reply_of result call) seat.new.known }
        ensures met { state_met seat.new.known ≡ result }
    {
        self.open(rt, &mut seat.pass, seat.opened, &seat.shown);
        seat.opened = true;
        self.make_at(rt, &mut seat.pass, call)
    }
}
