//! A book that threads share.

ghost use Rattle.std.specs.Prelude.{ℕ, ◌≡◌, ◌+◌, length};

use dns_book::{Admission, Book, BookSeat, BookState, Call, Look, Reply, call_both};
use dns_service::{DgramConfig, Error, StreamConfig};
use std::alloc::Global;
use std::sync::Wait;
use std::thread::Threads;

const LAST: u64 = 18446744073709551615;

/// Configurations with this limit of connections.
fn with_limit(limit: usize) -> (DgramConfig, StreamConfig) {
    let mut stream = StreamConfig::new();
    stream.set_max_concurrent_connections(limit);
    (DgramConfig::new(), stream)
}

/// What a book with this limit of connections shows.
fn look(version: u64, closed: bool, taken: u64, limit: usize) -> Look {
    let (dgram, stream) = with_limit(limit);
    Look {
        version,
        closed,
        taken,
        dgram,
        stream,
    }
}

/// Whether a book at the last version refuses another configuration, and says its version once it is closed.
fn refuses_a_version<R: Wait>(rt: &R, book: &Book, seat: &mut BookSeat, closed: &Look) -> bool
    requires { seat.old.book ≡ book.now }
{
    let (_, other) = with_limit(7);
    book.reconfigure(rt, seat, closed.dgram, other) == Err(Error::CommandCouldNotBeSent)
        && book.shutdown(rt, seat) == *closed
        && book.reconfigure(rt, seat, closed.dgram, other) == Ok(LAST)
        && book.look(rt, seat) == *closed
}

/// Whether a book at the last version does, and shows this once it is closed.
fn stays<R: Wait>(rt: &R, alloc: Global, closed: &Look) -> bool {
    let state = BookState::resume(closed.dgram, closed.stream, closed.version);
    match Book::new(alloc, state) {
        Ok((book, mut seat)) => refuses_a_version(rt, &book, &mut seat, closed),
        Err(_) => false,
    }
}

/// A configuration in which each connection has this budget.
fn with_budget(count: Option<u32>, window: u64) -> StreamConfig {
    let (_, mut stream) = with_limit(2);
    let mut connection = stream.connection_config();
    connection.set_response_budget(count);
    connection.set_budget_window(window);
    stream.set_connection_config(connection);
    stream
}

/// Whether a book shows the configuration that it is given.
fn shows<R: Wait>(rt: &R, book: &Book, seat: &mut BookSeat, next: &StreamConfig) -> bool
    requires { seat.old.book ≡ book.now }
{
    book.reconfigure(rt, seat, DgramConfig::new(), *next) == Ok(1)
        && book.look(rt, seat).stream == *next
}

/// Whether a new book does.
fn is_shown<R: Wait>(rt: &R, alloc: Global, next: &StreamConfig) -> bool {
    let (dgram, stream) = with_limit(2);
    match Book::new(alloc, BookState::new(dgram, stream)) {
        Ok((book, mut seat)) => shows(rt, &book, &mut seat, next),
        Err(_) => false,
    }
}

/// Both ends of a budget and of its window, and no budget.
const BUDGETS: &[(Option<u32>, u64)] = &[(Some(1), 3_600_000), (Some(1_000_000), 1), (None, 7)];

/// Whether each of these budgets is shown.
fn are_shown<R: Wait>(rt: &R, alloc: Global, budgets: &[(Option<u32>, u64)]) -> bool {
    for (count, window) in budgets {
        if !is_shown(rt, alloc, &with_budget(*count, *window)) {
            return false;
        }
    }
    true
}

/// Whether a book with one slot admits one connection, tells the other that it is full, and admits none once it is closed.
fn admits_one<R: Wait>(rt: &R, book: &Book, seat: &mut BookSeat, taken: &Look) -> bool
    requires { seat.old.book ≡ book.now }
{
    let full = Admission::Full {
        taken: 1,
        limit: 1,
        accepted: true,
    };
    let held = book.admit(rt, seat) == Admission::Admitted(*taken)
        && book.admit(rt, seat) == full
        && book.release(rt, seat) == 0
        && book.release(rt, seat) == 0;
    book.shutdown(rt, seat);
    held && book.admit(rt, seat) == Admission::Closed
}

/// Whether a new book does, and shows this once its slot is taken.
fn has_one_slot<R: Wait>(rt: &R, alloc: Global, taken: &Look) -> bool {
    match Book::new(alloc, BookState::new(taken.dgram, taken.stream)) {
        Ok((book, mut seat)) => admits_one(rt, &book, &mut seat, taken),
        Err(_) => false,
    }
}

/// Whether the machine gives these replies in some order of the calls, and then shows `last`. Each of the two lists keeps its own
/// order.
fn fit_in_some_order(
    state: BookState,
    first: &[(Call, Reply)],
    second: &[(Call, Reply)],
    last: &Look,
) -> bool {
    let mut now = state;
    if first.is_empty() && second.is_empty() {
        return now.look() == *last;
    }
    if let Some(((call, reply), rest)) = first.split_first() {
        let mut next = state;
        if next.call(call) == *reply && fit_in_some_order(next, rest, second, last) {
            return true;
        }
    }
    if let Some(((call, reply), rest)) = second.split_first() {
        let mut next = state;
        return next.call(call) == *reply && fit_in_some_order(next, first, rest, last);
    }
    false
}

/// Two calls with their replies.
fn with_replies(calls: &(Call, Call), replies: &(Reply, Reply)) -> [(Call, Reply); 2] {
    [(calls.0, replies.0), (calls.1, replies.1)]
}

/// Whether two threads at a book in this state get replies that one thread could get.
fn agree_at<R: Threads + Wait + Sync>(
    rt: &R,
    book: &Book,
    mut seat: BookSeat,
    state: BookState,
    first: (Call, Call),
    second: (Call, Call),
) -> bool
    requires { seat.book ≡ book.now }
{
    book.look(rt, &mut seat);
    let (mut seat, replies, others) = call_both(rt, book, seat, first, second);
    let last = book.look(rt, &mut seat);
    fit_in_some_order(
        state,
        &with_replies(&first, &replies),
        &with_replies(&second, &others),
        &last,
    )
}

/// Whether they do at a new book.
fn threads_agree<R: Threads + Wait + Sync>(
    rt: &R,
    alloc: Global,
    state: BookState,
    first: (Call, Call),
    second: (Call, Call),
) -> bool {
    match Book::new(alloc, state) {
        Ok((book, seat)) => agree_at(rt, &book, seat, state, first, second),
        Err(_) => false,
    }
}

/// Whether two threads that ask for a slot agree, and two of which one changes the book.
fn both_agree<R: Threads + Wait + Sync>(
    rt: &R,
    alloc: Global,
    state: BookState,
    replace: &Call,
) -> bool {
    let two = (Call::Admit, Call::Admit);
    let leave = (Call::Admit, Call::Release);
    threads_agree(rt, alloc, state, leave, (Call::Admit, Call::Look))
        && threads_agree(rt, alloc, state, two, (*replace, Call::Shutdown))
}

/// Whether they do each time.
fn always_agree<R: Threads + Wait + Sync>(
    rt: &R,
    alloc: Global,
    state: BookState,
    replace: &Call,
) -> bool {
    for _ in 0..50 {
        if !both_agree(rt, alloc, state, replace) {
            return false;
        }
    }
    true
}

/// Whether threads agree at a book with one slot, of which one gives it two.
fn two_agree<R: Threads + Wait + Sync>(rt: &R, alloc: Global) -> bool {
    let (dgram, stream) = with_limit(1);
    let replace = Call::Reconfigure {
        dgram,
        stream: with_limit(2).1,
    };
    always_agree(rt, alloc, BookState::new(dgram, stream), &replace)
}

/// What the test ends with, if each case holds, and else the name of the first that doesn't.
fn all_hold<R: Threads + Wait + Sync>(rt: &R, alloc: Global) -> Result<(), &'static str> {
    // At the last version no configuration is replaced, and all stays. A closed book says its version.
    if !stays(rt, alloc, &look(LAST, true, 0, 2)) {
        return Err("the_last_version");
    }
    // At both ends of a budget and of its window, and without a budget.
    if !are_shown(rt, alloc, BUDGETS) {
        return Err("budgets_are_shown");
    }
    // With a limit of one the second admit finds no slot.
    if !has_one_slot(rt, alloc, &look(0, false, 1, 1)) {
        return Err("one_slot");
    }
    if !two_agree(rt, alloc) {
        return Err("two_threads");
    }
    Ok(())
}

/// Each case of a book holds.
#[test]
fn each_case_holds(rt: HostRuntime) -> Result<(), &'static str> {
    all_hold(&rt, rt.alloc())
}
