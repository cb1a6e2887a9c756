//! Two threads at one book.
ghost use Rattle.std.specs.Prelude.{◌≡◌, [], ◌∷◌};
ghost use Rattle.dns_book.specs.History.{entry};
ghost use Rattle.dns_book.specs.Gains.{Gained, BothMade, first_name, second_name};

use crate::book::{Book, BookSeat};
use dns_admission::{Call, Reply};
use std::sync::Wait;
use std::thread::{Threads, join};

// Two calls, one after the other.
fn call_twice<R: Wait>(
    rt: &R,
    book: &Book,
    mut seat: BookSeat,
    calls: (Call, Call),
) -> (BookSeat, (Reply, Reply))
    requires { seat.book ≡ book.now }
    ensures book { result.0.book ≡ seat.book }
    ensures name { result.0.known.name ≡ seat.known.name }
    ensures calls { Gained seat.known
        (entry seat.known.name calls.0 result.1.0 ∷ entry seat.known.name calls.1 result.1.1 ∷ []) result.0.known }
{
    let reply = book.call(rt, &mut seat, calls.0);
    let next = book.call(rt, &mut seat, calls.1);
    (seat, (reply, next))
}

/// Makes the first two calls in one thread and the second two in another, each from a half of the
/// seat, and joins the halves. The replies come in the order of the calls.
#[tactic(auto, using(crate::proofs::Gains::two_each))]
pub fn call_both<R: Threads + Wait + Sync>(
    rt: &R,
    book: &Book,
    seat: BookSeat,
    first: (Call, Call),
    second: (Call, Call),
) -> (BookSeat, (Reply, Reply), (Reply, Reply))
    requires { seat.book ≡ book.now }
    ensures book { result.0.book ≡ seat.book }
    ensures both { BothMade seat.known
        (entry (first_name seat.known) first.0 result.1.0 ∷ entry (first_name seat.known) first.1 result.1.1 ∷ [])
        (entry (second_name seat.known) second.0 result.2.0 ∷ entry (second_name seat.known) second.1 result.2.1 ∷ [])
        result.0.known }
{
    let (left, right) = book.split(rt, seat);
    let (a, b) = join(
        rt,
        || -> (BookSeat, (Reply, Reply))
            requires { left.book ≡ book.now }
            ensures book { result.0.book ≡ left.book }
            ensures name { result.0.known.name ≡ left.known.name }
            ensures calls { Gained left.known
                (entry left.known.name first.0 result.1.0 ∷ entry left.known.name first.1 result.1.1 ∷ []) result.0.known }
        { call_twice(rt, book, left, first) },
        || -> (BookSeat, (Reply, Reply))
            requires { right.book ≡ book.now }
            ensures book { result.0.book ≡ right.book }
            ensures calls { Gained right.known
                (entry right.known.name second.0 result.1.0 ∷ entry right.known.name second.1 result.1.1 ∷ []) result.0.known }
        { call_twice(rt, book, right, second) },
    );
    let (left, replies) = a;
    let (right, others) = b;
    (book.join(rt, left, right), replies, others)
}
