//! Slots, configurations and the shutdown of a server, shared by threads. It exports the machine of one thread
//! (dns_admission).
//!
//! A `Book` is one atomic cell with a table of configurations. A `BookSeat` is what one thread knows of it. A seat is
//! split for another thread and joined with it again.
//!
//! - `admit` asks for a slot, and `release` gives it back.
//! - `reconfigure` replaces both configurations under the next version, and `shutdown` closes the book.
//! - `look` shows its state.
//!
//! ```text
//! Book::new -> (book, seat); split(seat) -> two seats; each thread: admit, look, .., release; join(seats) -> one seat
//! ```
//!
//! # What is proved
//!
//! - Each call of a seat sees a history that one thread alone could have made. Its last entry is this call with the
//!   reply that was given (`called`). What a seat has seen begins with what it had seen before.
//! - After `join` a seat has seen what both had seen, and has the calls of both.
//! - `admit` answers Full exactly if the book is open and the slots taken are at least the limit, with both numbers. It
//!   answers Closed exactly if the book is closed, from the start or by a shutdown in the history.
//! - `call_both` makes two threads' calls, which stand in one legal history.
//!
//! # What a body could still get away with
//!
//! A call that never returns, which of several legal orders the threads get, and more tries than are needed. Nothing is
//! said of two seats that were never joined. Calls take the handle `Wait`, and `call_both` takes `Threads`.
#![tactic(auto)]

pub mod book;
pub mod both;
pub mod history;
mod rule;

pub use book::{Book, BookSeat};
pub use both::call_both;
pub use dns_admission::{Admission, BookState, Call, Look, Reply};
pub use history::{Entry, Known, Share};
