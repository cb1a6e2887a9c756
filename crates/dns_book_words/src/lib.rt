//! A book's state as the words of one atomic cell.
//!
//! The book of dns_book stands in one cell that all threads load, swap and exchange. This crate says what its words
//! mean: slots taken, version, flags, timeouts, limits and the budget.
//!
//! - `BookWords` are the words. Of the flags, bit 0 says closed, and bit 1 that connections at the limit are
//!   accepted. Bit 2 says that there is a response size, which begins at bit 3.
//! - `book_words` writes the words of a look; `look_of` and `state_in` read them back.
//! - `words_after` gives the words after a call of dns_admission.
//! - `renew` brings a look up to date, and reads no configuration of a version that it has.
//!
//! ```text
//! Look -> book_words -> cell -> state_in -> BookState -> call -> words_after -> cell
//! ```
//!
//! # What is proved
//!
//! - Words stand for a state (`state_of`). `book_words` of a look gives words that stand for it, and what words stand
//!   for is read as it is.
//! - `words_after` gives words for the state that the call leaves (`state_after`).
//! - `renew` leaves exactly what the words stand for. The caller owes that a look of the same version has the same
//!   configurations.
//!
//! # What a body could still get away with
//!
//! Which words it takes for a state, if several stand for one.
#![tactic(auto)]

mod words;

pub use words::{BookWords, book_words, look_of, renew, state_in, words_after};
