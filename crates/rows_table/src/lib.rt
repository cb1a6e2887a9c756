//! Tables of rows: a call, its arguments and what it says, one a line. The programs `rows_*` judge them.
//!
//! - `Calls` is a trait of a program: `answer` looks up a call by its name, and says in the row what it gives. A pair of
//!   such types asks the second for what the first doesn't know.
//! - `Row` lends a call its arguments in order, as octets, names, numbers, texts and addresses, and takes what the call
//!   says. It keeps its first fault, and a row with a fault doesn't hold.
//! - `Steps` is a trait of what a call of several steps works on; `take_steps` of a row takes them in order.
//! - `Page` has the octets of a word in hexadecimal. They are read before the call, so that a call is lent them.
//! - `RowError` is why a row can't be judged, or the `ParseError` that a call answers.
//! - `address_of`, `array_of`, `number_of` read single words.
//! - `run` judges the table on standard input, and prints what it found.
//!
//! ```text
//! a line -> repetitions written out -> at ` = `: the call | what is wanted
//! the call -> Row::word -> Calls::answer -> what the row says, compared with what is wanted
//! each row that differs -> a line; at the end `N rows, M failed`, and the status
//! ```
//!
//! docs/rows.md says how a row is written.
//!
//! # What the tables show
//!
//! - A row holds if its call says exactly what is wanted, has read all its arguments, and the row has no fault.
//! - A row that has no ` = `, names no call or lacks an argument fails. So does one with an argument too many.
//! - The status is 0 only if all rows hold. `rt ci` compares what is printed too, so a lost row is seen.
//!
//! # What they don't show
//!
//! A row is one case. That a call does so for all arguments is said by its contract. The crate has no tests of its own, and
//! nothing here tries that a wrong row fails. The readers of single words have contracts; nothing is promised of the report.
#![tactic(auto)]

mod error;
mod page;
mod repeats;
mod report;
mod row;
mod said;
mod table;
mod words;

pub use error::RowError;
pub use page::Page;
pub use row::Row;
pub use table::{Calls, Steps, run};
pub use words::{address_of, array_of, number_of};
