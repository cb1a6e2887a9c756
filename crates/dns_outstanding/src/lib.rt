//! The questions that are asked of upstreams at a time, so that none is asked beside an equal one. It does no input and
//! output.
//!
//! - `Outstanding` has each question that is asked (`AskedQuestion`), with the place at which it is.
//! - `ask` begins one, unless an equal one is asked. `place_of` says where it is asked, and `end` ends what is asked at
//!   a place.
//!
//! ```text
//! question -> ask -> begun: send it from a port of its own
//!                 -> asked already, at place_of: hear that answer, or wait for its end
//! ```
//!
//! Who asks an equal question again and again beside the first gives a forged answer many ports and identifiers to
//! find. The birthday attack of RFC 5452, section 5, needs that.
//!
//! # What is proved
//!
//! - Each question is asked at one place at most (`each_once`). Questions are equal if their names are up to ASCII
//!   case, their types and their classes.
//! - `ask` begins a question exactly if no equal one is asked, and else leaves all.
//! - `end` ends what is asked at that place, and nothing else.
//! - Without memory all stays.
//!
//! # What a body could still get away with
//!
//! How long a call takes: by reading the code, as long as it takes to compare each question that is asked.
#![tactic(auto)]

mod outstanding;

pub use outstanding::{AskedQuestion, Outstanding};
