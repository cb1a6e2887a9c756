//! What the loops of serving note, and how long they wait: recorders, readings of the clock, the news of a look,
//! waits.
//!
//! - `Recorder` is what a loop notes each event in, before a core takes it. `VecRecorder` keeps the events. `Silent`
//!   keeps none: what it noted is there for contracts alone.
//! - `now_is` makes an event of now by one reading of the clock, and `note_moment` notes it.
//! - `note_version` and `note_shutdown` note what a look shows if it is new.
//! - `Waits` counts waits in vain. A pending request is polled again after 1, 2, 4, 8 and 16 ms. An idle connection
//!   waits 250 ms, after 16 waits in vain 1 s, and after 32 of them 4 s.
//! - `pause` waits for some milliseconds, or less.
//!
//! ```text
//! what happened -> now_is (one reading) -> Recorder::note -> core
//! ```
//!
//! # What is proved
//!
//! - `note` appends the event. Without memory it appends nothing, and that is its only refusal.
//! - The event of `now_is` carries one reading of the clock, its client and its kind; the reading is the only one
//!   that was taken.
//! - News of a look are noted exactly if they are new: configurations by their version, the shutdown once.
//! - The waits are those of the definitions (`one_more`, `idle_wait_after`, `repoll_wait_after`).
//!
//! The definitions `Woven` and `Clocks` say how recorded events stand to looks and readings; both loops are proved
//! against them.
//!
//! # What a body could still get away with
//!
//! How long a pause lasts. What a recorder of another crate does with events after it noted them.
#![tactic(auto)]

mod moments;
mod news;
mod recorder;
mod waits;

pub use moments::{MAX_WAIT_MS, note_moment, now_is, pause};
pub use news::{note_shutdown, note_version};
pub use recorder::{Recorder, Silent, VecRecorder};
pub use waits::Waits;
