//! What a secondary server does with its copy of a zone, and when (RFC 1034, section 4.3.5; RFC 1996). The crate does no
//! input and output: its owner says what time it is and what came of a check, and asks what is to be done.
//!
//! - `ZoneCopy` is the state of one copy: its SOA record, when it was current last, and since when it waits. `is_due`
//!   says whether the primary is to be asked. `begin` marks a check that begins. `offer` takes the SOA record that the
//!   primary has, and says whether its zone replaces the copy. `discard` gives up a copy that is obsolete.
//! - `SoaTimers` are the serial and the three intervals of an SOA record.
//! - `WatchedZone` is a zone and the address of its primary. `woken_by` finds the one that a NOTIFY wakes, which is
//!   then told by `wake`.
//! - `soa_query`, `transfer_query` and `zone_notify` are the messages that are sent.
//!
//! ```text
//! new -> is_due -> begin -> soa_query -> offer: newer -> transfer_query, and the new copy
//!                                            -> not newer -> wait for REFRESH
//!                        -> no answer -> wait for RETRY
//!     -> discard: EXPIRE has passed -> no copy
//! ```
//!
//! Moments are seconds since any moment that the owner picks. A moment that is before another counts as the same.
//!
//! # What is proved
//!
//! - A copy is replaced exactly by a zone whose serial is newer (RFC 1982, section 3.2), or if there is none.
//! - A check is due exactly if the interval has passed for which it waits: REFRESH, or RETRY after a check that
//!   wasn't completed. A second is the least, and it waits a minute if there is no copy.
//! - A copy is discarded exactly if EXPIRE has passed since it was current.
//! - A NOTIFY wakes a zone exactly if it is of class IN, names it and comes from its primary's address.
//! - A check that is asked for while another is going on isn't forgotten.
//! - Each message that is sent is the one of its definition.
//!
//! # What a body could still get away with
//!
//! Nothing is said of what the primary sends; dns_incoming takes that. Whether the owner's clock is right is up to the
//! owner.
#![tactic(auto)]

mod copy;
mod messages;
mod timers;
mod watched;

pub use copy::{Pause, ZoneCopy};
pub use messages::{soa_query, transfer_query, zone_notify};
pub use timers::SoaTimers;
pub use watched::{WatchedZone, woken_by};
