//! All clients of a server by their numbers, each with its core (dns_session). dns_core stands on it.
//!
//! - `step_at` gives the event of one client to its core. The client leaves if it is finished.
//! - `look_at` lets one client look at what the book shows, and `look_all` all of them by rising number.
//! - `begin` enters a client that begins, and marks its number as used. `turn_away` tells a client that no slot is
//!   free.
//! - `append` puts outputs after others.
//! - `Stepped` says what a client is sent, whether it is finished, and whether it gave its slot back.
//!
//! ```text
//! event -> the core of its client -> outputs | every other core stays
//! look  -> core 3 -> core 7 -> core 12 -> outputs in that order
//! ```
//!
//! # What is proved
//!
//! - A step or a look of one client changes that client's core and leaves all others, by number (`StepsKey`,
//!   `LooksOne`).
//! - An event of a number that isn't there changes nothing and gives no output.
//! - `look_all` gives the outputs of each look joined, by rising number (`LooksAll`).
//! - A client that begins enters exactly if it isn't spent already, and its number is used from then on
//!   (`EntersWith`).
//! - `append` without memory leaves the outputs as they were.
//!
//! # What a body could still get away with
//!
//! What stands in the map after a call was refused for lack of memory. dns_core says nothing of such a server any
//! more.
#![tactic(auto)]

mod clients;

pub use clients::{append, begin, look_all, look_at, step_at, turn_away};
