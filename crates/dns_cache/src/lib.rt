//! A bounded cache of replies in front of a single service (RFC 2181, section 8; RFC 2308, section 5).
//!
//! - `Cache::new` makes a cache of 1 to 65,536 replies. `new_with_seed` takes a random state besides, so that names
//!   from queries can't be picked to collide.
//! - `ask` answers from the cache or asks the service, and keeps a reply that can be kept. Its clock is the seconds
//!   of the request.
//! - `young` gives the message that `ask` would answer with out of the cache, built.
//! - `len`, `clear` and `remove` look after the entries.
//!
//! An entry is found by question and DO bit, and its records are kept as they came. Past the capacity the entry that
//! was used longest ago goes.
//!
//! ```text
//! request -> key -> cached and young: the reply with lowered TTLs
//!                -> else: service.turn -> reply -> kept for its least TTL
//! ```
//!
//! # What is proved
//!
//! - `ask` answers and leaves the cache exactly as `asked_cache` says. So does `young`, as over a service that has no answer yet.
//! - A reply out of the cache is an earlier reply of the service to that question. It is younger than its least TTL,
//!   and every TTL is lowered by its age (`cached_replies_are_earlier_ones`).
//! - A reply whose least TTL is 0 isn't kept, nor is one that can't be built.
//! - No more replies are kept than the capacity.
//! - Without memory the cache is as before, and `remove` says whether there was an entry.
//!
//! # What a body could still get away with
//!
//! How much memory an entry takes, and how long a look-up lasts. The seed shows in no contract.
#![tactic(auto)]

mod aged;
mod built;
mod cache;
mod cached_reply;
mod key;
mod laws;
mod marks;

pub use cache::Cache;
pub use laws::cached_replies_are_earlier_ones;
