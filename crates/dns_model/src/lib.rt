//! The model of a server, in definitions alone: what all clients are sent for a list of events. The crate has no
//! code.
//!
//! - `own` gives the events that one client hears: its own, and those that all clients hear.
//! - `slate` is what is known of a client after them, and `sent` what it is sent. Both apply `rule` of dns_session to
//!   event after event, from a fresh slate.
//! - `out` is what all clients are sent. For each event, those clients that hear it are sent what `rule` has, by
//!   rising number.
//! - `members` are the clients that are there: exchanges, and connections that hold a slot until a Release finds them
//!   closed.
//! - The configurations in force are those of the settings, or of the last Reconfigure (`Settings`).
//!
//! ```text
//! events -> own -> rule, rule, .. -> sent          (one client)
//! events -> gained, gained, ..    -> out           (all clients)
//! ```
//!
//! # What is proved
//!
//! Nothing here: these definitions are what other crates are proved against.
//!
//! - dns_core: a server sends exactly `out` of its events, and the part of each client is `sent` of its own events.
//! - dns_stream_driver and dns_dgram_driver: what the loops write and send is what the model has for the recorded
//!   events.
//!
//! # What a body could still get away with
//!
//! The model speaks of no time but the moments of its events, and of no memory.
#![tactic(auto)]
