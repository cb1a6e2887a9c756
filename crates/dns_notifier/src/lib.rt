//! NOTIFY to those who are to know of a new serial (RFC 1996), over sockets.
//!
//! - `Notifier` knows the serials that were announced. `tell_changes` announces each zone that is served with another serial than
//!   before to its addresses. `look` takes the answers that came, and sends what waits and what wasn't answered.
//! - `serial_of` is the serial of a zone that is served.
//!
//! ```text
//! a new generation -> tell_changes -> wait -> look: NOTIFY -> look: answered | sent again | given up
//! ```
//!
//! To an address with which a key is shared (RFC 8945), each NOTIFY is signed as it is sent. An answer that doesn't verify is left.
//!
//! A NOTIFY is sent five times at most, 15 s after each other: sooner and no more often than RFC 1996, section 3.6, has as defaults.
//! Each has a socket and an identifier of its own. One without a socket counts as lost, and is sent again. At most 20 are on their
//! way at once, and the others wait in order. What is sent, answered and given up is logged.
//!
//! Moments are milliseconds since any moment that the owner picks.
//!
//! # What is proved
//!
//! - After `tell_changes` the serials of all zones that are served are known as announced.
//! - What is sent under a key is signed, and an answer to it is taken only if it verifies (`Signing`).
//! - Each function is safe and returns. What an answer is, and when it is sent again, is proved of `Asking` of dns_forward.
//!
//! # What a body could still get away with
//!
//! No clause says what a socket gives or takes. That each address gets the NOTIFY of a new serial is a test's matter (`tools/zoned`).
//! So is that it is signed under its key (`tools/interop/keys`).
#![tactic(auto)]

mod known;
mod notifier;
mod pending;
mod signing;

pub use known::serial_of;
pub use notifier::Notifier;
