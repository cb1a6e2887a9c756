//! Keys that name servers share, and what is asked of another server under one (TSIG, RFC 8945).
//!
//! - `PeerKeys` are the keys of a configuration, by their names. `add` makes one of the base64 of its secret, and `get` finds one.
//!   `store` gives them to the layer that signs replies, each at its place. `AddKeyError` says why a key isn't made.
//! - `sign_request` signs a request as a `SignedRequest`, and `verified_reply` gives the reply to it without its TSIG.
//!   `TransferReplies` takes the messages of a transfer. `SignedReplyError` says why one isn't taken.
//!
//! ```text
//! [[key]] -> PeerKeys -> store -> dns_signing
//!                     -> get -> sign_request -> send .. receive -> verified_reply
//! ```
//!
//! A request is signed with 300 s of fudge, after no MAC. A reply has to have the whole MAC.
//!
//! # What is proved
//!
//! - A key that is added has the secret that its base64 writes, and no other has its name. A refused `add` leaves the keys.
//! - `store` has all keys in their order.
//! - A request is signed as RFC 8945, section 4.3, says, at the time that is handed in.
//! - A reply is taken only if it has a TSIG of the key that verifies after the request's MAC and says no error.
//! - The messages of a transfer are taken as a chain after the request's MAC, as dns_tsig has it.
//!
//! # What a body could still get away with
//!
//! The clock is handed in. Nothing here prints a secret: neither `PeerKeys` nor `Key` has a Debug.
#![tactic(auto)]

mod error;
mod peer_keys;
mod reply;
mod request;
mod transfer;

pub use dns_tsig::{Algorithm, Key, KeyStore, Mac};
pub use error::{AddKeyError, SignedReplyError};
pub use peer_keys::PeerKeys;
pub use reply::verified_reply;
pub use request::{SignedRequest, sign_request};
pub use transfer::TransferReplies;
