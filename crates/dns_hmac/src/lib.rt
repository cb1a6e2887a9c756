//! HMAC (RFC 2104) over SHA-1, SHA-256, SHA-384 and SHA-512 (FIPS 180-4), and a comparison of octets that looks at all
//! of them.
//!
//! - `Algorithm` names the hash function, with the octets of its block and of its digest.
//! - `Hmac` takes a key once and a text piece by piece, and gives its code. A clone of it takes in the next text under
//!   the same key, so that a key is digested once and not for each message.
//! - `Mac` is a code or a digest, whole: 20, 32, 48 or 64 octets.
//! - `same_octets` compares octets without an early end.
//!
//! dns_tsig signs and verifies messages by it.
//!
//! ```text
//! Hmac::new(algorithm, key) -> clone -> update(octets), update(octets), .. -> finalize -> Mac
//! ```
//!
//! # What is proved
//!
//! - A code is `hmac` of RFC 2104, section 2, written over the digests' own definitions, whatever the pieces were. A key
//!   that is longer than a block is digested first.
//! - A code has as many octets as its algorithm's digest (`macs_have_their_size`).
//! - `same_octets` says true exactly if both are the same octets.
//!
//! # What a body could still get away with
//!
//! How long a comparison takes: that it looks at all octets is for a reader of its loop. Keys and digests are not
//! overwritten when their memory is given back.
#![tactic(auto)]

mod algorithm;
mod equal;
mod hasher;
mod hmac;
mod laws;
mod mac;

pub use algorithm::Algorithm;
pub use equal::same_octets;
pub use hmac::Hmac;
pub use laws::macs_have_their_size;
pub use mac::Mac;
