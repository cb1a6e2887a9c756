//! The denials of a signed zone: which NSEC or NSEC3 records prove what a reply says is absent, and whether a zone's chain
//! of them is whole (RFC 4035, section 3.1.3; RFC 5155, section 7.2).
//!
//! - `Chain` holds the `Nsec`s of a zone in canonical order. `check` decides whether it is whole for a `ZoneTree`, and
//!   says where it isn't (`ChainError`). `denial` and `wildcard_denial` choose those of a reply.
//! - `HashedChain` holds the `Nsec3`s of a zone in the order of their hashes. `denial` chooses those of a reply.
//! - `Hashing` is the hash of names by the parameters of NSEC3PARAM. More than 100 iterations (RFC 9276, appendix A), or a
//!   salt of more than 32 octets, are refused (`HashingError`).
//!
//! Nothing here makes or verifies a signature, or holds a key: zones are signed elsewhere.
//!
//! ```text
//! name exists       -> NSEC of the name, or of the gap that an empty non-terminal lies in
//! name doesn't      -> NSEC of the gap that it lies in, and of the gap or the name of its wildcard
//! delegation point  -> its NSEC
//! ```
//!
//! # What is proved
//!
//! The definitions say what a validator looks for, in the words of the standards (`specs/Validation.antt`: RFC 4035,
//! section 5.4; RFC 6840, section 4; `specs/Nsec3.antt`: RFC 5155, sections 8.3 to 8.9). They and the choice know
//! nothing of each other.
//!
//! - Take a zone that `ZoneTree` serves and whose chain is whole. Two NSECs prove whatever the reply of a name server says of a
//!   name (`each_absence_is_proved`): no such name, no data, an empty non-terminal, an expanded wildcard, no data at a wildcard, a
//!   referral without DS, DS asked of the parent. They prove it among others too, so that the NSECs of a chain of aliases are those
//!   of its names. The question isn't for RRSIG, NSEC or the DS of the apex.
//! - So do three NSEC3s, with Opt-Out or without (`each_absence_is_proved3`). The hashes of the names that are looked for have to
//!   be apart, and the chain to have a proof at all (`IsProvable`: a span with Opt-Out may leave out empty non-terminals).
//! - There is a whole chain of a zone below the root (`example_chain_is_whole3`: two names of RFC 5155, appendix A).
//! - `check` gives Ok exactly for a chain that is whole. Its error is the first record that no NSEC lists, else the first NSEC that
//!   is unfounded, else the first that points elsewhere. A whole chain breaks nowhere (`whole_chains_break_nowhere`).
//! - The NSEC3s of a `HashedDenial` are those of the names that its fields say (`each`).
//! - `hash` is that of RFC 5155, section 5, over the SHA-1 of FIPS 180-4.
//!
//! # What a body could still get away with
//!
//! How many records `check` looks at. By reading the code it walks once for each NSEC, and for each record whose owner isn't that
//! of the record before it. Names below a DNAME record, of which a zone has none (RFC 6672, section 2.4), are looked for among all
//! records.
//!
//! `signed_reply` (`specs/Signed.antt`) is a definition that no function carries out yet.
#![tactic(auto)]

mod chain;
mod chain_error;
mod check;
mod encloser;
mod guide;
mod hash;
mod hashed_denial;
mod laws;
mod nsec;
mod nsec3;
mod records;
mod search;
mod standing;
mod types;
mod wildcard;

pub use chain::{Chain, Denial};
pub use chain_error::ChainError;
pub use hash::{Hashing, HashingError};
pub use hashed_denial::HashedDenial;
pub use laws::{
    ds_is_proved_absent, each_absence_is_proved, each_absence_is_proved3, example_chain_is_whole3,
    expansions_are_proved, expansions_are_proved3, insecure_delegations_are_proved,
    insecure_delegations_are_proved3, name_errors_are_proved, name_errors_are_proved3,
    no_data_is_proved, no_data_is_proved3, opted_out_delegations_are_proved3, signing_adds,
    whole_chains_break_nowhere, wildcard_no_data_is_proved, wildcard_no_data_is_proved3,
};
pub use nsec::Nsec;
pub use nsec3::{HashedChain, Nsec3};
pub use wildcard::wildcard_below;
