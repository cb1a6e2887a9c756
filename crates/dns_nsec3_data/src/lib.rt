//! The NSEC3 and NSEC3PARAM records of a zone: their data read, and the chain that they are (RFC 5155, sections 3 and 4).
//!
//! - `hashed_names_in` gives the `Hashing` and the `HashedChain` of a list's records, whatever their order in the list, or says why
//!   they are none (`Nsec3Error`). dns_hashed_zone decides whether the chain is whole for a zone.
//! - `owner_hash` gives the hash that an owner's first label is.
//!
//! ```text
//! parameters = algorithm 1, flags, iterations, length of the salt, salt
//! NSEC3PARAM = parameters without flags
//! NSEC3      = parameters, 20, next hash, type bit maps; its owner is a hash in base 32 and the apex
//! ```
//!
//! A zone has one NSEC3PARAM record without flags at its apex. Others, with flags, are ignored (section 4.1.2). Each NSEC3 record
//! has its parameters: a zone with several chains is refused.
//!
//! # What is proved
//!
//! - Parameters, NSEC3PARAM and NSEC3 records are read exactly as `specs/Nsec3Data.antt` says, and each refusal says its cause.
//! - A chain has the NSEC3s of the NSEC3 records in the order of their hashes, each once for each record.
#![tactic(auto)]

mod chain3_data;
mod nsec3_data;
mod nsec3_error;
mod parameters;

pub use chain3_data::{HashedNames, hashed_names_in};
pub use nsec3_data::owner_hash;
pub use nsec3_error::Nsec3Error;
