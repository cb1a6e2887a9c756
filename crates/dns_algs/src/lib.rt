//! Options that list algorithms: DAU, DHU and N3U (RFC 6975). One body serves all three.
//!
//! - `Dau`, `Dhu` and `N3u` are owned lists: DNSSEC algorithms, DS hash algorithms and NSEC3 hash algorithms.
//!   `DauRef`, `DhuRef` and `N3uRef` borrow their octets.
//! - `Understood` and `UnderstoodRef` are these types for any `Variant`, which says which of the three lists it is.
//!   `AlgList` stands under both.
//! - `SecurityAlgorithmIter` gives the algorithms of a list, in order. An algorithm is one octet.
//!
//! ```text
//! octets -> DauRef::parse or from_slice -> iter, to_owned -> Dau
//! algorithms -> Dau::from_sec_algs -> Dau -> compose -> octets
//! ```
//!
//! # What is proved
//!
//! - All three kinds are read and written by one definition, and a value that was written reads back (`ReadBack`).
//! - `parse` takes all octets that are left. It refuses what is above 65,535 octets, and then leaves the parser.
//! - `from_slice` and `from_octets` take any octets, and are refused exactly above 65,535 of them.
//! - `from_sec_algs` gives the algorithms of the iterator's whole run. It is refused exactly if there are more than
//!   65,535 of them, or without memory.
//! - `into_octets` gives back the octets that came in.
//!
//! # What a body could still get away with
//!
//! How often octets are copied, and the text of Display, which has rows.
#![tactic(auto)]

mod algsig;
mod collect;
mod iter;

pub use algsig::{
    AlgList, Dau, DauRef, DauVariant, Dhu, DhuRef, DhuVariant, N3u, N3uRef, N3uVariant, Understood,
    UnderstoodRef, Variant,
};
pub use iter::SecurityAlgorithmIter;
