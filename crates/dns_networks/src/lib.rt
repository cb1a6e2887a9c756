//! Networks of addresses, as access rules name them: an address and the length of its prefix (RFC 4632, section 3.1; RFC 4291,
//! section 2.3).
//!
//! - `Network` is the addresses whose first bits are those of an address. `contains` says whether an address is one of them.
//! - `is_in_any` says so of some networks, as those that may transfer a zone, or those that no limit holds for.
//! - `network_of` is the network of an address: its first bits, and zeros.
//!
//! ```text
//! 192.0.2.0/24   contains 192.0.2.77, and not 192.0.3.1
//! 192.0.2.77/24  is the network of 192.0.2.0/24
//! 192.0.2.1/200  contains 192.0.2.1 alone
//! ```
//!
//! # What is proved
//!
//! - An address is in a network exactly if its prefix is that of the network's address (`is_in_network`).
//! - It is in one of some networks exactly if it is in at least one of them (`is_in_any`).
//! - No call takes memory, and none is refused.
//!
//! # What a body could still get away with
//!
//! How many networks are looked at after one that the address is in.
#![tactic(auto)]

mod network;

pub use network::{Network, is_in_any, network_of};
