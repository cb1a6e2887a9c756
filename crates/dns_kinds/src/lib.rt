//! The other kinds of EDNS option, each with its own shape.
//!
//! - `Expire` holds seconds, or nothing in a client's request (RFC 7314).
//! - `TcpKeepalive` holds an `IdleTimeout` in units of 100 ms, or nothing in a client's request (RFC 7828).
//! - `Chain` and `ChainRef` hold one uncompressed name (RFC 7901).
//! - `ExtendedError` and `ExtendedErrorRef` hold a code and a text (RFC 8914).
//! - `ClientSubnet` holds an address with its source and scope prefix in bits (RFC 7871).
//!
//! Each implements the option traits of dns_name, so that `Opt` of dns_options finds and pushes it. Owned forms are
//! copied by `to_owned` and lent by `for_slice`.
//!
//! # What is proved
//!
//! - Each kind is read and written by one definition, with exactly the stated refusals. A refused parse leaves the
//!   parser. A value that was written reads back (`ReadBack`).
//! - `IdleTimeout::try_from_millis` takes whole units, and is refused exactly if they are no number of 16 bits.
//! - `ExtendedError::set_text` is refused exactly above 65,533 octets, and then leaves the value.
//! - No `ClientSubnet` has a bit past its source prefix, whichever call made it. Masking twice is masking once
//!   (`masking_twice_is_masking_once`).
//! - Orders are those of numbers, names and addresses (`order_is_that_of_values`).
//!
//! # What a body could still get away with
//!
//! Display of subnets, which has rows and no clause.
#![tactic(auto)]

mod chain;
mod expire;
mod exterr;
mod keepalive;
mod laws;
mod mask;
mod subnet;

pub use chain::{Chain, ChainRef, HeldChain};
pub use expire::Expire;
pub use exterr::{ExtendedError, ExtendedErrorRef, HeldExtendedError};
pub use keepalive::{FromDurationError, IdleTimeout, TcpKeepalive};
pub use laws::{masking_twice_is_masking_once, order_is_that_of_values};
pub use subnet::ClientSubnet;
