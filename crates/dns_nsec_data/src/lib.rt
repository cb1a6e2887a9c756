//! The NSEC records of a zone: their data read, and the chain that they are (RFC 4034, section 4.1).
//!
//! - `chain_in` gives the `Chain` of a list's NSEC records, whatever their order in the list, or says why they are none
//!   (`NsecError`). dns_denial decides whether the chain is whole for a zone.
//! - `nsecs_in` gives the `Nsec`s in the order of the list, and `nsec_in` that of one record.
//! - `types_in` gives the types of type bit maps, which NSEC3 records have too (RFC 5155, section 3.2.1).
//!
//! ```text
//! data     = next name, type bit maps
//! bit maps = window blocks: a number, the length of a bitmap, the bitmap
//! bit b of the bitmap of window w -> type 256 * w + b; bit 0 is the highest of the first octet
//! ```
//!
//! # What is proved
//!
//! - Types are read exactly if the octets are window blocks whose numbers rise. Each has a bitmap of 1 to 32 octets of which the
//!   last isn't 0 (RFC 4034, section 4.1.2). They are exactly those whose bit is set. No octets list no type.
//! - The `Nsec` of a record has the record's owner, the uncompressed name at which its data begins, and the types after
//!   that.
//! - Of a list each NSEC record is read and no other one. A refused record is the first that isn't an NSEC.
//! - A chain has these NSECs in canonical order, each once for each record. `Twice` comes only if two have one owner.
//!
//! # What a body could still get away with
//!
//! The order of the types of a record, and naming one twice. By reading the code they rise. Bits of pseudo-types are read as
//! others, though they are to be ignored (RFC 4034, section 4.1.2); a chain that lists one isn't whole.
#![tactic(auto)]

mod bit_maps;
mod chain_data;
mod nsec_data;
mod nsec_error;

pub use bit_maps::types_in;
pub use chain_data::chain_in;
pub use nsec_data::{nsec_in, nsecs_in};
pub use nsec_error::NsecError;
