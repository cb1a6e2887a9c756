//! Addresses with a port, for programs that serve at them.
//!
//! - `SocketAddrText` is one as text: the address of IPv6 in brackets (RFC 3986, section 3.2.2), and the port after a colon.
//! - `to_std` is one as std has it.
//! - `same_socket_addr` says whether two are the same.
//! - `unspecified_like` is the unspecified address of the kind of another, for a socket that sends to it.
//! - std is Rattle's library, whose sockets take these.
//!
//! ```text
//! 192.0.2.1:53          [2001:db8:0:0:0:0:0:1]:53
//! ```
//!
//! # What is proved
//!
//! - What std has is made of the octets and the port of the address.
//! - Two addresses are the same exactly if they are of one kind with the same octets and the same port.
//!
//! # What a body could still get away with
//!
//! How an address looks as text is tested alone: the texts of dns_name's addresses have no clause.
#![tactic(auto)]

mod address;
mod text;

pub use address::{same_socket_addr, to_std, unspecified_like};
pub use text::SocketAddrText;
