//! Lists of EDNS options (RFC 6891, section 6.1.2), in which each kind is found by its type. The crate exports all
//! kinds and dns_option_list.
//!
//! - `Opt` owns a list, and `OptRef` borrows one. To contracts both are octets that are an option list.
//! - `first::<Kind>` finds the first option that a type reads, and `iter::<Kind>` all of them. A getter stands there
//!   for each kind: `nsid`, `cookie`, `client_subnet` and so on.
//! - `push` appends an option, and `push_raw_option` one whose data a closure writes.
//! - `AllOptData` is an option of any kind as one enum.
//!
//! The OPT record, with its size and flags, stands in dns_opt.
//!
//! ```text
//! octets -> OptRef::from_slice -> first::<Nsid> -> NsidRef
//! Opt::empty -> push(&nsid) -> push(&cookie) -> into_octets -> octets
//! ```
//!
//! # What is proved
//!
//! - A list has at most 65,535 octets and is always one, after each call.
//! - `from_slice`, `from_octets` and `parse` take exactly the octets that are options one after another
//!   (`option_list`).
//! - A push appends the option. It is refused exactly if list, four octets and data pass 65,535, or without memory,
//!   and then leaves the list.
//! - `push_raw_option` calls its closure once, and checks that it wrote as many octets as stated (`PushedRaw`).
//! - A getter gives none both if there is no such option and if the first one is refused.
//!
//! # What a body could still get away with
//!
//! How often a list is passed over, and how often octets are copied.
#![tactic(auto)]

mod all;
mod getters;
mod list;
mod opt;

pub use all::AllOptData;
pub use dns_algs::{
    Dau, DauRef, Dhu, DhuRef, N3u, N3uRef, SecurityAlgorithmIter, Understood, UnderstoodRef,
};
pub use dns_cookie::Cookie;
pub use dns_kinds::{
    Chain, ChainRef, ClientSubnet, Expire, ExtendedError, ExtendedErrorRef, FromDurationError,
    IdleTimeout, TcpKeepalive,
};
pub use dns_lists::{
    KeyTag, KeyTagIter, KeyTagRef, Nsid, NsidRef, Padding, PaddingRef, UnknownOptData,
    UnknownOptDataRef,
};
pub use dns_name::{BuildDataError, ComposeOptData, LongOptData, OptData, ParseOptData, ReadBack};
pub use dns_option_list::{
    OptIter, OptionHeader, lists_are_joined_options, push_adds_one_pair, written_by,
};
pub use list::{HeldOpt, OptRef};
pub use opt::Opt;
