//! OPT records (RFC 6891), found in messages and built into them. It exports lists of options and each kind of
//! option.
//!
//! - `MessageOpt::opt` and `opt_of` find a message's OPT record, as an `OptRecordRef` with its options.
//! - `OptRef` and `Opt` are lists of options: `first::<Kind>` and a getter for each kind read them, `iter` walks over
//!   them.
//! - `BuildOpt::opt` begins an OPT record in a message that is built, `reopen` builds on the one that is there. Both
//!   lend an `OptBuilder`, with a setter for each part of the head and a call for each kind of option.
//!
//! ```text
//! message.opt() -> OptRecordRef -> options -> cookie(), client_subnet(), ..
//! reply.opt(alloc, |opt| opt.nsid(alloc, b"example"))
//! ```
//!
//! # What is proved
//!
//! - `opt` of a message is the first OPT record of the additional section. There is none if it, or a record before
//!   it, is unreadable (`opt_of`).
//! - An OPT record that was built is the first among the additional records (`opts_read_back`).
//! - A push onto an `OptBuilder` is refused LongOptData if the list would pass 65,535 octets. Else it is refused
//!   ShortBuf exactly if the message would pass its limit (`PushedIn`). If anything is refused, the message is as
//!   before, header included.
//! - `reopen` gives the closure the draft of the record that is there, with the room of the message without it.
//!
//! # What a body could still get away with
//!
//! How often octets are copied. By reading the code, an option list is copied once, into the message.
#![tactic(auto)]

mod build_opt;
mod builder;
mod builder_kinds;
mod header;
mod laws;
mod message_opt;
mod record;
mod written;

pub use build_opt::BuildOpt;
pub use builder::OptBuilder;
pub use dns_cookie::{ClientCookie, ServerCookie};
pub use dns_options::{
    AllOptData, BuildDataError, Chain, ChainRef, ClientSubnet, ComposeOptData, Cookie, Dau, DauRef,
    Dhu, DhuRef, Expire, ExtendedError, ExtendedErrorRef, FromDurationError, IdleTimeout, KeyTag,
    KeyTagIter, KeyTagRef, LongOptData, N3u, N3uRef, Nsid, NsidRef, Opt, OptData, OptIter, OptRef,
    OptionHeader, Padding, PaddingRef, ParseOptData, ReadBack, SecurityAlgorithmIter, TcpKeepalive,
    Understood, UnderstoodRef, UnknownOptData, UnknownOptDataRef,
};
pub use header::OptHeader;
pub use laws::opts_read_back;
pub use message_opt::{MessageOpt, opt_of};
pub use record::{OptRecord, OptRecordRef};
