//! Options over plain octets and lists of numbers: NSID, PADDING, KEY-TAG, and options of any other code.
//!
//! - `Nsid` and `NsidRef` are the identifier of a name server (RFC 5001), `Padding` and `PaddingRef` padding of a
//!   message (RFC 7830). Both are `Plain`, octets under an `OctetsKind`.
//! - `KeyTag` and `KeyTagRef` are key tags of two octets each (RFC 8145), and `KeyTagIter` gives them in order.
//! - `UnknownOptData` and `UnknownOptDataRef` are octets under any code.
//!
//! Each kind has an owned and a borrowed form, `parse`, the option traits of dns_name, Display, `Eq` and `Hash`.
//! Lists of options stand in dns_options.
//!
//! ```text
//! octets -> NsidRef::parse -> to_owned -> Nsid -> for_slice -> NsidRef -> compose -> octets
//! ```
//!
//! # What is proved
//!
//! - Each kind is read and written by one definition, and a value that was written reads back (`ReadBack`).
//! - `from_slice`, `from_octets` and `UnknownOptData::new` are refused exactly above 65,535 octets.
//! - Key tags are also refused exactly if their octets are no whole tags; the tags are the numbers of two octets
//!   each.
//! - `as_slice_mut` writes octets in place and can't change how many there are.
//! - `into_octets` gives back the octets that came in. A refused parse leaves the parser.
//!
//! # What a body could still get away with
//!
//! How often octets are copied. The texts of Display have rows.
#![tactic(auto)]

mod key_tag;
mod octets_kind;
mod texts;
mod unknown;

pub use key_tag::{HeldKeyTag, KeyTag, KeyTagIter, KeyTagRef};
pub use octets_kind::{
    Nsid, NsidKind, NsidRef, OctetsKind, OctetsOption, Padding, PaddingKind, PaddingRef, Plain,
    PlainRef,
};
pub use unknown::{HeldUnknown, UnknownOptData, UnknownOptDataRef};
