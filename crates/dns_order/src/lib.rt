//! Octets that compare as names do in the canonical order (RFC 4034, section 6.1), for trees of names.
//!
//! - `canonical_key` writes the key of a name: its labels from the last one on, in lower case, each with an end that
//!   sorts first.
//!
//! Whoever keeps names in an ordered map takes the keys as its keys. One search then finds a name, the name before
//! it, and all names below it, which stand next to each other.
//!
//! ```text
//! a.example.  -> key: example | a
//! z.a.example.-> key: example | a | z     begins with the key of a.example.
//! b.example.  -> key: example | b         comes after both
//! ```
//!
//! # What is proved
//!
//! - Keys compare as octets exactly as names compare in the canonical order (`keys_are_ordered`).
//! - Keys are equal exactly if the names are, up to ASCII case (`keys_are_names`).
//! - A key begins with those of the names above it (`keys_begin_alike`), and with the keys of no other names
//!   (`keys_begin_above`).
//! - The call is refused without memory alone.
//!
//! # What a body could still get away with
//!
//! How long a key is, if it keeps this order. By reading the code it has one octet for each octet of a label and one
//! for each label. An octet 0 or 1 takes one more.
#![tactic(auto)]

mod key;
mod laws;

pub use key::canonical_key;
pub use laws::{keys_are_names, keys_are_ordered, keys_begin_above, keys_begin_alike};
