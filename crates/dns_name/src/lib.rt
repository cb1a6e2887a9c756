//! Names, numbers and addresses of the DNS, a parser of octets, and the traits and errors of EDNS options.
//!
//! Every other crate stands on this one. Reading takes no memory.
//!
//! - `Parser` walks over octets: each call takes exactly the octets that it names, or answers ShortInput.
//! - `ParsedName` is a name in a message, with pointers; `NameRef` an uncompressed one that is lent; `Name` an owned
//!   one.
//! - `Class`, `Rtype`, `OptionCode`, `ExtendedErrorCode`, `Opcode`, `Rcode`, `OptRcode` are numbers of IANA's
//!   registries with their names.
//! - `Ttl` and `Serial` are numbers of 32 bits, `IpAddr` and `SocketAddr` addresses.
//! - `Octets` and `Addrs` are lists that are given back without a copy. `OctetStore` holds octets in a vector or
//!   lent.
//! - `OptData`, `ParseOptData`, `ComposeOptData` and `ReadBack` are what each kind of option implements. Their kinds
//!   stand in dns_lists, dns_algs, dns_kinds and dns_cookie.
//!
//! ```text
//! octets -> Parser -> ParsedName::parse -> to_name -> Name
//! text   -> Name::from_text -> Name -> Display -> the same text
//! ```
//!
//! # What is proved
//!
//! - A name is read exactly if the grammar of RFC 1035, sections 3.1 and 4.1.4, has one there. It has at most 255
//!   octets and 255 pointers (`names_are_the_grammar`). The grammar is written apart from the reader. A refused parse
//!   leaves the parser.
//! - Names are lists of labels to contracts. `==` and hashes are up to ASCII case (RFC 4343, section 3). `name_cmp`
//!   is the canonical order of RFC 4034, section 6.1, and it is total (`names_are_ordered`).
//! - `Name::from_text` gives the name of a text or its first refusal, and a name that Display wrote reads back
//!   (`names_read_back`). So does each number of each registry (`codes_read_back`).
//! - No name takes memory to be compared. `try_clone` gives the same name, or no memory.
//!
//! # What a body could still get away with
//!
//! How often octets are passed over. The numbers of the constants are rows against IANA's registries.
#![tactic(auto)]

mod address;
mod error;
mod from_text;
mod iana;
mod labels;
mod laws;
mod name;
mod name_cmp;
mod name_text;
mod name_under;
mod octet_store;
mod octets;
mod opt_data;
mod opt_error;
mod opt_rcode;
mod parsed;
mod parser;
mod piece;
mod registry;
mod registry_names;
mod serial;
mod ttl;

pub use address::{Addrs, IpAddr, SocketAddr};
pub use error::{FormReason, OutOfMemory, ParseError};
pub use from_text::FromTextError;
pub use iana::{
    Class, Classes, Code, ExtendedErrorCode, ExtendedErrorCodes, HeaderCode, Opcode, Opcodes,
    OptionCode, OptionCodes, Rcode, Rcodes, Rtype, Rtypes, SecurityAlgorithm,
};
pub use labels::{Labels, push_lower};
pub use laws::{codes_read_back, names_are_ordered, names_are_the_grammar, names_read_back};
pub use name::{HoldsName, Name, NameRef};
pub use octet_store::{HoldsOctets, OctetStore};
pub use octets::Octets;
pub use opt_data::{ComposeOptData, OptData, ParseOptData, ReadBack};
pub use opt_error::{BuildDataError, LongOptData};
pub use opt_rcode::OptRcode;
pub use parsed::ParsedName;
pub use parser::Parser;
pub use registry::{Registered, Registry};
pub use serial::Serial;
pub use ttl::Ttl;
