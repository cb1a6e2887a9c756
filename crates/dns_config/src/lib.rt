//! The configuration of a name server, which is written in TOML.
//!
//! - `read_config` reads a text as a `Config`. A key that isn't known is refused by its name, and so is a value of
//!   another form. `ConfigError` says why, with line and column.
//! - `Config` says at which addresses it listens, which zones are served of which files, which have a primary, and to whom they
//!   are transferred. `settings` gives the settings of the layers and of both transports, and `workers` how many serve
//!   datagrams.
//! - `KeyEntry` is a key that is shared with other servers, with its secret or the file that has it. `Peer` is such a server,
//!   and `AllowedNetwork` a network; each may name a key.
//! - `RateLimit` says how many replies a second a client network is sent over UDP.
//! - `read_address`, `read_endpoint`, `read_prefix`, `read_secret` and `read_algorithm` read single values.
//!
//! ```text
//! text -> read_config -> Config -> settings -> wrap and the servers
//! ```
//!
//! The crate reads no file. No secret has a Debug.
//!
//! # What is proved
//!
//! - An address, an address with a port, a network, an algorithm and a secret of cookies are what their texts write; else
//!   there is none.
//! - Each key of limits and timeouts sets its value, limited to the range of the setter. A key that isn't there leaves
//!   the value that one starts from.
//! - A configuration that was read names an address at which it listens.
//!
//! # What a body could still get away with
//!
//! What `toml` and `serde` read of a document is tested alone: a derived reader has no clause.
#![tactic(auto)]

mod address;
mod config;
mod fields;
mod key;
mod peer;
mod prefix;
mod rate_limit;
mod secret;

pub use address::{Endpoint, PeerAddress, read_address, read_endpoint};
pub use config::{Config, ConfigError, Cookies, Limits, Timeouts, ZoneEntry, read_config};
pub use fields::{AddressList, Identifier, ZoneName, is_identifier};
pub use key::{KeyAlgorithm, KeyEntry, KeyName, KeySecret, read_algorithm};
pub use peer::{AllowedNetwork, Peer};
pub use prefix::{Prefix, read_prefix};
pub use rate_limit::RateLimit;
pub use secret::{Secret, read_secret};
