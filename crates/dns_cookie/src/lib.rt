//! DNS cookies that interoperate (RFC 7873, RFC 9018): SipHash-2-4, client and server cookies, and the COOKIE option.
//!
//! - `Cookie` is the option: a client cookie, with a server cookie or without.
//! - `ClientCookie` is eight octets that a client chose. `ServerCookie` is the 8 to 32 octets that a server made.
//! - `StandardServerCookie` is the server cookie of RFC 9018, as its 16 octets: version, reserved octets, timestamp
//!   in seconds and hash.
//! - `Cookie::create_response` makes a cookie for a client's address and a secret, and `Cookie::check_server_hash`
//!   checks it.
//! - `timestamp_ok` says whether a timestamp is at most an hour old and five minutes ahead.
//!
//! ```text
//! octets -> Cookie::parse -> check_server_hash(address, secret, timestamp_ok) -> true or false
//! Cookie -> create_response(timestamp, address, secret) -> Cookie -> compose -> octets
//! ```
//!
//! # What is proved
//!
//! - `siphash24` is the hash of the standard, of any octets.
//! - A check is true exactly if the closure accepts the timestamp and the hash agrees (`check_at`).
//! - A cookie that was made checks exactly as long as its timestamp is timely (`responses_check`).
//! - Parsing and composing are those of one definition. A refused call leaves the parser, and the target.
//! - Cookies are ordered by their octets (`order_is_that_of_octets`).
//!
//! Rows show the vectors of RFC 9018 and of the hash's authors.
//!
//! # What a body could still get away with
//!
//! How long a check takes. That a secret stays secret.
#![tactic(auto)]

mod client_cookie;
mod cookie;
mod hex_text;
mod laws;
mod octet_array;
mod server_cookie;
mod siphash;
mod standard_server_cookie;
mod timestamp;

pub use client_cookie::ClientCookie;
pub use cookie::Cookie;
pub use laws::{check_at, order_is_that_of_octets, responses_check};
pub use server_cookie::ServerCookie;
pub use siphash::siphash24;
pub use standard_server_cookie::StandardServerCookie;
pub use timestamp::timestamp_ok;
