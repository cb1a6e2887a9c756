//! What stands before the upstreams of a forwarding proxy: the layers, and a cache after them. It does no input and
//! output.
//!
//! - `LayeredFront` is the layers of some settings. A NOTIFY is answered NOTAUTH, since a proxy is a secondary of no
//!   zone. Clients of a `Network` that is required to have cookies are denied service over UDP without a good one.
//! - `CachedFront` is the layers with a cache after them. What they pass on is answered out of the cache if that has a young
//!   reply. The replies that are made of answers are kept.
//! - `ServerFront` is another front, whose replies say what a server says of itself: at most 512 octets over UDP without EDNS. OPT
//!   records have the server's own size and the request's DO. With a secret replies carry a server cookie.
//!
//! Each is a `Front` of dns_proxy, whose `Taken` says how a request is taken.
//!
//! ```text
//! request -> layers -> a reply of their own
//!                   -> cache -> a young reply, rewritten by the layers
//!                            -> the message that an upstream is asked -> its answer -> reply, kept and rewritten
//! each reply -> server cookie -> the server's own OPT record -> cut to the size that is allowed
//! ```
//!
//! What is asked has the request's questions, and no OPT record or one of our own, which keeps the DO bit and client
//! subnets (RFC 6891, section 6.1.1). A cookie is never sent on (RFC 7873, section 5.2).
//!
//! # What is proved
//!
//! - A request is answered, and leaves the hint, as in the layers over a service that gives whatever the upstream answered
//!   (`layered`, `cached_over`).
//! - No upstream is asked for what the layers answer themselves (a refused cookie, a NOTIFY), nor for what can't be read or sent.
//!   Nor is one if a young reply is in the cache (`asked_message`, `cached_asks`).
//! - A client of a required network is taken as one whose address is denied service without a good cookie (`settings_for`).
//! - A query over UDP is sent at most as many octets as its hint allows, and without an OPT record 512 (`replies_fit`). Its
//!   replies are those of the front inside, with the cookie and the OPT record that a name server of ours adds (`served`).
//! - The cache is asked only for requests that the layers pass on. It keeps a reply under the seconds at which its query came
//!   (`cache_taken`, `cache_given`).
//!
//! # What a body could still get away with
//!
//! How long a call takes, and how much memory it takes meanwhile.
#![tactic(auto)]

mod cached;
mod layered;
mod networks;
mod sendable;
mod server;
mod server_cookie;
mod server_post;
mod single;

pub use cached::CachedFront;
pub use dns_proxy::{Front, Taken};
pub use layered::LayeredFront;
pub use networks::Network;
pub use server::{ServerFront, replies_fit};
pub use server_post::{ServerPost, ServerRule};
