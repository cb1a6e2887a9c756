//! Options that a server adds to its replies: the server cookie of a request with a cookie, and the server's identifier.
//!
//! - `ServerCookieSvc` is a layer round a service. Each reply to a request with a client cookie carries a COOKIE option of
//!   that client cookie and a server cookie: the one that came while it is good and no more than half an hour old, and else
//!   a new one (RFC 7873, section 5.2; RFC 9018, section 4.3).
//! - `NsidSvc` is a layer round a service. Each reply to a request that asks for it carries the identifier of the server
//!   (RFC 5001).
//!
//! ```text
//! request -> the service inside -> reply with OPT -> the option after the others -> cut to the size that is allowed
//! ```
//!
//! They stand round `wrap` of dns_middleware. Its EDNS layer gives each reply an OPT record if the request has one. Its cookie
//! layer gives its own replies a cookie, which stays. Over UDP each reply is cut to the hint that the service inside leaves, which
//! is what client and server allow.
//!
//! # What is proved
//!
//! - Each answer is that of the service inside, with the option if its reply has an OPT record without one.
//! - The cookie is a function of the secret, the time of the request, the client's address and the cookie that came.
//! - A reply over UDP has at most as many octets as its hint allows (`replies_fit`).
//!
//! # What a body could still get away with
//!
//! A reply without an OPT record gets none. A reply over a stream that has no room for the option is left as it is.
#![tactic(auto)]

mod carried;
mod cookie_choice;
mod cookie_layer;
mod cookie_post;
mod nsid_layer;
mod nsid_post;

pub use carried::replies_fit;
pub use cookie_layer::ServerCookieSvc;
pub use cookie_post::CookiePost;
pub use nsid_layer::NsidSvc;
pub use nsid_post::NsidPost;
