//! Sockets of datagrams whose replies are limited. So a server that is asked from forged addresses doesn't flood those who have
//! them.
//!
//! - `LimitedSock` is a socket over another one. It judges each reply before it is sent: that goes out whole, as its header with TC
//!   and its questions, or not at all. All else goes through as it is: receives, waits, failures.
//! - `Limiting` is what the sockets of a server share: the tables of dns_rate_limit under a lock, the secret of cookies, counts of
//!   what was limited, and the networks for a log. `follow` goes on to other settings.
//! - `LimitSettings` are the settings of a configuration. `ReplyKind` is the kind of a reply, which is read of its octets.
//! - `GoodCookies` are the requests that came by a good server cookie and aren't answered yet. Their replies aren't limited.
//! - `LimitNote` is a network whose replies are limited. Each has one note a minute at most.
//!
//! ```text
//! request -> the other socket -> its cookie is good: GoodCookies -> the server
//! reply   -> ReplyKind, GoodCookies, the second -> Limits::judge -> Whole:     the reply
//!                                                                -> Truncated: its header with TC and its questions
//!                                                                -> Dropped:   nothing
//! ```
//!
//! The server takes a reply that is dropped for one that was sent. A reply that found no room is judged once. Replies over TCP
//! don't come by here: the sender of such a request has shown its address.
//!
//! # What is proved
//!
//! - The kind of a reply is that of its response code, its answers and its authority section (`kind_of`).
//! - What is done with a reply is what the tables say, which count it (`Tables::judge`). So what dns_rate_limit proves of tables holds of
//!   what is sent: no network is limited by what others ask, and none below its rate.
//! - Below goes out a reply whole, its header with TC and its questions, or nothing (`MovesAsJudged`), to the address that it is for.
//! - A reply to a request with a good server cookie goes out whole (`IsAwaited`). A request is remembered exactly if it has one
//!   (`HasGoodCookie`), and lets one reply through.
//! - Other settings begin with empty tables (`limits_of`).
//! - A network is noted only if it wasn't noted in this minute, and if there is room (`Noted::is_first`).
//!
//! # What a body could still get away with
//!
//! No clause names what stands under a lock. So a verdict is what some tables say of this client, kind and second (`IsJudged`). That
//! they are the server's, and how two replies follow each other, no clause says, nor that what is on is what was set. Without memory a
//! reply isn't limited; one that is to be truncated isn't sent then.
#![tactic(auto)]

mod cookie;
mod good_cookies;
mod limited_sock;
mod limiting;
mod noted;
mod reply_kind;
mod settings;
mod tables;
mod truncation;

pub use cookie::has_good_cookie;
pub use good_cookies::GoodCookies;
pub use limited_sock::LimitedSock;
pub use limiting::{LimitNumbers, Limiting};
pub use noted::LimitNote;
pub use reply_kind::ReplyKind;
pub use settings::LimitSettings;
pub use truncation::emptied;
