//! Response rate limiting: how much of what is to be sent to a client network over UDP is sent. So a server isn't used to flood
//! others from forged addresses.
//!
//! - `Rate` says how many responses a second a client gets whole, and how many of the others are sent truncated.
//! - `Account` counts the responses of one client, and `Limiter` keeps the accounts of many in a table of bounded size.
//! - `Kind` is the kind of a response: an answer, a referral, a negative response of a zone, an error.
//! - `Limits` has a table for each kind, the prefix lengths of networks, and the networks that are exempt. `judge` says
//!   what is done with a response.
//!
//! Nothing here reads a clock or makes a seed: both are handed in.
//!
//! ```text
//! address, cookie, kind, second -> Limits::judge -> Whole, Truncated or Dropped
//! ```
//!
//! # What is proved
//!
//! - What is done with a response to a client is a function of the seconds of the client's own requests
//!   (`clients_are_limited_by_their_own`). These are the last ones that its account still counts.
//! - A client that stays below its rate is sent each response whole, whatever others ask and whatever left the table
//!   (`networks_below_their_rate`).
//! - In one second no more responses are sent whole than the rate says (`limits_hold`).
//! - What leaves the table lets more responses through whole, and never fewer (`forgetting_limits_no_more`). As long as
//!   no more requests came than a table holds, none is forgotten (`small_tables_forget_nothing`).
//! - A table holds no more accounts than its capacity. A client that came by a good cookie or from an exempt network is
//!   not limited, and not counted (`judged`).
//!
//! # What a body could still get away with
//!
//! Seconds have to be handed in in order: one that goes back counts as the latest. Which of the limited responses is
//! sent truncated starts anew if an account leaves. How fast the table is.
#![tactic(auto)]

mod account;
mod kind;
mod laws;
mod limiter;
mod limits;
mod rate;
mod zone_client;

pub use account::Account;
pub use dns_networks::{Network, network_of};
pub use kind::Kind;
pub use laws::{
    clients_are_limited_by_their_own, forgetting_limits_no_more, limits_hold,
    networks_below_their_rate, small_tables_forget_nothing,
};
pub use limiter::Limiter;
pub use limits::{Limits, Settings};
pub use rate::{Rate, Verdict};
pub use zone_client::ZoneClient;
