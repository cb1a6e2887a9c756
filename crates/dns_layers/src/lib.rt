//! The four layers of a server, each a `Service` round any other one.
//!
//! - `MandatoryMiddlewareSvc` answers IQUERY (NOTIMP) and a QUERY of several questions (FORMERR) by itself. Each
//!   reply is cut over UDP, gets identifier and RD of its request, and has QR set.
//! - `EdnsMiddlewareSvc` answers several OPT records (FORMERR), a version above 0 (BADVERS), and a keepalive with a
//!   timeout (FORMERR) by itself. Each reply gets an OPT record if the request has one.
//! - `CookiesMiddlewareSvc` answers malformed cookies, addresses that need a good cookie, and cookies without a
//!   question by itself. It changes no reply.
//! - `NotifyMiddlewareSvc` answers NOTIFY by its target's verdict. It changes no reply.
//!
//! A layer of one's own is made of `Rewrite` (a rule for replies), `Layered` (its stream), `refuse`, `of_own`,
//! `of_inner` and `of_mapped`. crates/example_layer is one. `NoSecondaries` is a target for a server that is no
//! secondary.
//!
//! # What is proved
//!
//! - A layer's answer to poll k is a stated function of the answers of the service inside. So is the hint that it leaves
//!   (`mandatory`, `edns`, `cookies`, `notify`). So a layer that refuses nothing, or everything, isn't proved.
//! - A reply of the mandatory layer over UDP has at most as many octets as the hint that the service inside left. At
//!   least 512 are allowed (`replies_fit`).
//! - A rule for replies is made at the call and is a function from message to message (`edns_by`, `mand_by`). It
//!   reads nothing of the request again.
//! - A request that is passed on is changed in its hint and its reserved octets alone.
//!
//! # What a body could still get away with
//!
//! What is copied. By reading the code, a layer that stands alone keeps a copy of the request beside the replies that
//! it rewrites; no record is copied if a reply needs no change.
#![tactic(auto)]

mod ask_stream;
mod cookie_replies;
mod cookie_verdict;
mod cookies;
mod edns;
mod edns_post;
mod layered;
mod mandatory;
mod mandatory_post;
mod no_secondaries;
mod notice;
mod notifiable;
mod notify;
mod notify_reply;
mod passing;
mod refusal;
mod rewrite;

pub use ask_stream::{AskStream, ask_owned};
pub use cookie_replies::cookie_own;
pub use cookie_verdict::{CookieAnswer, CookieVerdict};
pub use cookies::{CookieStream, CookiesMiddlewareSvc, cookie_verdict_of};
pub use edns::EdnsMiddlewareSvc;
pub use edns_post::EdnsPost;
pub use layered::{Layered, alone, of_inner, of_mapped, of_own, refuse};
pub use mandatory::MandatoryMiddlewareSvc;
pub use mandatory_post::{MandatoryPost, replies_fit};
pub use no_secondaries::NoSecondaries;
pub use notice::{Notice, notice_of};
pub use notifiable::{Notifiable, NotifyError, VerdictFuture};
pub use notify::{NotifyMiddlewareSvc, NotifyStream};
pub use passing::{call_passed, hint_passed, pass_on};
pub use refusal::{Refusal, read_request, refusal_by, size_by};
pub use rewrite::{Rewrite, Rewriting, rewrite_answer};
