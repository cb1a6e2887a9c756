//! A service in all four layers as one. It exports the layers, so a user names this crate alone.
//!
//! `wrap` puts a service into the layers of its settings, over a target for NOTIFY. `Wrapped::new` does so for
//! requests with metadata. What it gives is one service with a flat future and a flat stream, which names no layer:
//! `gate` says, as one list of cases, how a request is taken.
//!
//! ```text
//! request -> gate: refused by the mandatory rule | refused by EDNS | a cookie's own reply | a notice | passed on
//! reply   -> the rule of EDNS -> the mandatory rule
//! ```
//!
//! # What is proved
//!
//! - Answers and hint of `wrap` are `replies` and `hint_left` of the settings, the service and the target's verdicts.
//!   They are those of the four layers one inside the other (`wrapped_is_nested`), to every request and poll.
//! - Each reply has the identifier of its request and QR (`wrapped_replies_respond`).
//! - Each reply over UDP has at most `request_limit` octets, which is 512 or more (`wrapped_replies_fit`).
//!
//! # What a body could still get away with
//!
//! What is copied and how long it takes. By reading the code a request is read once, and nothing of it is copied. An
//! OPT record that is built on is put in its place. bench/calls shows figures.
#![tactic(auto)]

mod wrap_post;
mod wrapped;
mod wrapped_calls;
mod wrapped_future;
mod wrapped_stream;

pub use dns_layers::{
    AskStream, CookieAnswer, CookieStream, CookieVerdict, CookiesMiddlewareSvc, EdnsMiddlewareSvc,
    EdnsPost, Layered, MandatoryMiddlewareSvc, MandatoryPost, NoSecondaries, Notice, Notifiable,
    NotifyError, NotifyMiddlewareSvc, NotifyStream, Refusal, Rewrite, Rewriting, VerdictFuture,
    cookie_verdict_of, of_inner, of_mapped, of_own, refuse, replies_fit,
};
pub use dns_service::{MINIMUM_RESPONSE_BYTE_LEN, Settings, cut, cut_fits, items_begin_with_opt};
pub use wrap_post::WrapPost;
pub use wrapped::{
    ComingReplies, Wrapped, WrappedReplies, wrap, wrapped_is_nested, wrapped_replies_fit,
    wrapped_replies_respond,
};
pub use wrapped_calls::{PassPlan, own_rewritten, pass_plan};
pub use wrapped_future::WrappedFuture;
pub use wrapped_stream::WrappedStream;
