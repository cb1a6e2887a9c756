//! How the layers take a request before any service is asked, for whoever answers later than a call returns.
//!
//! - `decide` says how the layers of some settings take a request, and leaves it the hint that the layers leave.
//! - `Decision` is the outcome: a reply of the layers' own, a NOTIFY for the target, or a request that is passed on.
//!
//! A service in its layers (dns_middleware) answers when it is polled. A proxy asks an upstream first, and hears its
//! answer in a later event. `decide` is the first half of the layers without the service.
//!
//! ```text
//! request -> decide -> a reply of the layers' own
//!                   -> passed on: ask an upstream -> its answer -> rewritten by the layers
//! ```
//!
//! # What is proved
//!
//! - The decision is the one that the service in its layers makes, whatever service is inside.
//! - The request has the same hint afterwards as in the layers.
//! - A refused call leaves the request, and is refused without memory alone.
//!
//! # What a body could still get away with
//!
//! How long a decision takes, the check of a cookie included.
#![tactic(auto)]

mod decision;

pub use decision::{Decision, decide};
