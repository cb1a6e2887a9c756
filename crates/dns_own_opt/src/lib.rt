//! The OPT record of a server's replies.
//!
//! - `OwnOptSvc` is a layer round a service. Each reply that has an OPT record states the server's own size over UDP, and
//!   DO as the request has it. Options and response code of the record stay.
//! - `OwnOpt` is its rule for the replies to one request.
//!
//! ```text
//! reply with OPT -> size: the server's own (RFC 6891, section 6.2.3), DO: that of the request (RFC 3225, section 3)
//! ```
//!
//! It stands round `wrap` of dns_middleware, whose EDNS layer gives each reply an OPT record if the request has one, with
//! zeros. So no reply gets longer by it.
//!
//! # What is proved
//!
//! - Each answer is that of the service inside, rewritten by `own_opt`. The hint that is left is the service's.
//! - The rule is a function of the request's octets and the server's size.
//!
//! # What a body could still get away with
//!
//! A reply with several OPT records gets one of them. The layers inside give no such reply.
#![tactic(auto)]

mod layer;
mod rule;

pub use layer::OwnOptSvc;
pub use rule::OwnOpt;
