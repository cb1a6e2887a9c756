//! Replies of a service that are rewritten on their way: what the call of a layer gives that has no reply of its own.
//!
//! - `RewrittenFuture` and `RewrittenStream` are future and stream of the service inside, with a rule or none. Each reply is
//!   rewritten by the rule, if there is one.
//! - `call_rewritten` calls the service inside. The rule is made of what was found in the request before the call, and of how many
//!   octets a reply may take. That is by the hint that the request has after it.
//! - `RuleOf` makes such a rule.
//!
//! ```text
//! request -> what is found -> the service inside -> the rule -> item -> item with its reply rewritten
//! ```
//!
//! Each type names what is inside once. So the types of a service in many such layers grow by one name for each. `Layered` of
//! dns_layers, which a layer with replies of its own can take too, names it twice and its stream twice.
//!
//! No copy of a request is kept: a rule (`Rewrite` of dns_layers) reads nothing of the request again.
//!
//! # What is proved
//!
//! - Each answer is that of the service inside, its reply rewritten by the rule if there is one (`by_rule`).
//! - How many items are left is what the stream inside says.
//! - A call changes nothing of the request but its hint and its reserved octets, and nothing if it is refused.
//!
//! # What a body could still get away with
//!
//! What is copied and how long it takes. By reading the code, an answer is rewritten in place, and one without a rule isn't
//! looked at.
#![tactic(auto)]

mod calls;
mod future;
mod stream;

pub use calls::{RuleOf, call_rewritten};
pub use future::RewrittenFuture;
pub use stream::RewrittenStream;
