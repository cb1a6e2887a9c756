//! Single services, a router over them, and transports as services.
//!
//! - A `SingleService` answers a request by a turn of a number: pending, a `ReplyMessage`, or an error.
//! - `QnameRouter` has single services under names. The deepest name that ends the question's name decides.
//! - A `SendRequest` is a transport: it is polled for the answer to a `RequestMessage`.
//!   `ClientTransportToSingleService` and `BoxClientTransportToSingleService` make single services of transports.
//! - `SingleServiceToService` makes a service of a single service, for the layers.
//!
//! ```text
//! request -> QnameRouter::turn k -> the chosen service's turn k -> ReplyMessage -> AdditionalBuilder
//! ```
//!
//! # What is proved
//!
//! - A turn of a router is that of the service that is `chosen` for the question's name. Without a readable question
//!   the reply is FORMERR, and without a name that ends it SERVFAIL with a text. What is built of these is the error
//!   reply to the query itself (`own_replies_are_error_replies`).
//! - A transport's answer is relayed as `relayed` says: pending exactly if the transport is, its message, or SERVFAIL
//!   with the text of its error. It can't tell two clients with one question apart.
//! - A `ReplyMessage` keeps a message's octets and, of its OPT record, the client subnets and extended errors. What is
//!   built of one made from typed records is that message (`typed_replies_are_built`).
//! - `new_with_seed` of a router makes what `new` makes; the seed shows in no contract.
//!
//! # What a body could still get away with
//!
//! How many look-ups a router makes. By reading the code it is one for each label of the question's name at most.
#![tactic(auto)]

mod adapter;
mod kept;
mod laws;
mod own_reply;
mod qname_router;
mod reply;
pub mod request;
mod send_request;
mod single_service;
mod to_service;

pub use adapter::{
    BoxClientTransportToSingleService, ClientTransportToSingleService, relay_answer,
};
pub use dns_routes::{Seed, matches_are_suffixes};
pub use dns_service::CopiedMessage;
pub use laws::{own_replies_are_error_replies, typed_messages_are_copied, typed_replies_are_built};
pub use qname_router::QnameRouter;
pub use reply::{ComposeReply, ReplyMessage};
pub use request::RequestMessage;
pub use send_request::{SendError, SendRequest};
pub use single_service::{SingleService, Turned};
pub use to_service::{SingleServiceFuture, SingleServiceToService, turn_item};
