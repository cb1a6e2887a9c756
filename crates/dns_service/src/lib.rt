//! Requests, and services that answer them by poll. It exports error replies (dns_replies) and configurations and
//! events (dns_events).
//!
//! - `Request` is a message that came, with its sender, moment, transport and metadata of the service's own.
//! - A `Service` is called with a request and gives a `ReplyFuture`, which gives a `ReplyStream` of items. An item is a
//!   `CallResult` (a reply, a feedback, or both) or a `ServiceError`. Both are polled; there are no wakers.
//! - `service_fn` makes a service of a closure that answers at once. `Gives` names the item, for contracts.
//! - `SharedService` is a service without metadata that threads share; `WithoutMeta` is a service seen so.
//! - `ServiceInvoker` is what carries out the answers to one request: `dispatch` polls once and queues the reply.
//! - `CopiedMessage` copies a message, and `read_asked` reads once what layers look at.
//!
//! ```text
//! Request -> Service::call -> ReplyFuture::poll -> ReplyStream::poll_next -> item 0, item 1, .. the end
//! ```
//!
//! # What is proved
//!
//! - Answer k of what a service returns is a function of the request at entry and of k (clauses `answers`, `kept`,
//!   `refused` of `Service::call`). A call changes nothing of the request but its size hint and its reserved octets. A
//!   refused call leaves the request, so that it may be called again.
//! - `PolledRequest` gives the answers of a future and then of its stream, one for one.
//! - `dispatch` takes exactly one answer, hears its feedback, and queues its reply (`dispatched_by`).
//! - `reply_limit` is at least 512, and `fit` cuts a reply to it over UDP.
//! - `Asked` says exactly what stands in a request (`asked_of`), and keeps its OPT record (`asked_keeps_opt`).
//!
//! # What a body could still get away with
//!
//! What `size_hint` answers is what a stream says of itself. After a lack of memory, nothing is known of a stream.
#![tactic(auto)]

mod asked;
mod copied;
mod function;
mod invoker;
mod kept_feedback;
mod last_opt;
mod laws;
mod limits;
mod message;
mod once;
mod polled;
mod reply_error;
mod service;
mod shared_service;

pub use asked::{Asked, AskedCookie, AskedOpt, AskedRecord, read_asked};
pub use copied::CopiedMessage;
pub use dns_events::{
    ConnectionConfig, DgramConfig, Error, Event, EventKind, Output, Settings, Step, StreamConfig,
    Why,
};
pub use dns_name::{Octets, OutOfMemory};
pub use dns_replies::{
    add_edns_option, add_edns_options, cut, cut_fits, mk_builder_for_target, mk_error_response,
    remove_edns_opt_record,
};
pub use function::{Gives, ServiceFn, service_fn};
pub use invoker::{Dispatched, Enqueued, InvokerStatus, ServiceInvoker};
pub use laws::{asked_keeps_opt, items_begin_with_opt};
pub use limits::{MINIMUM_RESPONSE_BYTE_LEN, fit, limit_over, reply_limit};
pub use message::{NonUdpTransportContext, Request, TransportSpecificContext, UdpTransportContext};
pub use once::{Now, Once};
pub use polled::{PolledRequest, poll_future};
pub use reply_error::ReplyError;
pub use service::{
    CallResult, Polled, ReplyFuture, ReplyStream, Service, ServiceError, ServiceFeedback,
    ServiceResult,
};
pub use shared_service::{SharedService, WithoutMeta};
