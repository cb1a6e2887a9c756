//! What a connection keeps apart from its requests: the framer, the queue of replies with its budget, and the idle
//! timer.
//!
//! - `Framer` is fed pieces of a stream and gives whole frames, each after its length in two octets (RFC 1035,
//!   section 4.2.2). `first_of` gives the first frame of a slice.
//! - `ConnectionInvoker` processes the answer of one request. It queues a reply, gives it back if there is no room,
//!   or drops it (`enqueue_response`).
//! - `ResponseBudget` counts how many replies a connection may queue in one window of time.
//! - `IdleTimer` is told moments in ms, and says when a connection was idle for too long (RFC 7766, section 6.2.3).
//! - `frame_of` makes a reply a frame without a copy.
//!
//! dns_session puts them together into a connection.
//!
//! ```text
//! pieces -> Framer::feed -> Framer::next -> messages -> service -> ConnectionInvoker -> queue of frames
//! ```
//!
//! # What is proved
//!
//! - `feed` appends a piece, or leaves all without memory. `next` gives the first of `frames` of what is kept and
//!   takes it away; if there is none or it is refused, all stays.
//! - A frame is queued exactly if there is room in queue and budget (`finds_room`). Else it is Held, in a
//!   transaction, or Dropped.
//! - A budget is spent by window, as `spend` and `allows` say. A new configuration keeps what was spent.
//! - The deadline is the last reset plus the timeout, or now if that passes 2^64 - 1.
//!
//! # What a body could still get away with
//!
//! How often octets are moved, and how much memory a framer holds that is fed and emptied.
#![tactic(auto)]

mod budget;
mod framer;
mod invoker;
mod reply;
mod timer;

pub use budget::ResponseBudget;
pub use dns_service::{
    Dispatched, InvokerStatus, NonUdpTransportContext, Polled, PolledRequest, ReplyFuture,
    ReplyStream, Request, ServiceInvoker, ServiceResult, SharedService, TransportSpecificContext,
    UdpTransportContext, fit, limit_over, mk_error_response, reply_limit,
};
pub use framer::{Framer, first_of};
pub use invoker::{ConnectionInvoker, is_in_transaction};
pub use reply::frame_of;
pub use timer::IdleTimer;
