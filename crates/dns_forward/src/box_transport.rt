//! Transports in boxes.

use dns_base::Message;
use dns_route::{RequestMessage, SendError, SendRequest};
use dns_service::{OutOfMemory, Polled};
use std::alloc::Global;

/// A transport in a box, so that transports of several kinds are of one type.
#[derive(Drop)]
pub struct BoxClientTransport {
    pub(crate) conn: Box<dyn SendRequest + Send + Sync>,
}

impl SendRequest for BoxClientTransport {
    ghost answer = { λ t. (SendRequest-box t.conn).answer t.conn.value };

    fn poll_response(
        &self,
        alloc: Global,
        request: &RequestMessage,
        k: u64,
    ) -> Result<Polled<Result<Message, SendError>>, OutOfMemory> {
        self.conn.poll_response(alloc, request, k)
    }
}
