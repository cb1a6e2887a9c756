//! Messages of requests that are done.

use crate::connection_request::ConnectionRequest;
use dns_base::Message;
use std::alloc::Global;
use std::sync::Arc;

/// How many messages are kept at most.
const MOST_MESSAGES: usize = 16;

/// How many octets a message has at most that is kept.
const MOST_OCTETS: usize = 512;

/// Messages of requests that are done. The next requests of the connection are kept in their memory.
#[derive(Drop)]
pub(crate) struct Spares {
    messages: Vec<Arc<Message>>,
}

impl Spares {
    /// No messages.
    pub(crate) fn new(alloc: Global) -> Spares {
        Spares {
            messages: Vec::new(alloc),
        }
    }

    /// Keeps the message of a request that is done, unless there are many, or it is long.
    pub(crate) fn keep<F: Drop, R: Drop>(&mut self, done: Option<ConnectionRequest<F, R>>) {
        let Some(request) = done else {
            return;
        };
        let message = request.into_message();
        if self.messages.len() < MOST_MESSAGES && message.as_slice().len() <= MOST_OCTETS {
            let _kept = self.messages.push(message);
        }
    }

    /// The message that was kept last.
    pub(crate) fn take(&mut self) -> Option<Arc<Message>> {
        self.messages.pop()
    }
}
