//! Single services of one answer, of which a cache is asked.

ghost use Rattle.std.specs.Prelude.{◌≡◌, IfOk};
ghost use Rattle.dns_service.specs.declared.service.Polled.TheVariants.{Ready};
ghost use Rattle.dns_route.specs.Relays.{relay_answer};

use dns_base::Message;
use dns_route::{SendError, SingleService, Turned, relay_answer};
use dns_service::{OutOfMemory, Polled, Request};
use std::alloc::Global;

/// An upstream's answer.
#[derive(Drop)]
pub(crate) struct Answered {
    pub(crate) answer: Result<Message, SendError>,
}

impl SingleService for Answered {
    ghost answer = { λ s r _. relay_answer r.octets (Ready s.answer) };

    fn turn(&self, alloc: Global, request: &Request<()>, _: u64) -> Result<Turned, OutOfMemory> {
        let answer = copied(alloc, &self.answer)?;
        relay_answer(alloc, request.message(), Polled::Ready(answer))
    }
}

/// A copy of an answer.
fn copied(
    alloc: Global,
    answer: &Result<Message, SendError>,
) -> Result<Result<Message, SendError>, OutOfMemory>
    ensures { IfOk result (λ r. r ≡ answer.now) }
{
    match answer {
        Ok(message) => {
            let octets = message.as_slice();
            Ok(Ok(Message::of(Vec::from_slice(alloc, octets)?)))
        }
        Err(error) => Ok(Err(*error)),
    }
}
