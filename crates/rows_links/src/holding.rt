//! A service that holds a poll until another request is polled.

ghost use Rattle.std.specs.Prelude.{◌≡◌, Some, None, Ok};
ghost use Rattle.dns_service.specs.ErrorReply.{error_reply};
ghost use Rattle.dns_service.specs.Once.{once, now_of};
ghost use Rattle.dns_service.specs.Req.{hint_at_entry};

use dns_name::{OptRcode, OutOfMemory};
use dns_service::{
    CallResult, Once, Polled, ReplyFuture, ReplyStream, Request, Service, mk_error_response,
};
use std::alloc::Global;
use std::sync::Arc;
use std::sync::atomic::{AtomicBool, Ordering};

/// The number of turns that a held poll makes at most, each one load of the flag.
const TURNS: u64 = 1_000_000_000;

/// Answers each request with its response code at its first poll. A poll of a request with id 1 waits for the flag, and is out
/// of memory if it was not set; that of a request with id 2 sets it.
#[derive(Drop)]
pub struct Holding {
    /// Whether a held poll goes on.
    pub flag: Arc<AtomicBool>,
    /// The code of each reply.
    pub rcode: OptRcode,
}

impl Holding {
    /// A service with a flag of its own.
    pub fn new(alloc: Global, flag: bool, rcode: OptRcode) -> Result<Holding, OutOfMemory> {
        let flag = Arc::new(alloc, AtomicBool::new(flag))?;
        Ok(Holding { flag, rcode })
    }
}

/// What a poll does with the flag.
#[derive(Clone, Copy)]
enum Part {
    Waits,
    Sets,
    Neither,
}

/// What the poll of a request with this id does.
fn part_of(id: u16) -> Part {
    match id {
        1 => Part::Waits,
        2 => Part::Sets,
        _ => Part::Neither,
    }
}

/// The reply to a request, which its first poll gives.
#[derive(Drop)]
pub struct HoldingFuture {
    flag: Arc<AtomicBool>,
    part: Part,
    stream: Option<Once>,
}

/// Whether the flag was set within that many turns.
fn is_set(flag: &AtomicBool) -> bool {
    for _ in 0..TURNS {
        if flag.load(Ordering::SeqCst) {
            return true;
        }
    }
    false
}

impl ReplyFuture for HoldingFuture {
    type Stream = Once;

    ghost answer = { λ h. now_of ⟦<Once as ReplyStream>⟧.answer h.stream };

    fn poll(&mut self, _alloc: Global) -> Result<Polled<Once>, OutOfMemory> {
        match self.part {
            Part::Waits => {
                if !is_set(&self.flag) {
                    return Err(OutOfMemory);
                }
            }
            Part::Sets => self.flag.store(true, Ordering::SeqCst),
            Part::Neither => {}
        }
        match self.stream.take() {
            Some(stream) => Ok(Polled::Ready(stream)),
            None => Ok(Polled::Pending),
        }
    }
}

impl Service<()> for Holding {
    type Stream = Once;

    type Future = HoldingFuture;

    ghost answer = { λ h request. once (Ok (record { response = Some (error_reply request.octets h.rcode); feedback = None })) };

    ghost hint = { λ _. hint_at_entry };

    ghost can_call = { λ _. Unit {0} };

    fn call(&self, alloc: Global, request: &mut Request<()>) -> Result<HoldingFuture, OutOfMemory> {
        let flag = Arc::try_clone(&self.flag)?;
        let part = part_of(request.message().header().id());
        match mk_error_response(alloc, request.message(), self.rcode) {
            Ok(reply) => {
                let stream = Some(Once::new(Ok(CallResult::new(reply))));
                Ok(HoldingFuture { flag, part, stream })
            }
            Err(error) => Err(error),
        }
    }
}
