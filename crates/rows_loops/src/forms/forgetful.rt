//! A recorder that finds memory for some notes alone.

ghost use Rattle.std.specs.Prelude.{[]};

use dns_service::{Event, OutOfMemory};
use dns_stream_driver::{Recorder, VecRecorder};
use std::alloc::Global;

/// A recorder that keeps what it notes, and is refused memory after that many notes. It tells nothing.
#[derive(Drop)]
pub struct Forgetful {
    left: u64,
    kept: VecRecorder,
}

impl Forgetful {
    /// A recorder with memory for that many notes, which has noted nothing.
    pub fn new(alloc: Global, left: u64) -> Forgetful {
        Forgetful {
            left,
            kept: VecRecorder::new(alloc),
        }
    }

    /// The events noted.
    pub fn events(&self) -> &[Event] {
        self.kept.events()
    }
}

impl Recorder for Forgetful {
    ghost tells = { λ _. ⊥ };

    ghost noted = { λ _. [] };

    fn note(&mut self, alloc: Global, event: &Event) -> Result<(), OutOfMemory> {
        if self.left == 0 {
            return Err(OutOfMemory);
        }
        self.left -= 1;
        self.kept.note(alloc, event)
    }
}
