//! A connection that only writes what waits, before it is closed.

ghost use Rattle.std.specs.Prelude.{◌≡◌, length, slice_get, option_map};
ghost use Rattle.dns_session.specs.Connections.{flush};
ghost use Rattle.dns_session.specs.Rule.{rule};
ghost use Rattle.dns_session.specs.Serving.{Serving};

use crate::outcome::Outcome;
use circular_buffer::HeapCircularBuffer;
use dns_events::{Event, EventKind, Why};
use dns_name::Octets;

/// What is kept of a connection that only writes what waits: its queue, how long a write may take in ms, and why it is closed
/// then.
#[derive(Drop)]
pub struct FlushingConnection {
    pub(crate) queue: HeapCircularBuffer<Octets>,
    pub(crate) write_timeout: u64,
    pub(crate) why: Why,
}

impl FlushingConnection {
    ghost use Rattle.dns_session.specs.Goings.{LeadsOn};

    /// Writes the front frame. The last one closes the connection.
    pub fn write(&mut self, took: u64) -> Outcome
        ensures { LeadsOn self.old self.new result (λ s. flush self.old.why took s.queue s) }
    {
        let Some(octets) = self.queue.pop_front() else {
            return Outcome::Nothing;
        };
        if took > self.write_timeout {
            return Outcome::Ends(Why::WriteTimeout);
        }
        if self.queue.is_empty() {
            return Outcome::WrittenLast(octets, self.why);
        }
        Outcome::Written(octets)
    }

    /// How many frames wait to be written.
    pub fn queued(&self) -> usize
        ensures { result ≡ length self.now.queue.items }
    {
        self.queue.len()
    }

    /// How long a write may take in ms.
    pub fn write_timeout(&self) -> u64
        ensures { result ≡ self.now.write_timeout }
    {
        self.write_timeout
    }

    /// The frame that is written next.
    pub fn front_frame(&self) -> Option<&[u8]>
        ensures { option_map (λ m. m.now) result ≡ slice_get self.now.queue.items 0 }
    {
        match self.queue.front() {
            Some(octets) => Some(octets.as_slice()),
            None => None,
        }
    }

    /// One event of the connection.
    pub fn step(&mut self, event: &Event) -> Outcome
        ensures { (answers : Serving) → LeadsOn self.old self.new result (rule answers event.now) }
    {
        match &event.kind {
            EventKind::Write { took } => self.write(*took),
            EventKind::Fault => Outcome::Ends(Why::Fault),
            _ => Outcome::Nothing,
        }
    }
}
