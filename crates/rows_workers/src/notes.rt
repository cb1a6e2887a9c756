//! What workers note.

use dns_service::{Event, EventKind};
use dns_workers::{VecRecorder, Worker};

/// What a worker may note.
#[derive(Clone, Copy)]
pub(crate) enum Note {
    /// That a datagram came.
    Datagram,
    /// That the settings were replaced.
    Settings,
    Shutdown,
}

impl Note {
    /// Whether this event is such a note.
    fn is_of(self, event: &Event) -> bool {
        match (self, &event.kind) {
            (Note::Datagram, EventKind::Datagram { .. }) => true,
            (Note::Settings, EventKind::Reconfigure { .. }) => true,
            (Note::Shutdown, EventKind::Shutdown) => true,
            _ => false,
        }
    }

    /// The moment of the first such note.
    fn moment_in(self, events: &[Event]) -> Option<u64> {
        for event in events {
            if self.is_of(event) {
                return Some(event.at);
            }
        }
        None
    }

    /// When the last of these workers noted it first; none if one did not.
    pub(crate) fn last_moment<D, C>(self, workers: &[Worker<D, C, VecRecorder>]) -> Option<u64> {
        let mut last = 0u64;
        for worker in workers {
            last = last.max(self.moment_in(worker.journal.events())?);
        }
        Some(last)
    }
}
