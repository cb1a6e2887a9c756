//! What a loop of accepts takes and counts.

ghost use Rattle.std.specs.Prelude.{◌≡◌, ◌+◌, ◌-◌, ◌%◌, ◌^◌, ◌||◌, min, false};
ghost use Rattle.dns_accepts.specs.Arrivals.{arrival_admitted, arrival_callers, arrival_of, is_faulty};

use dns_io::Start;
use dns_name::OutOfMemory;

/// What one turn of the loop of accepts brought.
#[derive(Clone, Copy, Debug, PartialEq, Eq)]
pub(crate) enum Arrival {
    /// A connection that was admitted, and is served.
    WorkStarted,
    /// A connection that was admitted. The start of its work was refused, and it was given up.
    Refused,
    /// A connection that was not admitted, and was closed.
    TurnedAway,
    /// No connection.
    Nobody,
    /// The accept failed.
    Fault,
}

impl Arrival {
    /// The number of connections that came.
    pub(crate) fn callers(self) -> u64
        ensures { result ≡ arrival_callers self }
    {
        match self {
            Arrival::WorkStarted | Arrival::Refused | Arrival::TurnedAway => 1,
            Arrival::Nobody | Arrival::Fault => 0,
        }
    }

    /// The number of connections that were admitted.
    pub(crate) fn admitted(self) -> u64
        ensures { result ≡ arrival_admitted self }
    {
        match self {
            Arrival::WorkStarted | Arrival::Refused => 1,
            Arrival::TurnedAway | Arrival::Nobody | Arrival::Fault => 0,
        }
    }

    /// Whether the accept failed or the start was refused.
    pub(crate) fn is_fault(self) -> bool
        ensures { result ≡ is_faulty self }
    {
        match self {
            Arrival::Refused | Arrival::Fault => true,
            Arrival::WorkStarted | Arrival::TurnedAway | Arrival::Nobody => false,
        }
    }
}

/// What the start of an admitted connection's work brought.
pub(crate) fn arrival_of(started: Result<Start, OutOfMemory>) -> Result<Arrival, OutOfMemory>
    ensures { result ≡ arrival_of started }
{
    match started {
        Ok(Start::Started) => Ok(Arrival::WorkStarted),
        Ok(Start::Failed) => Ok(Arrival::Refused),
        Err(error) => Err(error),
    }
}

/// What a loop of accepts counts.
#[derive(Clone, Copy)]
pub(crate) struct Tally {
    /// The number of the next connection that is admitted.
    pub(crate) client: u64,
    /// How many connections came.
    pub(crate) taken: u64,
    /// Whether an accept failed or a start was refused.
    pub(crate) faulted: bool,
}

impl Tally {
    /// Nothing came.
    pub(crate) fn new() -> Tally
        ensures { result ≡ record { client = 0; taken = 0; faulted = false } }
    {
        Tally {
            client: 0,
            taken: 0,
            faulted: false,
        }
    }

    /// Counts what one turn brought.
    pub(crate) fn note(&mut self, arrival: Arrival)
        ensures client { self.new.client ≡ (self.old.client + arrival_admitted arrival) % 2 ^ 64 }
        ensures taken { self.new.taken ≡ min (self.old.taken + arrival_callers arrival) (2 ^ 64 - 1) }
        ensures faulted { self.new.faulted ≡ (self.old.faulted || is_faulty arrival) }
    {
        self.client = self.client.wrapping_add(arrival.admitted());
        self.taken = self.taken.saturating_add(arrival.callers());
        self.faulted = self.faulted || arrival.is_fault();
    }
}
