//! The machine of a book for one thread.
ghost use Rattle.std.specs.Prelude.{◌≡◌};
ghost use Rattle.dns_admission.specs.Machine.{state_after, reply_of, new_state, resumed_state};
ghost use Rattle.dns_admission.specs.Admissions.{Admits, Reconfigures};

use crate::admission::Admission;
use crate::call::{Call, Reply};
use dns_events::{DgramConfig, Error, Look, StreamConfig};
use std::marker::Model;

/// A book for one thread. In clauses it is what a look at it shows.
#[derive(Clone, Copy, Debug, PartialEq, Eq)]
pub struct BookState {
    shown: Look,
}

impl Model for BookState {
    ghost use Rattle.dns_events.specs.declared.look.Look.{Look as TheLook};

    ghost Value = { TheLook };

    ghost view = { λ s. s.shown };

    ghost inverse = { λ l. record { shown = l } };
}

impl BookState {
    /// An open book at version 0 with no slot taken.
    pub fn new(dgram: DgramConfig, stream: StreamConfig) -> Self
        ensures { result ≡ new_state dgram stream }
    {
        BookState::resume(dgram, stream, 0)
    }

    /// An open book at this version with no slot taken.
    pub fn resume(dgram: DgramConfig, stream: StreamConfig, version: u64) -> Self
        ensures { result ≡ resumed_state dgram stream version }
    {
        BookState {
            shown: Look {
                version,
                closed: false,
                taken: 0,
                dgram,
                stream,
            },
        }
    }

    /// Takes a slot, if the book is open and one is free.
    pub fn admit(&mut self) -> Admission
        ensures reply { Reply.Admission result ≡ reply_of self.old Call.Admit }
        ensures state { self.new ≡ state_after self.old Call.Admit }
        ensures cause { Admits self.old result }
    {
        if self.shown.closed {
            return Admission::Closed;
        }
        let taken = self.shown.taken;
        let limit = self.shown.stream.max_concurrent_connections() as u64;
        if taken < limit {
            self.shown.taken = taken + 1;
            return Admission::Admitted(self.shown);
        }
        let accepted = self.shown.stream.accept_connections_at_max();
        Admission::Full {
            taken,
            limit,
            accepted,
        }
    }

    /// Gives a slot back, and says how many are taken now. At 0 nothing changes.
    pub fn release(&mut self) -> u64
        ensures reply { Reply.Left result ≡ reply_of self.old Call.Release }
        ensures state { self.new ≡ state_after self.old Call.Release }
    {
        self.shown.taken = self.shown.taken.saturating_sub(1);
        self.shown.taken
    }

    /// Replaces both configurations, and says the version that is in force now. Once the book is
    /// closed nothing changes. There is no version after 2^64 - 1: then the command can't be sent.
    pub fn reconfigure(&mut self, dgram: DgramConfig, stream: StreamConfig) -> Result<u64, Error>
        ensures reply { Reply.Version result ≡ reply_of self.old (Call.Reconfigure dgram stream) }
        ensures state { self.new ≡ state_after self.old (Call.Reconfigure dgram stream) }
        ensures cause { Reconfigures self.old result }
    {
        if self.shown.closed {
            return Ok(self.shown.version);
        }
        if self.shown.version == u64::MAX {
            return Err(Error::CommandCouldNotBeSent);
        }
        self.shown.version += 1;
        self.shown.dgram = dgram;
        self.shown.stream = stream;
        Ok(self.shown.version)
    }

    /// Closes the book for good.
    pub fn shutdown(&mut self) -> Look
        ensures reply { Reply.Look result ≡ reply_of self.old Call.Shutdown }
        ensures state { self.new ≡ state_after self.old Call.Shutdown }
    {
        self.shown.closed = true;
        self.shown
    }

    /// Gives what the book holds, and changes nothing.
    pub fn look(&mut self) -> Look
        ensures reply { Reply.Look result ≡ reply_of self.old Call.Look }
        ensures state { self.new ≡ state_after self.old Call.Look }
    {
        self.shown
    }

    /// Makes a call that is given as a value.
    pub fn call(&mut self, call: &Call) -> Reply
        ensures reply { result ≡ reply_of self.old call.now }
        ensures state { self.new ≡ state_after self.old call.now }
    {
        match *call {
            Call::Admit => Reply::Admission(self.admit()),
            Call::Release => Reply::Left(self.release()),
            Call::Reconfigure { dgram, stream } => Reply::Version(self.reconfigure(dgram, stream)),
            Call::Shutdown => Reply::Look(self.shutdown()),
            Call::Look => Reply::Look(self.look()),
        }
    }

    /// What a look at this state shows.
    pub fn shown(&self) -> Look
        ensures { result ≡ self.now }
    {
        self.shown
    }

    /// The book that shows this.
    pub fn of(shown: Look) -> Self
        ensures { result ≡ shown }
    {
        BookState { shown }
    }
}
