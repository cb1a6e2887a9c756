//! Servers of datagrams over memory.

ghost use Rattle.std.specs.Prelude.{◌≡◌};

use crate::servers::controls::{count, shows_shutdown, shut_down_after};
use dns_outside::{MemoryClock, SteadySock};
use dns_service::SharedService;
use dns_transport::{
    Control, DgramEnd, DgramServer, ServerMetrics, Silent, VecBufSource, VecRecorder,
};
use rows_links::PEER;
use std::alloc::Global;
use std::sync::{Arc, Wait};
use std::thread;
use std::thread::Threads;

/// The reply to a query for the root's address, that the name isn't there.
const REPLY: &[u8] = b"\x12\x34\x81\x03\x00\x01\x00\x00\x00\x00\x00\x00\x00\x00\x01\x00\x01";

/// Whether the reply alone was sent, to where the query came from.
fn sent_the_reply(sock: &SteadySock) -> bool {
    let sent = sock.sent();
    sent.len() == 1 && sent[0].octets.as_slice() == REPLY && sent[0].addr == PEER
}

/// Whether a control shows a shutdown that it made, and none before for as long as it waited.
fn shuts_down<R: Wait>(rt: &R, control: &mut Control, clock: &mut MemoryClock) -> bool {
    let early = control.await_shutdown(rt, clock, 1_000);
    let _ = control.shutdown(rt);
    !early && control.await_shutdown(rt, clock, 1_000)
}

/// Whether a control shows its own shutdown and none before, by a clock in memory.
fn shuts_down_by<R: Wait>(rt: &R, alloc: Global, control: &mut Control) -> bool {
    match Vec::from_slice(alloc, &[(5, 0), (9, 0), (1_005, 1)]) {
        Ok(readings) => shuts_down(rt, control, &mut MemoryClock::new(readings)),
        Err(_) => false,
    }
}

/// A server of datagrams over a socket in memory.
#[derive(Drop)]
pub struct Mailing<'a, R, W> {
    pub rt: &'a R,
    pub alloc: Global,
    pub server: DgramServer<SteadySock, VecBufSource, W, MemoryClock>,
}

impl<R: Threads + Wait + Sync, W: SharedService> Mailing<'_, R, W> {
    /// Runs beside what shuts the server down once one response was sent. The control that did, and how the run ended.
    fn join(
        &mut self,
        metrics: &ServerMetrics,
        control: Control,
        journal: &mut VecRecorder,
    ) -> (Control, DgramEnd)
        requires { W.can_call self.old.server.service }
    {
        let Mailing { rt, alloc, server } = self;
        thread::join(
            *rt,
            || shut_down_after(*rt, metrics, control, 1),
            || -> DgramEnd
                requires { W.can_call server.now.service }
            { server.run(*rt, *alloc, journal) },
        )
    }

    /// Whether the server was shut down then, as the control shows that shut it down.
    fn runs_by(&mut self, metrics: &ServerMetrics, journal: &mut VecRecorder) -> bool
        requires { W.can_call self.old.server.service }
    {
        let control = self.server.control(self.rt);
        let (control, end) = self.join(metrics, control, journal);
        shows_shutdown(self.rt, control, end == DgramEnd::Shutdown)
    }

    fn runs(&mut self, journal: &mut VecRecorder) -> bool
        requires { W.can_call self.old.server.service }
    {
        match Arc::try_clone(self.server.metrics()) {
            Ok(metrics) => self.runs_by(&metrics, journal),
            Err(_) => false,
        }
    }

    /// Whether one datagram is answered, and the server is shut down, as this control shows.
    fn answers_under(&mut self, early: &mut Control, journal: &mut VecRecorder) -> bool
        requires { W.can_call self.old.server.service }
    {
        !early.is_shutdown(self.rt)
            && self.runs(journal)
            && early.is_shutdown(self.rt)
            && self.shows_one()
    }

    /// Whether what was counted is shown, and the reply was sent.
    fn shows_one(&self) -> bool {
        count(self.server.metrics(), 1) && sent_the_reply(self.server.source())
    }

    /// Whether one datagram is answered and noted, and the server is shut down, as a control shows that was made before. What it
    /// counted is shown.
    pub fn answers(&mut self) -> bool
        requires { W.can_call self.old.server.service }
    {
        let mut early = self.server.control(self.rt);
        self.notes_under(&mut early)
    }

    /// Whether one datagram is answered and noted, and the server is then shut down, as this control shows.
    fn notes_under(&mut self, early: &mut Control) -> bool
        requires { W.can_call self.old.server.service }
    {
        let mut journal = VecRecorder::new(self.alloc);
        self.answers_under(early, &mut journal) && journal.events().len() > 2
    }

    /// Whether the run ends by the shutdown before, with nothing sent.
    fn sends_none(&mut self) -> bool
        requires { W.can_call self.old.server.service }
    {
        let end = self.server.run(self.rt, self.alloc, &mut Silent::new());
        end == DgramEnd::Shutdown && self.server.source().sent().is_empty()
    }

    /// Whether the run ends by the shutdown before, with nothing sent, as this control shows.
    fn stays_shut_by(&mut self, control: &mut Control) -> bool
        requires { W.can_call self.old.server.service }
    {
        shuts_down_by(self.rt, self.alloc, control)
            && self.sends_none()
            && control.is_shutdown(self.rt)
    }

    /// Whether nothing is served once the server is shut down.
    pub fn stays_shut(&mut self) -> bool
        requires { W.can_call self.old.server.service }
    {
        let mut control = self.server.control(self.rt);
        self.stays_shut_by(&mut control)
    }
}
