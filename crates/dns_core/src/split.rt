//! The server over a list of steps: a client hears of the server's changes only when it looks.

ghost use Rattle.dns_session.specs.Serving.{Serving, serving};
ghost use Rattle.std.specs.Prelude.{◌≡◌, [], true, IfOk, OnOk, OnErr};
ghost use Rattle.dns_service.specs.PolledRequest.{request_answer};
ghost use Rattle.dns_core.specs.Own.{is_wide};
ghost use Rattle.dns_core.specs.Outs.{outs};
ghost use Rattle.dns_core.specs.SplitServer.{ServesSteps};
ghost use Rattle.dns_events.specs.declared.settings.Settings.{Settings as TheSettings};
ghost use Rattle.dns_middleware.specs.Verdicts.{verdict_on};
ghost use Rattle.dns_middleware.specs.Wrapped.{hint_left, replies};

use crate::server::{Server, note};
use dns_middleware::{Notifiable, Settings, wrap};
use dns_service::{
    Event, EventKind, OutOfMemory, Output, Service, SharedService, Step, WithoutMeta,
};
use dns_session_map::{append, look_at};
use std::alloc::Global;

/// A server of a wrapped service whose clients look for themselves, which is stepped through events and looks.
#[derive(Drop)]
pub struct SplitServer<W: SharedService> {
    inner: Server<W>,
}

impl<W: SharedService> SplitServer<W> {
    ghost use Rattle.dns_core.specs.SplitServer.{ServesSteps, StepGoes, AddsStep};

    /// A server that served no step.
    pub fn new(alloc: Global, settings: &Settings) -> Self
        ensures { (answers : Serving) → ServesSteps (request_answer W.Future.answer W.Stream.answer) answers settings.now [] result.inner }
    {
        SplitServer {
            inner: Server::new(alloc, settings),
        }
    }

    /// An event that all clients hear acts on the book alone.
    fn wide(&mut self, event: &Event)
        requires { is_wide event.now.kind ≡ true }
        ensures { (answers : Serving) → StepGoes
            (request_answer W.Future.answer W.Stream.answer) answers self.old.inner self.new.inner (Step.Own event.now) [] }
    {
        note(&mut self.inner.book, &event.kind);
    }

    /// A client looks at the book.
    fn look(
        &mut self,
        alloc: Global,
        at: u64,
        secs: u64,
        client: u64,
    ) -> Result<Vec<Output>, OutOfMemory>
        ensures { IfOk result (λ outs. (answers : Serving)
            → StepGoes (request_answer W.Future.answer W.Stream.answer) answers self.old.inner self.new.inner
            (Step.Look at secs client) outs.items) }
    {
        let look = self.inner.book.shown();
        let outs = look_at(alloc, &mut self.inner.clients, client, &look)?;
        Ok(outs)
    }

    /// One event of any kind.
    fn one(&mut self, alloc: Global, service: &W, event: &Event) -> Result<Vec<Output>, OutOfMemory>
        requires { W.can_call service.now }
        ensures { IfOk result (λ outs. StepGoes (request_answer W.Future.answer W.Stream.answer)
            (serving (W.answer service.now) (W.hint service.now)) self.old.inner self.new.inner (Step.Own event.now) outs.items) }
    {
        match &event.kind {
            EventKind::Datagram { addr, octets } => {
                self.inner
                    .datagram(alloc, service, event, *addr, octets.as_slice())
            }
            EventKind::Offer { addr } => self.inner.offer(alloc, event, *addr),
            EventKind::Reconfigure { .. } | EventKind::Shutdown => {
                self.wide(event);
                Ok(Vec::new(alloc))
            }
            _ => self.inner.own(alloc, service, event),
        }
    }

    /// Takes one step.
    fn take(&mut self, alloc: Global, service: &W, step: &Step) -> Result<Vec<Output>, OutOfMemory>
        requires { W.can_call service.now }
        ensures { IfOk result (λ outs. StepGoes (request_answer W.Future.answer W.Stream.answer)
            (serving (W.answer service.now) (W.hint service.now)) self.old.inner self.new.inner step.now outs.items) }
    {
        match step {
            Step::Own(event) => self.one(alloc, service, event),
            Step::Look { at, secs, client } => {
                let outs = self.look(alloc, *at, *secs, *client)?;
                Ok(outs)
            }
        }
    }

    /// Serves one step more: what is sent for it is appended to the outputs. The service is the same at each step. Of a server
    /// that found no memory nothing is said any more; the outputs stay as they were then.
    pub fn step(
        &mut self,
        alloc: Global,
        service: &W,
        step: &Step,
        outs: &mut Vec<Output>,
    ) -> Result<(), OutOfMemory>
        requires { W.can_call service.now }
        ensures ok { OnOk result (AddsStep (request_answer W.Future.answer W.Stream.answer)
            (serving (W.answer service.now) (W.hint service.now)) self.old.inner self.new.inner step.now outs.old.items outs.new.items) }
        ensures kept { OnErr result (outs.new.items ≡ outs.old.items) }
    {
        let more = self.take(alloc, service, step)?;
        append(outs, more)?;
        Ok(())
    }
}

/// Serves steps one by one: what is sent for them is appended to the outputs.
fn each_step<W: SharedService>(
    alloc: Global,
    service: &W,
    server: &mut SplitServer<W>,
    steps: &[Step],
    sent: &mut Vec<Output>,
) -> Result<(), OutOfMemory>
    requires can_call { W.can_call service.now }
    requires nothing { sent.old.items ≡ [] }
    ensures { OnOk result ((settings : TheSettings)
        → ServesSteps (request_answer W.Future.answer W.Stream.answer)
        (serving (W.answer service.now) (W.hint service.now)) settings [] server.old.inner
        → sent.new.items ≡ outs (serving (W.answer service.now) (W.hint service.now)) settings steps.now) }
{
    for step in steps {
        server.step(alloc, service, step, sent)?;
    }
    Ok(())
}

/// What all clients of a service are sent for a list of steps.
pub fn serve_each_step<W: SharedService>(
    alloc: Global,
    settings: &Settings,
    service: &W,
    steps: &[Step],
) -> Result<Vec<Output>, OutOfMemory>
    requires { W.can_call service.now }
    ensures { IfOk result (λ result. result.items ≡ outs (serving (W.answer service.now) (W.hint service.now)) settings.now steps.now) }
{
    let mut server = SplitServer::new(alloc, settings);
    let mut outs = Vec::new(alloc);
    each_step(alloc, service, &mut server, steps, &mut outs)?;
    Ok(outs)
}

/// What all clients are sent, if each hears of the server's changes only when it looks. The wrapped service is that of
/// `serve_events`.
pub fn serve_steps<S: Service<()>, N: Notifiable>(
    alloc: Global,
    settings: &Settings,
    service: S,
    target: N,
    steps: &[Step],
) -> Result<Vec<Output>, OutOfMemory>
    requires { S.can_call service }
    ensures { IfOk result (λ result. result.items
        ≡ outs (serving (replies settings.now (S.answer service) (verdict_on (N.verdict target))) (hint_left settings.now))
        settings.now steps.now) }
{
    let service = wrap(alloc, settings, service, target)?;
    serve_each_step(alloc, settings, &WithoutMeta { service }, steps)
}
