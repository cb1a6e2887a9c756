//! The server over a list of events.

ghost use Rattle.dns_session.specs.Serving.{Serving, serving};
ghost use Rattle.std.specs.Prelude.{◌≡◌, ℕ, List, [], true, false, IfOk, OnOk, OnErr, if◌then◌else◌};
ghost use Rattle.std.specs.BTreeSet.{contains};
ghost use Rattle.std.specs.Ordering.{nat_cmp};
ghost use Rattle.dns_admission.specs.Machine.{state_after};
ghost use Rattle.dns_admission.specs.Admissions.{Admits};
ghost use Rattle.dns_admission.specs.declared.call.Call.TheVariants.{Admit, Release};
ghost use Rattle.dns_events.specs.declared.look.Look.{Look as TheLook};
ghost use Rattle.dns_service.specs.PolledRequest.{request_answer};
ghost use Rattle.dns_events.specs.declared.settings.Settings.{Settings as TheSettings};
ghost use Rattle.dns_core.specs.Own.{is_wide};
ghost use Rattle.dns_core.specs.Out.{out};
ghost use Rattle.dns_core.specs.Server.{Serves};
ghost use Rattle.dns_core.specs.Books.{book_rule};
ghost use Rattle.dns_core.specs.Placed.{is_beginning};
ghost use Rattle.dns_events.specs.declared.event.Step.{Step};
ghost use Rattle.dns_middleware.specs.Verdicts.{verdict_on};
ghost use Rattle.dns_middleware.specs.Wrapped.{hint_left, replies};

use dns_admission::{Admission, BookState, Look};
use dns_base::SocketAddr;
use dns_middleware::{Notifiable, Settings, wrap};
use dns_service::{Event, EventKind, OutOfMemory, Output, Service, SharedService, WithoutMeta};
use dns_session::ClientCore;
use dns_session_map::{append, begin, look_all, step_at, turn_away};
use std::alloc::Global;
use std::collections::{BTreeMap, BTreeSet};

/// A server of a wrapped service, which is stepped through events: the cores of the clients that aren't finished, the numbers
/// that were used, and the book.
#[derive(Drop)]
pub struct Server<W: SharedService> {
    pub(crate) clients: BTreeMap<u64, ClientCore<W>>,
    used: BTreeSet<u64>,
    pub(crate) book: BookState,
}

/// A slot is given back to the book, if a client freed it.
pub(crate) fn give_back(book: &mut BookState, freed: bool)
    ensures { book.new ≡ (if freed then state_after book.old Release else book.old) }
{
    if freed {
        book.release();
    }
}

impl<W: SharedService> Server<W> {
    ghost use Rattle.dns_core.specs.Server.{Serves, Goes, AddsOutputs};
    ghost use Rattle.dns_core.specs.SplitServer.{ServesSteps, StepGoes};

    /// A server that served no event, and no step of a split server.
    pub fn new(alloc: Global, settings: &Settings) -> Self
        ensures serves { (answers : Serving) → Serves (request_answer W.Future.answer W.Stream.answer) answers settings.now [] result }
        ensures steps { (answers : Serving) → ServesSteps (request_answer W.Future.answer W.Stream.answer) answers settings.now [] result }
    {
        Server {
            clients: BTreeMap::new(alloc),
            used: BTreeSet::new(alloc),
            book: BookState::new(settings.dgram, settings.stream),
        }
    }

    /// An event of one client, which is there or isn't. A slot that it frees is given back.
    pub(crate) fn own(
        &mut self,
        alloc: Global,
        service: &W,
        event: &Event,
    ) -> Result<Vec<Output>, OutOfMemory>
        requires can_call { W.can_call service.now }
        requires own { is_wide event.now.kind ≡ false }
        requires begins { is_beginning event.now.kind ≡ false }
        ensures goes { IfOk result (λ outs. Goes (request_answer W.Future.answer W.Stream.answer)
            (serving (W.answer service.now) (W.hint service.now)) self.old self.new event.now outs.items) }
        ensures steps { IfOk result (λ outs. StepGoes (request_answer W.Future.answer W.Stream.answer)
            (serving (W.answer service.now) (W.hint service.now)) self.old self.new (Step.Own event.now) outs.items) }
    {
        let (outs, freed) = step_at(alloc, service, &mut self.clients, event)?;
        give_back(&mut self.book, freed);
        Ok(outs)
    }

    /// An event that all clients hear: it acts on the book, at which they look then, by rising number.
    fn wide(&mut self, alloc: Global, event: &Event) -> Result<Vec<Output>, OutOfMemory>
        requires { is_wide event.now.kind ≡ true }
        ensures { (answers : Serving) → IfOk result
            (λ outs. Goes (request_answer W.Future.answer W.Stream.answer) answers self.old self.new event.now outs.items) }
    {
        note(&mut self.book, &event.kind);
        let look = self.book.shown();
        let outs = look_all(alloc, &mut self.clients, &look)?;
        Ok(outs)
    }

    /// An exchange begins by its datagram, by a look at the book.
    fn exchange(
        &mut self,
        alloc: Global,
        service: &W,
        event: &Event,
        addr: SocketAddr,
        octets: &[u8],
        look: &Look,
    ) -> Result<Vec<Output>, OutOfMemory>
        requires can_call { W.can_call service.now }
        requires kind { event.now.kind ≡ EventKind.Datagram addr octets.now }
        requires shown { look.now ≡ self.old.book }
        requires running { look.now.closed ≡ false }
        requires unused { contains nat_cmp self.old.used event.now.client ≡ false }
        ensures goes { IfOk result (λ outs. Goes (request_answer W.Future.answer W.Stream.answer)
            (serving (W.answer service.now) (W.hint service.now)) self.old self.new event.now outs.items) }
        ensures steps { IfOk result (λ outs. StepGoes (request_answer W.Future.answer W.Stream.answer)
            (serving (W.answer service.now) (W.hint service.now)) self.old self.new (Step.Own event.now) outs.items) }
    {
        let (core, outs) = ClientCore::datagram(
            alloc,
            service,
            event.client,
            addr,
            event.at,
            event.secs,
            octets,
            look,
        )?;
        begin(&mut self.clients, &mut self.used, event.client, core, outs)
    }

    /// An exchange begins, unless its number is used or the server shut down.
    pub(crate) fn datagram(
        &mut self,
        alloc: Global,
        service: &W,
        event: &Event,
        addr: SocketAddr,
        octets: &[u8],
    ) -> Result<Vec<Output>, OutOfMemory>
        requires can_call { W.can_call service.now }
        requires kind { event.now.kind ≡ EventKind.Datagram addr octets.now }
        ensures goes { IfOk result (λ outs. Goes (request_answer W.Future.answer W.Stream.answer)
            (serving (W.answer service.now) (W.hint service.now)) self.old self.new event.now outs.items) }
        ensures steps { IfOk result (λ outs. StepGoes (request_answer W.Future.answer W.Stream.answer)
            (serving (W.answer service.now) (W.hint service.now)) self.old self.new (Step.Own event.now) outs.items) }
    {
        let look = self.book.shown();
        if look.closed || self.used.contains(&event.client) {
            return Ok(Vec::new(alloc));
        }
        self.exchange(alloc, service, event, addr, octets, &look)
    }

    /// A connection begins in the slot that it was admitted to, from the book before that.
    fn connect(
        &mut self,
        alloc: Global,
        event: &Event,
        addr: SocketAddr,
        look: &Look,
    ) -> Result<Vec<Output>, OutOfMemory>
        requires kind { event.now.kind ≡ EventKind.Offer addr }
        requires running { look.now.closed ≡ false }
        requires unused { contains nat_cmp self.old.used event.now.client ≡ false }
        ensures goes { (answers : Serving) (before : TheLook)
            → Admits before (Admission.Admitted look.now) → self.old.book ≡ state_after before Admit
            → IfOk result (λ outs. Goes (request_answer W.Future.answer W.Stream.answer) answers
            (record self.old { book = before }) self.new event.now outs.items) }
        ensures steps { (answers : Serving) (before : TheLook)
            → Admits before (Admission.Admitted look.now) → self.old.book ≡ state_after before Admit
            → IfOk result (λ outs. StepGoes (request_answer W.Future.answer W.Stream.answer) answers
            (record self.old { book = before }) self.new (Step.Own event.now) outs.items) }
    {
        let core = ClientCore::admit(alloc, event.client, addr, event.at, look)?;
        let nothing = Vec::new(alloc);
        begin(
            &mut self.clients,
            &mut self.used,
            event.client,
            core,
            nothing,
        )
    }

    /// A connection begins, if a slot is free, and else is turned away. Nothing happens if its number is used or the
    /// server shut down.
    pub(crate) fn offer(
        &mut self,
        alloc: Global,
        event: &Event,
        addr: SocketAddr,
    ) -> Result<Vec<Output>, OutOfMemory>
        requires { event.now.kind ≡ EventKind.Offer addr }
        ensures goes { (answers : Serving) → IfOk result
            (λ outs. Goes (request_answer W.Future.answer W.Stream.answer) answers self.old self.new event.now outs.items) }
        ensures steps { (answers : Serving) → IfOk result
            (λ outs. StepGoes (request_answer W.Future.answer W.Stream.answer) answers self.old self.new (Step.Own event.now) outs.items) }
    {
        if self.used.contains(&event.client) {
            return Ok(Vec::new(alloc));
        }
        match self.book.admit() {
            Admission::Closed => Ok(Vec::new(alloc)),
            Admission::Full { accepted, .. } => {
                turn_away(alloc, &mut self.used, event.client, accepted)
            }
            Admission::Admitted(look) => self.connect(alloc, event, addr, &look),
        }
    }

    /// One event of any kind.
    fn one(&mut self, alloc: Global, service: &W, event: &Event) -> Result<Vec<Output>, OutOfMemory>
        requires { W.can_call service.now }
        ensures { IfOk result (λ outs. Goes (request_answer W.Future.answer W.Stream.answer)
            (serving (W.answer service.now) (W.hint service.now)) self.old self.new event.now outs.items) }
    {
        match &event.kind {
            EventKind::Datagram { addr, octets } => {
                self.datagram(alloc, service, event, *addr, octets.as_slice())
            }
            EventKind::Offer { addr } => self.offer(alloc, event, *addr),
            EventKind::Reconfigure { .. } | EventKind::Shutdown => self.wide(alloc, event),
            _ => self.own(alloc, service, event),
        }
    }

    /// Serves one event more: what is sent for it is appended to the outputs. The service is the same at each event. Of a
    /// server that found no memory nothing is said any more; the outputs stay as they were then.
    pub fn step(
        &mut self,
        alloc: Global,
        service: &W,
        event: &Event,
        outs: &mut Vec<Output>,
    ) -> Result<(), OutOfMemory>
        requires { W.can_call service.now }
        ensures ok { OnOk result (AddsOutputs (request_answer W.Future.answer W.Stream.answer)
            (serving (W.answer service.now) (W.hint service.now)) self.old self.new event.now outs.old.items outs.new.items) }
        ensures kept { OnErr result (outs.new.items ≡ outs.old.items) }
    {
        let more = self.one(alloc, service, event)?;
        append(outs, more)?;
        Ok(())
    }
}

/// An event that all clients hear acts on the book.
pub(crate) fn note(book: &mut BookState, kind: &EventKind)
    ensures { book.new ≡ book_rule book.old kind.now }
{
    match kind {
        EventKind::Reconfigure { dgram, stream } => {
            let _version = book.reconfigure(*dgram, *stream);
        }
        EventKind::Shutdown => {
            let _look = book.shutdown();
        }
        _ => {}
    }
}

/// Serves events one by one: what is sent for them is appended to the outputs.
fn each_event<W: SharedService>(
    alloc: Global,
    service: &W,
    server: &mut Server<W>,
    events: &[Event],
    outs: &mut Vec<Output>,
) -> Result<(), OutOfMemory>
    requires can_call { W.can_call service.now }
    requires nothing { outs.old.items ≡ [] }
    ensures { OnOk result ((settings : TheSettings)
        → Serves (request_answer W.Future.answer W.Stream.answer)
        (serving (W.answer service.now) (W.hint service.now)) settings [] server.old
        → outs.new.items ≡ out (serving (W.answer service.now) (W.hint service.now)) settings events.now) }
{
    for event in events {
        server.step(alloc, service, event, outs)?;
    }
    Ok(())
}

/// What all clients of a service are sent.
pub fn serve<W: SharedService>(
    alloc: Global,
    settings: &Settings,
    service: &W,
    events: &[Event],
) -> Result<Vec<Output>, OutOfMemory>
    requires { W.can_call service.now }
    ensures { IfOk result (λ outs. outs.items ≡ out (serving (W.answer service.now) (W.hint service.now)) settings.now events.now) }
{
    let mut server = Server::new(alloc, settings);
    let mut outs = Vec::new(alloc);
    each_event(alloc, service, &mut server, events, &mut outs)?;
    Ok(outs)
}

/// What all clients are sent. The wrapped service is the given one in the layers of the settings, where the target is told
/// of changed zones.
pub fn serve_events<S: Service<()>, N: Notifiable>(
    alloc: Global,
    settings: &Settings,
    service: S,
    target: N,
    events: &[Event],
) -> Result<Vec<Output>, OutOfMemory>
    requires { S.can_call service }
    ensures { IfOk result (λ outs. outs.items
        ≡ out (serving (replies settings.now (S.answer service) (verdict_on (N.verdict target))) (hint_left settings.now))
        settings.now events.now) }
{
    let service = wrap(alloc, settings, service, target)?;
    serve(alloc, settings, &WithoutMeta { service }, events)
}
