//! One client's core.

ghost use Rattle.std.specs.Prelude.{◌≡◌, ◌≤◌, ℕ, [], true, false, length, slice_get, option_map, None, IfOk, OnOk, OnErr};
ghost use Rattle.std.specs.Result.{IsOkAnd};
ghost use Rattle.dns_events.specs.declared.event.Event.{Event};
ghost use Rattle.dns_events.specs.declared.event.EventKind.{EventKind};
ghost use Rattle.dns_session.specs.Serving.{Serving, serving};
ghost use Rattle.dns_session.specs.Slate.{Slate, IsUnused, conf_of, phase_is_closed};
ghost use Rattle.dns_session.specs.Datagrams.{datagram, datagrams_to};
ghost use Rattle.dns_session.specs.Connections.{opened};
ghost use Rattle.dns_session.specs.Outputs.{outputs_in};
ghost use Rattle.dns_session.specs.Rule.{rule};
ghost use Rattle.dns_session.specs.After.{slate_after};
ghost use Rattle.dns_session.specs.News.{look_effect, new_configurations};
ghost use Rattle.dns_session.specs.Spent.{is_spent};
ghost use Rattle.dns_session.specs.Stands.{sole_number};
ghost use Rattle.dns_session.specs.Waiting.{first_unfinished, idle_left, next_unfinished};
ghost use Rattle.dns_framing.specs.PolledRequest.{request_answer};

use crate::connection::OpenConnection;
use crate::exchange::{BegunExchange, begin_cut, datagrams_to};
use crate::flushing::FlushingConnection;
use crate::kept::KeptRequest;
use crate::requests::cut_datagram;
use crate::sent::Sent;
use crate::states::{lose, piece_state, shut_down, step_state, write_state};
use dns_admission::Look;
use dns_base::SocketAddr;
use dns_events::{Event, Output};
use dns_framing::SharedService;
use dns_name::OutOfMemory;
use std::alloc::Global;

/// What a client is, with what is kept of it.
#[derive(Drop)]
pub(crate) enum State<W: SharedService> {
    /// One datagram, and its request until that is done.
    Exchange(Option<KeptRequest<W::Future, W::Stream>>),
    /// A connection that is open.
    Open(OpenConnection<W>),
    /// A connection that only writes what waits, before it is closed.
    Flushing(FlushingConnection),
    /// A connection that is closed, and whether it gave its slot back.
    Closed { freed: bool },
    /// A call found no memory, and nothing is kept any more.
    Lost,
}

/// What is kept of one client of a service: its number, what it is, and the version of the configurations that it heard last.
#[derive(Drop)]
pub struct ClientCore<W: SharedService> {
    client: u64,
    state: State<W>,
    version: u64,
}

/// The number of an exchange's request, if that is kept.
fn sole_number<F, R>(unfinished: &Option<KeptRequest<F, R>>) -> Option<u64>
    ensures { result ≡ sole_number unfinished.now }
{
    match unfinished {
        Some(_) => Some(0),
        None => None,
    }
}

impl<W: SharedService> ClientCore<W> {
    ghost use Rattle.dns_session.specs.Stands.{Stands, GoesAs, IsLost, state_is_spent, is_freed, is_closed, waiting, write_limit};

    /// An exchange by its datagram, at a moment in ms and seconds and by a look without a shutdown, and what the client is sent.
    /// What is longer than 1,024 octets is cut. Below 12 octets no request is made, and a response is refused at once.
    pub fn datagram(
        alloc: Global,
        service: &W,
        client: u64,
        addr: SocketAddr,
        at: u64,
        secs: u64,
        octets: &[u8],
        look: &Look,
    ) -> Result<(Self, Vec<Output>), OutOfMemory>
        requires can_call { W.can_call service.now }
        requires running { look.now.closed ≡ false }
        ensures begun { IfOk result (λ p. (s : Slate) → IsUnused s → s.conf ≡ conf_of look.now
            → (p.1.items ≡ (datagram client addr at secs octets.now s).1)
            × Stands (request_answer W.Future.answer W.Stream.answer) (serving (W.answer service.now) (W.hint service.now)) p.0
            (datagram client addr at secs octets.now s).0) }
        ensures version { IfOk result (λ p. p.0.version ≡ look.now.version) }
    {
        let octets = cut_datagram(alloc, octets)?;
        let begun = begin_cut(
            alloc,
            service,
            addr,
            at,
            secs,
            octets,
            &look.dgram,
            &mut None,
        )?;
        ClientCore::exchange(alloc, client, look.version, begun)
    }

    /// What is kept of an exchange that began, under a version, and what its client is sent at once.
    fn exchange(
        alloc: Global,
        client: u64,
        version: u64,
        begun: BegunExchange<W>,
    ) -> Result<(Self, Vec<Output>), OutOfMemory>
        ensures { IfOk result (λ p. (p.0 ≡ record { client = client; state = State.Exchange begun.0; version = version })
            × (p.1.items ≡ datagrams_to client begun.1)) }
    {
        let (unfinished, sent) = begun;
        let outs = datagrams_to(alloc, client, sent)?;
        let core = ClientCore {
            client,
            state: State::Exchange(unfinished),
            version,
        };
        Ok((core, outs))
    }

    /// An open connection from a moment on, by a look that shows no shutdown. It takes the memory of its queue.
    pub fn admit(
        alloc: Global,
        client: u64,
        addr: SocketAddr,
        at: u64,
        look: &Look,
    ) -> Result<Self, OutOfMemory>
        requires { look.now.closed ≡ false }
        ensures begun { IfOk result (λ core. (answers : Serving) (s : Slate) → IsUnused s → s.conf ≡ conf_of look.now
            → Stands (request_answer W.Future.answer W.Stream.answer) answers core (opened client addr at s)) }
        ensures version { IfOk result (λ core. core.version ≡ look.now.version) }
    {
        let connection = OpenConnection::open(alloc, addr, at, &look.stream)?;
        Ok(ClientCore {
            client,
            state: State::Open(connection),
            version: look.version,
        })
    }

    /// One event of the client. If it finds no memory, nothing is kept any more, and every later call gives nothing.
    pub fn step(
        &mut self,
        alloc: Global,
        service: &W,
        event: &Event,
    ) -> Result<Vec<Output>, OutOfMemory>
        requires { W.can_call service.now }
        // At each slate that the core stands for it sends what the rule says, and stands for the slate that the rule says.
        ensures follows { IfOk result (λ outs. GoesAs (request_answer W.Future.answer W.Stream.answer)
            (serving (W.answer service.now) (W.hint service.now)) self.old self.new outs.items
            (rule (serving (W.answer service.now) (W.hint service.now)) event.now)) }
        ensures client { self.new.client ≡ self.old.client }
        ensures version { self.new.version ≡ self.old.version }
        // Running out of memory, and what comes after it.
        ensures loses { OnErr result (IsLost self.new) }
        ensures lost { IsLost self.old → IsOkAnd result (λ outs. outs.items ≡ []) × IsLost self.new }
    {
        match step_state(&mut self.state, alloc, service, self.client, event) {
            Ok(outs) => Ok(outs),
            Err(error) => {
                lose(&mut self.state);
                Err(error)
            }
        }
    }

    /// Octets of the stream came, at a moment in ms and seconds. It does as `step` by a Piece of them, and makes neither an event
    /// nor a list.
    pub fn piece(
        &mut self,
        alloc: Global,
        service: &W,
        at: u64,
        secs: u64,
        octets: &[u8],
    ) -> Result<Sent, OutOfMemory>
        requires { W.can_call service.now }
        // By each event of these octets at this moment, at each slate that the core stands for, it sends what the rule says.
        ensures follows { IfOk result (λ sent. (e : Event) → e.at ≡ at → e.secs ≡ secs → e.kind ≡ EventKind.Piece octets.now
            → GoesAs (request_answer W.Future.answer W.Stream.answer)
            (serving (W.answer service.now) (W.hint service.now)) self.old self.new (outputs_in self.old.client sent)
            (rule (serving (W.answer service.now) (W.hint service.now)) e)) }
        ensures client { self.new.client ≡ self.old.client }
        ensures version { self.new.version ≡ self.old.version }
        // Running out of memory, and what comes after it.
        ensures loses { OnErr result (IsLost self.new) }
        ensures lost { IsLost self.old → IsOkAnd result (λ sent. sent ≡ Sent.Nothing) × IsLost self.new }
    {
        match piece_state(&mut self.state, alloc, service, at, secs, octets) {
            Ok(sent) => Ok(sent),
            Err(error) => {
                lose(&mut self.state);
                Err(error)
            }
        }
    }

    /// The frame that is written next was written at a moment in ms, which took that many ms. It does as `step` by a Write, makes
    /// neither an event nor a list, and takes no memory.
    pub fn write(&mut self, at: u64, took: u64) -> Sent
        // By each such event, at each slate that the core stands for, it sends what the rule says.
        ensures follows { (answers : Serving) (e : Event) → e.at ≡ at → e.kind ≡ EventKind.Write took
            → GoesAs (request_answer W.Future.answer W.Stream.answer) answers self.old self.new (outputs_in self.old.client result)
            (rule answers e) }
        ensures client { self.new.client ≡ self.old.client }
        ensures version { self.new.version ≡ self.old.version }
        ensures lost { IsLost self.old → (result ≡ Sent.Nothing) × IsLost self.new }
    {
        write_state(&mut self.state, at, took)
    }

    /// An open connection hears configurations, if their version is new.
    fn apply_config(&mut self, look: &Look)
        ensures follows { (answers : Serving)
            → GoesAs (request_answer W.Future.answer W.Stream.answer) answers self.old self.new []
            (λ s. (slate_after answers s (new_configurations self.old.version look.now), [])) }
        ensures client { self.new.client ≡ self.old.client }
        ensures version { self.new.version ≡ look.now.version }
        ensures lost { IsLost self.old → IsLost self.new }
    {
        if look.version == self.version {
            return;
        }
        self.version = look.version;
        if let State::Open(connection) = &mut self.state {
            connection.reconfigure(&look.stream.connection_config());
        }
    }

    /// A look at the book: the client hears of what is new to it, the configurations and then the shutdown. If it finds no
    /// memory, nothing is kept any more, and every later call gives nothing.
    pub fn saw(&mut self, alloc: Global, look: &Look) -> Result<Vec<Output>, OutOfMemory>
        // At each slate that the core stands for, the look's news do what the rules say.
        ensures follows { IfOk result (λ outs. (answers : Serving)
            → GoesAs (request_answer W.Future.answer W.Stream.answer) answers self.old self.new outs.items
            (look_effect answers self.old.version look.now)) }
        ensures client { self.new.client ≡ self.old.client }
        ensures version { self.new.version ≡ look.now.version }
        // Running out of memory, and what comes after it.
        ensures loses { OnErr result (IsLost self.new) }
        ensures lost { IsLost self.old → IsOkAnd result (λ outs. outs.items ≡ []) × IsLost self.new }
    {
        self.apply_config(look);
        if !look.closed {
            return Ok(Vec::new(alloc));
        }
        match shut_down(&mut self.state, alloc, self.client) {
            Ok(outs) => Ok(outs),
            Err(error) => {
                lose(&mut self.state);
                Err(error)
            }
        }
    }

    /// Whether nothing changes any more: an exchange whose request is done, or a closed connection that was released.
    pub fn is_spent(&self) -> bool
        ensures value { result ≡ state_is_spent self.now.state }
        ensures spent { (answers : Serving) (s : Slate)
            → Stands (request_answer W.Future.answer W.Stream.answer) answers self.now s → state_is_spent self.now.state ≡ is_spent s }
    {
        match &self.state {
            State::Exchange(unfinished) => unfinished.is_none(),
            State::Open(_) | State::Flushing(_) => false,
            State::Closed { freed } => *freed,
            State::Lost => true,
        }
    }

    /// Whether the connection gave its slot back.
    pub fn is_freed(&self) -> bool
        ensures value { result ≡ is_freed self.now.state }
        ensures freed { (answers : Serving) (s : Slate)
            → Stands (request_answer W.Future.answer W.Stream.answer) answers self.now s → is_freed self.now.state ≡ s.freed }
    {
        match &self.state {
            State::Closed { freed } => *freed,
            _ => false,
        }
    }

    /// Whether the connection is closed, or a call found no memory.
    pub fn is_closed(&self) -> bool
        ensures value { result ≡ is_closed self.now.state }
        ensures closed { (answers : Serving) (s : Slate)
            → Stands (request_answer W.Future.answer W.Stream.answer) answers self.now s → result ≡ phase_is_closed s.phase }
        ensures lost { IsLost self.now → result ≡ true }
    {
        matches!(&self.state, State::Closed { .. } | State::Lost)
    }

    /// How many frames wait to be written.
    pub fn queued(&self) -> usize
        ensures value { result ≡ length (waiting self.now.state) }
        ensures queue { (answers : Serving) (s : Slate)
            → Stands (request_answer W.Future.answer W.Stream.answer) answers self.now s → result ≡ length s.queue }
        ensures lost { IsLost self.now → result ≡ 0 }
    {
        match &self.state {
            State::Open(connection) => connection.queued(),
            State::Flushing(connection) => connection.queued(),
            State::Exchange(_) | State::Closed { .. } | State::Lost => 0,
        }
    }

    /// The frame that is written next, if one waits.
    pub fn front_frame(&self) -> Option<&[u8]>
        ensures value { option_map (λ m. m.now) result ≡ slice_get (waiting self.now.state) 0 }
        ensures queue { (answers : Serving) (s : Slate)
            → Stands (request_answer W.Future.answer W.Stream.answer) answers self.now s
            → option_map (λ m. m.now) result ≡ slice_get s.queue 0 }
        ensures lost { IsLost self.now → result ≡ None }
    {
        match &self.state {
            State::Open(connection) => connection.front_frame(),
            State::Flushing(connection) => connection.front_frame(),
            State::Exchange(_) | State::Closed { .. } | State::Lost => None,
        }
    }

    /// How long the frame that is written next may take in ms, if one waits.
    pub fn write_timeout(&self) -> u64
        ensures value { result ≡ write_limit self.now.state }
        ensures timeout { (answers : Serving) (s : Slate)
            → Stands (request_answer W.Future.answer W.Stream.answer) answers self.now s → 1 ≤ length s.queue
            → result ≡ s.connection.response_write_timeout }
    {
        match &self.state {
            State::Open(connection) => connection.write_timeout(),
            State::Flushing(connection) => connection.write_timeout(),
            State::Exchange(_) | State::Closed { .. } | State::Lost => 0,
        }
    }

    /// For how many ms from this moment on an open connection may still be idle; 0 of any other client.
    pub fn idle_left(&self, at: u64) -> u64
        ensures idle { (answers : Serving) (s : Slate)
            → Stands (request_answer W.Future.answer W.Stream.answer) answers self.now s → result ≡ idle_left at s }
        ensures lost { IsLost self.now → result ≡ 0 }
    {
        match &self.state {
            State::Open(connection) => connection.idle_left(at),
            State::Exchange(_) | State::Flushing(_) | State::Closed { .. } | State::Lost => 0,
        }
    }

    /// The number of the first request that isn't done, if there is one.
    pub fn first_unfinished(&self) -> Option<u64>
        ensures requests { (answers : Serving) (s : Slate)
            → Stands (request_answer W.Future.answer W.Stream.answer) answers self.now s → result ≡ first_unfinished s.requests }
        ensures lost { IsLost self.now → result ≡ None }
    {
        match &self.state {
            State::Exchange(unfinished) => sole_number(unfinished),
            State::Open(connection) => connection.first_unfinished(),
            State::Flushing(_) | State::Closed { .. } | State::Lost => None,
        }
    }

    /// The number of the first request after the one of a number that isn't done, if there is one.
    #[tactic(auto, using(crate::proofs::Waiting::exchange_behind))]
    pub fn next_unfinished(&self, request: u64) -> Option<u64>
        ensures requests { (answers : Serving) (s : Slate)
            → Stands (request_answer W.Future.answer W.Stream.answer) answers self.now s → result ≡ next_unfinished request s.requests }
        ensures lost { IsLost self.now → result ≡ None }
    {
        match &self.state {
            State::Open(connection) => connection.next_unfinished(request),
            State::Exchange(_) => None,
            State::Flushing(_) | State::Closed { .. } | State::Lost => None,
        }
    }
}
