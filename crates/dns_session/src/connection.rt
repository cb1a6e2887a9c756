//! A connection that is open.

ghost use Rattle.std.specs.Prelude.{◌≡◌, ◌<◌, ◌≤◌, ◌-◌, ℕ, IfOk, OnOk, OnErr, [], MatchOption, length, option_map, slice_get, false, true};
ghost use Rattle.dns_session.specs.Serving.{Serving, serving};
ghost use Rattle.dns_session.specs.Slate.{Conf, Slate, IsUnused, with_conf};
ghost use Rattle.dns_session.specs.Frames.{frames};
ghost use Rattle.dns_session.specs.Invoker.{finds_room};
ghost use Rattle.dns_session.specs.Connections.{opened, take_frames, piece, write, tick, wind_up, reconfigured};
ghost use Rattle.dns_session.specs.Requests.{unpolled, request_of_frame};
ghost use Rattle.dns_session.specs.Goings.{changes_kept, flushing_for, takes_memory};
ghost use Rattle.dns_session.specs.Timers.{deadline};
ghost use Rattle.dns_session.specs.Turns.{turn};
ghost use Rattle.dns_session.specs.Waiting.{first_unfinished, next_unfinished};
ghost use Rattle.dns_session.specs.Rule.{rule};
ghost use Rattle.dns_base.specs.Header.{header_of};
ghost use Rattle.dns_framing.specs.PolledRequest.{request_answer};
ghost use Rattle.dns_framing.specs.Req.{Req};

mod lent;

use crate::connection_request::{ConnectionRequest, ask, recount, turn_at};
use crate::flushing::FlushingConnection;
use crate::kept::refused;
use crate::outcome::Outcome;
use crate::requests::{frame_request, shared_in};
use crate::unfinished::Unfinished;
use dns_base::{Message, SocketAddr};
use dns_events::{ConnectionConfig, Event, EventKind, StreamConfig, Why};
use dns_framing::{ConnectionInvoker, Framer, IdleTimer, Request, SharedService, frame_of};
use dns_name::{OptRcode, OutOfMemory};
use std::alloc::Global;

/// What is kept of a connection while it is open: its address, how long a write may take in ms, its timer and the octets in no
/// frame yet. Then its requests that aren't done, how many are in a transaction, and its queue.
#[derive(Drop)]
pub struct OpenConnection<W: SharedService> {
    addr: SocketAddr,
    write_timeout: u64,
    timer: IdleTimer,
    framer: Framer,
    unfinished: Unfinished<ConnectionRequest<W::Future, W::Stream>>,
    transactions: u64,
    invoker: ConnectionInvoker,
}

impl<W: SharedService> OpenConnection<W> {
    ghost use Rattle.dns_session.specs.Goings.{Leads, Asks, TakesFrame, TakesMessage, refusing};
    ghost use Rattle.dns_session.specs.Stands.{IsGoing, IsOpen};

    /// Of no requests, from a moment on. It takes the memory of its queue.
    pub fn open(
        alloc: Global,
        addr: SocketAddr,
        at: u64,
        config: &StreamConfig,
    ) -> Result<Self, OutOfMemory>
        ensures { IfOk result (λ c. (answers : Serving) (client : ℕ) (s : Slate) → IsUnused s → s.conf.over ≡ false
            → s.conf.stream ≡ config.now
            → IsOpen (request_answer W.Future.answer W.Stream.answer) answers client c (opened client addr at s)) }
    {
        let config = config.connection_config();
        let invoker = ConnectionInvoker::new(alloc, at, &config)?;
        Ok(OpenConnection {
            addr,
            write_timeout: config.response_write_timeout(),
            timer: IdleTimer::new(at),
            framer: Framer::new(alloc),
            unfinished: Unfinished::new(alloc),
            transactions: 0,
            invoker,
        })
    }

    /// Takes a new configuration. The queue's bound stays, and so does what was spent of the response budget.
    pub fn reconfigure(&mut self, config: &ConnectionConfig)
        ensures { (answers : Serving) → Leads (request_answer W.Future.answer W.Stream.answer) answers self.old self.new
            Outcome.Nothing (λ s. (reconfigured config.now s, [])) }
    {
        self.invoker.idle_timeout = config.idle_timeout();
        self.invoker.budget.reconfigure(config);
        self.write_timeout = config.response_write_timeout();
    }

    /// How long a write may take in ms.
    pub fn write_timeout(&self) -> u64
        ensures { result ≡ self.now.write_timeout }
    {
        self.write_timeout
    }

    /// For how many ms from this moment on it may still be idle.
    pub fn idle_left(&self, at: u64) -> u64
        ensures { result ≡ deadline self.now.timer self.now.invoker.idle_timeout at - at }
    {
        let timeout = self.invoker.idle_timeout;
        let deadline = self.timer.idle_timeout_deadline(timeout, at);
        deadline.saturating_sub(at)
    }

    /// Makes a request, unless 2^64 - 1 of them were made.
    fn ask(&mut self, alloc: Global, service: &W, request: Request<()>) -> Result<(), OutOfMemory>
        requires { W.can_call service.now }
        ensures { OnOk result (Asks (request_answer W.Future.answer W.Stream.answer)
            (serving (W.answer service.now) (W.hint service.now)) self.old self.new request) }
    {
        if self.unfinished.count() == u64::MAX {
            return Ok(());
        }
        let kept = ask(alloc, service, request)?;
        self.keep(kept)
    }

    /// Keeps a request under its number.
    fn keep(&mut self, kept: ConnectionRequest<W::Future, W::Stream>) -> Result<(), OutOfMemory>
        requires { self.old.unfinished.count < 18446744073709551615 }
        ensures { OnOk result ((answers : Serving) (r : Req (Unit {0}))
            → IsGoing (request_answer W.Future.answer W.Stream.answer) answers kept (unpolled r)
            → Asks (request_answer W.Future.answer W.Stream.answer) answers self.old self.new r) }
    {
        self.unfinished.enter(kept)
    }

    /// Answers a response, of which no request is made, if there is room. If there is none, it takes no memory.
    fn refuse(&mut self, alloc: Global, at: u64, message: &Message) -> Result<(), OutOfMemory>
        ensures ok { OnOk result (self.new ≡ refusing at self.old message.now) }
        ensures err { OnErr result (finds_room (record self.old.invoker { at = at }) ≡ true) }
    {
        self.invoker.set_moment(at);
        if !self.invoker.finds_room() {
            return Ok(());
        }
        match refused(alloc, message, None, OptRcode::FORMERR) {
            Ok(reply) => {
                let _dropped = self.invoker.offer(frame_of(reply));
                Ok(())
            }
            Err(error) => Err(error),
        }
    }

    /// A turn of a request at a moment: a reply that is held is queued if there is room, or else the request is polled once.
    fn turn(&mut self, alloc: Global, at: u64, request: u64) -> Result<Outcome, OutOfMemory>
        ensures { IfOk result (λ outcome. (answers : Serving)
            → Leads (request_answer W.Future.answer W.Stream.answer) answers self.old self.new outcome
            (λ s. (turn answers at request (slice_get s.requests request) s, []))) }
    {
        self.invoker.set_moment(at);
        let (was, now) = turn_at(alloc, &mut self.unfinished, &mut self.invoker, request)?;
        self.transactions = recount(self.unfinished.count(), self.transactions, was, now);
        Ok(Outcome::Nothing)
    }

    /// Takes the frames that are kept, up to a short one.
    fn take_all(
        &mut self,
        alloc: Global,
        service: &W,
        at: u64,
        secs: u64,
    ) -> Result<Outcome, OutOfMemory>
        requires { W.can_call service.now }
        ensures { IfOk result (λ outcome. Leads (request_answer W.Future.answer W.Stream.answer)
            (serving (W.answer service.now) (W.hint service.now)) self.old self.new outcome
            (λ s. take_frames at secs (frames self.old.framer) s)) }
    {
        loop {
            if let Some(outcome) = self.take_one(alloc, service, at, secs)? {
                return Ok(outcome);
            }
        }
    }

    /// Takes the first frame that is kept. The outcome is given if no more is to be taken.
    fn take_one(
        &mut self,
        alloc: Global,
        service: &W,
        at: u64,
        secs: u64,
    ) -> Result<Option<Outcome>, OutOfMemory>
        requires { W.can_call service.now }
        ensures { IfOk result (λ outcome. MatchOption outcome
            (TakesFrame (request_answer W.Future.answer W.Stream.answer)
            (serving (W.answer service.now) (W.hint service.now)) at secs self.old self.new)
            (λ outcome. Leads (request_answer W.Future.answer W.Stream.answer)
            (serving (W.answer service.now) (W.hint service.now)) self.old self.new outcome
            (λ s. take_frames at secs (frames self.old.framer) s))) }
    {
        let Some(frame) = self.framer.next(alloc)? else {
            return Ok(Some(Outcome::Nothing));
        };
        self.take_frame(alloc, service, at, secs, frame)
    }

    /// Takes a frame. One that is shorter than a header ends the connection.
    fn take_frame(
        &mut self,
        alloc: Global,
        service: &W,
        at: u64,
        secs: u64,
        frame: Vec<u8>,
    ) -> Result<Option<Outcome>, OutOfMemory>
        requires { W.can_call service.now }
        ensures { IfOk result (λ outcome. MatchOption outcome
            ((12 ≤ length frame.items) × TakesMessage (request_answer W.Future.answer W.Stream.answer)
            (serving (W.answer service.now) (W.hint service.now)) at secs (record self.old { timer = at }) self.new frame.items)
            (λ outcome. (outcome ≡ Outcome.Ends Why.Short) × (length frame.items < 12))) }
    {
        let Ok(message) = Message::from_octets(frame) else {
            return Ok(Some(Outcome::Ends(Why::Short)));
        };
        self.timer.reset(at);
        self.take_message(alloc, service, at, secs, message)?;
        Ok(None)
    }

    /// Takes a message: a response is refused, and a query asked. A response without room for its reply takes no memory.
    fn take_message(
        &mut self,
        alloc: Global,
        service: &W,
        at: u64,
        secs: u64,
        message: Message,
    ) -> Result<(), OutOfMemory>
        requires { W.can_call service.now }
        ensures ok { OnOk result (TakesMessage (request_answer W.Future.answer W.Stream.answer)
            (serving (W.answer service.now) (W.hint service.now)) at secs self.old self.new message) }
        ensures err { OnErr result ((header_of message).qr ≡ true → finds_room (record self.old.invoker { at = at }) ≡ true) }
    {
        if message.header().qr {
            return self.refuse(alloc, at, &message);
        }
        self.take_query(alloc, service, at, secs, message)
    }

    /// Asks the query that a message is.
    fn take_query(
        &mut self,
        alloc: Global,
        service: &W,
        at: u64,
        secs: u64,
        message: Message,
    ) -> Result<(), OutOfMemory>
        requires { W.can_call service.now }
        ensures { OnOk result (Asks (request_answer W.Future.answer W.Stream.answer)
            (serving (W.answer service.now) (W.hint service.now)) self.old self.new
            (request_of_frame self.old.invoker.idle_timeout self.old.addr at secs message)) }
    {
        let idle_timeout = self.invoker.idle_timeout;
        let mut spare = self.unfinished.spares.take();
        let (shared, memory) = shared_in(alloc, &mut spare, message)?;
        let request = frame_request(idle_timeout, self.addr, at, secs, shared);
        self.ask(alloc, service, request.with_reply_memory(memory))
    }

    /// Octets of the stream came.
    pub fn piece(
        &mut self,
        alloc: Global,
        service: &W,
        at: u64,
        secs: u64,
        octets: &[u8],
    ) -> Result<Outcome, OutOfMemory>
        requires { W.can_call service.now }
        ensures { IfOk result (λ outcome. Leads (request_answer W.Future.answer W.Stream.answer)
            (serving (W.answer service.now) (W.hint service.now)) self.old self.new outcome
            (λ s. piece at secs octets.now s)) }
    {
        if self.framer.is_empty() {
            return self.take_lent(alloc, service, at, secs, octets);
        }
        self.framer.feed(alloc, octets)?;
        let outcome = self.take_all(alloc, service, at, secs)?;
        Ok(outcome)
    }

    /// Writes the front frame. An emptied queue resets the timer.
    pub fn write(&mut self, at: u64, took: u64) -> Outcome
        ensures { (answers : Serving)
            → Leads (request_answer W.Future.answer W.Stream.answer) answers self.old self.new result (λ s. write at took s.queue s) }
    {
        let Some(octets) = self.invoker.queue.pop_front() else {
            return Outcome::Nothing;
        };
        if took > self.write_timeout {
            return Outcome::Ends(Why::WriteTimeout);
        }
        if self.invoker.queue.is_empty() {
            self.timer.reset(at);
            return Outcome::Written(octets);
        }
        Outcome::Written(octets)
    }

    /// Looks at the timer. A request in a transaction holds the connection open.
    fn tick(&self, at: u64) -> Outcome
        ensures { (answers : Serving)
            → Leads (request_answer W.Future.answer W.Stream.answer) answers self.now self.now result (λ s. tick at s) }
    {
        let timeout = self.invoker.idle_timeout;
        if self.transactions == 0 && self.timer.idle_timeout_expired(timeout, at) {
            return Outcome::Ends(Why::Idle);
        }
        Outcome::Nothing
    }

    /// Is to be closed: at once, or once what waits is written, whatever the server's configurations are then.
    pub fn wind_up(&self, why: Why) -> Outcome
        ensures { (answers : Serving) (conf : Slate → Conf)
            → Leads (request_answer W.Future.answer W.Stream.answer) answers self.now self.now result
            (λ s. wind_up why s.queue (with_conf (conf s) s)) }
    {
        if self.invoker.queue.is_empty() {
            return Outcome::Ends(why);
        }
        Outcome::WindsUp(why)
    }

    /// What is kept if it only writes what waits.
    pub fn into_flushing(self, why: Why) -> FlushingConnection
        ensures { result ≡ flushing_for why self }
    {
        let OpenConnection {
            write_timeout,
            invoker,
            ..
        } = self;
        let ConnectionInvoker { queue, .. } = invoker;
        FlushingConnection {
            queue,
            write_timeout,
            why,
        }
    }

    /// How many frames wait to be written.
    pub fn queued(&self) -> usize
        ensures { result ≡ length self.now.invoker.queue.items }
    {
        self.invoker.queue.len()
    }

    /// The frame that is written next.
    pub fn front_frame(&self) -> Option<&[u8]>
        ensures { option_map (λ m. m.now) result ≡ slice_get self.now.invoker.queue.items 0 }
    {
        match self.invoker.queue.front() {
            Some(octets) => Some(octets.as_slice()),
            None => None,
        }
    }

    /// The number of the first request that isn't done.
    pub fn first_unfinished(&self) -> Option<u64>
        ensures { (answers : Serving) (client : ℕ) (s : Slate)
            → IsOpen (request_answer W.Future.answer W.Stream.answer) answers client self.now s → result ≡ first_unfinished s.requests }
    {
        self.unfinished.first()
    }

    /// The number of the first request after the one of a number that isn't done.
    pub fn next_unfinished(&self, request: u64) -> Option<u64>
        ensures { (answers : Serving) (client : ℕ) (s : Slate)
            → IsOpen (request_answer W.Future.answer W.Stream.answer) answers client self.now s
            → result ≡ next_unfinished request s.requests }
    {
        self.unfinished.next(request)
    }

    /// One event of the connection that changes nothing of what is kept.
    fn step_unchanged(&self, event: &Event) -> Outcome
        ensures { changes_kept event.now.kind ≡ false → (answers : Serving)
            → Leads (request_answer W.Future.answer W.Stream.answer) answers self.now self.now result (rule answers event.now) }
    {
        match &event.kind {
            EventKind::Tick => self.tick(event.at),
            EventKind::End => Outcome::Ends(Why::Ended),
            EventKind::Fault => Outcome::Ends(Why::Fault),
            EventKind::Close => self.wind_up(Why::Commanded),
            EventKind::Shutdown => self.wind_up(Why::Shutdown),
            EventKind::Piece(_) | EventKind::Turn { .. } => Outcome::Nothing,
            EventKind::Write { .. } | EventKind::Reconfigure { .. } => Outcome::Nothing,
            EventKind::Datagram { .. } | EventKind::Offer { .. } | EventKind::Release =>
                Outcome::Nothing,
        }
    }

    /// One event of the connection that takes no memory.
    fn step_at_once(&mut self, event: &Event) -> Outcome
        ensures { takes_memory event.now.kind ≡ false → (answers : Serving)
            → Leads (request_answer W.Future.answer W.Stream.answer) answers self.old self.new result (rule answers event.now) }
    {
        match &event.kind {
            EventKind::Write { took } => self.write(event.at, *took),
            EventKind::Reconfigure { stream, .. } => {
                self.reconfigure(&stream.connection_config());
                Outcome::Nothing
            }
            _ => self.step_unchanged(event),
        }
    }

    /// One event of the connection.
    pub fn step(
        &mut self,
        alloc: Global,
        service: &W,
        event: &Event,
    ) -> Result<Outcome, OutOfMemory>
        requires { W.can_call service.now }
        ensures { IfOk result (λ outcome. Leads (request_answer W.Future.answer W.Stream.answer)
            (serving (W.answer service.now) (W.hint service.now)) self.old self.new outcome
            (rule (serving (W.answer service.now) (W.hint service.now)) event.now)) }
    {
        match &event.kind {
            EventKind::Piece(octets) => {
                let octets = octets.as_slice();
                self.piece(alloc, service, event.at, event.secs, octets)
            }
            EventKind::Turn { request } => self.turn(alloc, event.at, *request),
            _ => Ok(self.step_at_once(event)),
        }
    }
}
