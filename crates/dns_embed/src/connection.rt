//! One connection of a client without its requests: octets in, queries out, replies in, frames out.

ghost use Rattle.std.specs.Prelude.{◌≡◌, ◌≤◌, ◌++◌, [], None, length, not, option_map, slice_get, IfOk, OnErr, OnOk};
ghost use Rattle.dns_framing.specs.Frames.{framed};
ghost use Rattle.dns_embed.specs.Connections.{NextIs, NothingDone, WriteIs, at_moment, closing, configured, deadline_of, has_room, is_idle, is_timed, offering, opened, refusing, unless_closing, untaken, waiting};
ghost use Rattle.dns_embed.specs.Transactions.{enqueued_of, frame_in, giving, status_of};

use crate::buffer::put;
use crate::transactions::{Heard, dropped, enqueue, frame, frame_in, hear, recount};
use dns_base::Message;
use dns_framing::{ConnectionInvoker, Framer, IdleTimer, frame_of, is_in_transaction};
use dns_name::OptRcode;
use dns_service::{ConnectionConfig, Enqueued, InvokerStatus, Octets, OutOfMemory};
use dns_session::refused;
use std::alloc::Global;

/// What came of the next frame of a connection.
#[derive(Clone, Copy)]
pub enum Next {
    /// There is none yet.
    Waits,
    /// It is a query. It stands at the front of the buffer, and that many octets are its.
    Query(usize),
    /// It is a query of that many octets, for which the buffer is too short. It stays.
    NoRoom(usize),
    /// It is a response, which was answered with FORMERR if there was room.
    Response,
    /// It is shorter than a header: the connection is to be closed.
    Short,
}

/// What came of the frame that was to be written.
#[derive(Clone, Copy)]
pub enum Written {
    /// There is none.
    Nothing,
    /// It is written, and is queued no more.
    Frame,
    /// The write took longer than it may: it is queued no more, and the connection is to be closed.
    TimedOut,
}

/// What is kept of a connection: the next frame, if it was looked at and not taken; the octets in no frame yet; the idle
/// timer; how long a write may take in ms; the queue of replies with its budget; how many requests are in a transaction; and whether
/// it is to be closed.
#[derive(Drop)]
pub struct Connection {
    front: Option<Octets>,
    framer: Framer,
    timer: IdleTimer,
    write_timeout: u64,
    invoker: ConnectionInvoker,
    transactions: u64,
    is_closing: bool,
}

impl Connection {
    /// A connection of a configuration, from a moment in ms on. The memory of its queue is taken here.
    pub fn open(
        alloc: Global,
        at: u64,
        config: &ConnectionConfig,
    ) -> Result<Connection, OutOfMemory>
        ensures { IfOk result (λ c. c ≡ opened at config.now) }
    {
        let invoker = ConnectionInvoker::new(alloc, at, config)?;
        Ok(Connection {
            front: None,
            framer: Framer::new(alloc),
            timer: IdleTimer::new(at),
            write_timeout: config.response_write_timeout(),
            invoker,
            transactions: 0,
            is_closing: false,
        })
    }

    /// Takes a new configuration. The queue's bound stays, and so does what was spent of the response budget.
    pub fn configure(&mut self, config: &ConnectionConfig)
        ensures { self.new ≡ unless_closing self.old (configured config.now self.old) }
    {
        if self.is_closing {
            return;
        }
        self.invoker.idle_timeout = config.idle_timeout();
        self.invoker.budget.reconfigure(config);
        self.write_timeout = config.response_write_timeout();
    }

    /// Octets of its stream came. They are dropped if it is to be closed. If there is no memory all stays.
    pub fn feed(&mut self, alloc: Global, octets: &[u8]) -> Result<(), OutOfMemory>
        ensures ok { OnOk result (self.new ≡ unless_closing self.old (record self.old { framer = self.old.framer ++ octets.now })) }
        ensures err { OnErr result (self.new ≡ self.old) }
    {
        if self.is_closing {
            return Ok(());
        }
        self.framer.feed(alloc, octets)
    }

    /// Takes the next frame at a moment in ms, if all of it came. A query is written into the buffer, if it fits. A frame that is
    /// taken resets the timer (RFC 7766, section 6.2.3). If there is no memory no frame is taken.
    pub fn next(&mut self, alloc: Global, at: u64, buffer: &mut [u8]) -> Result<Next, OutOfMemory>
        ensures next { IfOk result (NextIs at self.old self.new buffer.old buffer.new) }
        ensures err { OnErr result (NothingDone at self.old self.new × (buffer.new ≡ buffer.old)) }
    {
        self.look(alloc)?;
        let Some(octets) = self.front.take() else {
            return Ok(Next::Waits);
        };
        let Ok(message) = Message::from_octets(octets.into_vec()) else {
            return Ok(Next::Short);
        };
        if message.header().qr {
            self.refuse(alloc, at, message)?;
            return Ok(Next::Response);
        }
        let octets = message.as_slice();
        let len = octets.len();
        if put(octets, buffer) {
            self.timer.reset(at);
            return Ok(Next::Query(len));
        }
        self.front = Some(Octets::from_vec(message.into_octets()));
        Ok(Next::NoRoom(len))
    }

    /// Looks at the next frame, if all of it came.
    fn look(&mut self, alloc: Global) -> Result<(), OutOfMemory>
        ensures same { waiting self.new ≡ waiting self.old }
        ensures octets { untaken self.new ≡ untaken self.old }
        ensures here { OnOk result (self.new.front ≡ None → waiting self.new ≡ []) }
        ensures timer { self.new.timer ≡ self.old.timer }
        ensures write_timeout { self.new.write_timeout ≡ self.old.write_timeout }
        ensures invoker { self.new.invoker ≡ self.old.invoker }
        ensures transactions { self.new.transactions ≡ self.old.transactions }
        ensures is_closing { self.new.is_closing ≡ self.old.is_closing }
    {
        if self.front.is_some() {
            return Ok(());
        }
        match self.framer.next(alloc) {
            Ok(Some(frame)) => {
                self.front = Some(Octets::from_vec(frame));
                Ok(())
            }
            Ok(None) => Ok(()),
            Err(error) => Err(error),
        }
    }

    /// Answers a response with FORMERR, if there is room. If there is no memory it is kept in front.
    fn refuse(&mut self, alloc: Global, at: u64, message: Message) -> Result<(), OutOfMemory>
        requires { self.old.front ≡ None }
        ensures ok { OnOk result (self.new ≡ refusing at self.old message) }
        ensures err { OnErr result (self.new ≡ record (at_moment at self.old) { front = Some message }) }
    {
        self.invoker.set_moment(at);
        if !self.invoker.finds_room() {
            self.timer.reset(at);
            return Ok(());
        }
        match refused(alloc, &message, None, OptRcode::FORMERR) {
            Ok(reply) => {
                let _dropped = self.invoker.offer(frame_of(reply));
                self.timer.reset(at);
                Ok(())
            }
            Err(error) => {
                self.front = Some(Octets::from_vec(message.into_octets()));
                Err(error)
            }
        }
    }

    /// Queues the octets of a reply of at most 65,535 as a frame, at a moment in ms. It needs room in the queue and in the response
    /// budget, and a connection that isn't to be closed. It says whether it was queued. If there is no memory the queue stays.
    pub fn offer(&mut self, alloc: Global, at: u64, reply: &[u8]) -> Result<bool, OutOfMemory>
        requires { length reply.now ≤ 65535 }
        ensures room { IfOk result (λ queued. queued ≡ has_room at self.old) }
        ensures ok { OnOk result (self.new ≡ unless_closing self.old (offering at self.old (framed reply.now))) }
        ensures err { OnErr result (self.new ≡ at_moment at self.old) }
    {
        if self.is_closing {
            return Ok(false);
        }
        self.invoker.set_moment(at);
        if !self.invoker.finds_room() {
            return Ok(false);
        }
        let frame = frame(alloc, reply)?;
        let _dropped = self.invoker.offer(frame);
        Ok(true)
    }

    /// What the service of a request gave, at a moment in ms: what it tells is heard, and then the octets of its reply, at most
    /// 65,535, are queued as a frame, if there is room. No octets are no reply. It says how far the request is then, and what
    /// became of its reply: one that is Held is given again, with nothing to be heard. Once it is to be closed nothing is heard, and
    /// the reply is dropped. If there is no memory all stays.
    pub fn give(
        &mut self,
        alloc: Global,
        at: u64,
        status: InvokerStatus,
        heard: Heard,
        reply: &[u8],
    ) -> Result<(InvokerStatus, Option<Enqueued>), OutOfMemory>
        requires { length reply.now ≤ 65535 }
        ensures status { IfOk result (λ g. g.0 ≡ status_of at status heard (frame_in reply.now) self.old) }
        ensures enqueued { IfOk result (λ g. g.1 ≡ enqueued_of at status heard (frame_in reply.now) self.old) }
        ensures ok { OnOk result (self.new ≡ unless_closing self.old (giving at status heard (frame_in reply.now) self.old)) }
        ensures err { OnErr result (self.new ≡ self.old) }
    {
        if self.is_closing {
            return Ok((status, dropped(reply)));
        }
        let frame = frame_in(alloc, reply)?;
        self.invoker.set_moment(at);
        self.invoker.begin(status);
        hear(&mut self.invoker, heard);
        let enqueued = enqueue(&mut self.invoker, frame);
        let after = self.invoker.status;
        let (was, now) = (is_in_transaction(status), is_in_transaction(after));
        self.transactions = recount(self.transactions, was, now);
        Ok((after, enqueued))
    }

    /// How many frames wait to be written.
    pub fn queued(&self) -> usize
        ensures { result ≡ length self.now.invoker.queue.items }
    {
        self.invoker.queue.len()
    }

    /// The frame that is to be written next.
    pub fn front_frame(&self) -> Option<&[u8]>
        ensures { option_map (λ m. m.now) result ≡ slice_get self.now.invoker.queue.items 0 }
    {
        match self.invoker.queue.front() {
            Some(octets) => Some(octets.as_slice()),
            None => None,
        }
    }

    /// The front frame was written, at a moment in ms, in that many ms. An emptied queue resets the timer.
    pub fn written(&mut self, at: u64, took: u64) -> Written
        ensures { WriteIs at took self.old self.new result }
    {
        let Some(_written) = self.invoker.queue.pop_front() else {
            return Written::Nothing;
        };
        if took > self.write_timeout {
            return Written::TimedOut;
        }
        if self.invoker.queue.is_empty() {
            self.timer.reset(at);
            return Written::Frame;
        }
        Written::Frame
    }

    /// Is to be closed, by a command or since the server shuts down: what waits may still be written, and nothing else comes or is
    /// taken any more. Its requests are no longer served.
    pub fn close(&mut self, alloc: Global)
        ensures { self.new ≡ closing self.old }
    {
        self.front = None;
        self.framer = Framer::new(alloc);
        self.transactions = 0;
        self.is_closing = true;
    }

    /// Whether it is to be closed. It is closed once no frame waits.
    pub fn is_closing(&self) -> bool
        ensures { result ≡ self.now.is_closing }
    {
        self.is_closing
    }

    /// Whether the idle timer may close it: no request is in a transaction, and it isn't to be closed anyway.
    fn is_timed(&self) -> bool
        ensures { result ≡ is_timed self.now }
    {
        !self.is_closing && self.transactions == 0
    }

    /// The moment in ms at which it was idle for too long. There is none, which is u64::MAX, while a request is in a transaction, and
    /// once it is to be closed.
    pub fn deadline(&self, now: u64) -> u64
        ensures { result ≡ deadline_of now self.now }
    {
        if !self.is_timed() {
            return u64::MAX;
        }
        self.timer
            .idle_timeout_deadline(self.invoker.idle_timeout, now)
    }

    /// Whether it was idle for too long by now, and no request is in a transaction. One that is to be closed isn't idle.
    pub fn is_idle(&self, now: u64) -> bool
        ensures { result ≡ is_idle now self.now }
    {
        let timeout = self.invoker.idle_timeout;
        self.is_timed() && self.timer.idle_timeout_expired(timeout, now)
    }

    /// For how many ms it may be idle.
    pub fn idle_timeout(&self) -> u64
        ensures { result ≡ self.now.invoker.idle_timeout }
    {
        self.invoker.idle_timeout
    }
}
