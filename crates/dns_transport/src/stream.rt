//! A server of connections.

ghost use Rattle.std.specs.Prelude.{◌≡◌, ◌≢◌, ◌≤◌, true, IfOk};
ghost use Rattle.std.specs.Arc.{arc_value};
ghost use Rattle.dns_service.specs.Config.{default_dgram, default_stream};
ghost use Rattle.dns_admission.specs.Machine.{new_state};
ghost use Rattle.dns_book.specs.Seats.{IsSound, new_known, first_half, second_half};
ghost use Rattle.dns_transport.specs.Parts.{IsSeatAt, known_of};
ghost use Rattle.dns_transport.specs.Runs.{EndsAs, ConnectionsRan};

use crate::buf::{BufSource, VecBufSource};
use crate::conn_context::ConnContext;
use crate::control::Control;
use crate::hook::CountingHook;
use crate::metered::Metered;
use crate::metered_accept::MeteredAccept;
use crate::metrics::ServerMetrics;
use crate::server_parts::{ServerParts, split_off};
use dns_book::{Book, BookSeat};
use dns_host::{AcceptEnd, ConnectionWork, NoHook, PreConnect, Silent};
use dns_io::{AsyncAccept, Clock, Spawner};
use dns_name::OutOfMemory;
use dns_outside::MioAccept;
use dns_service::{SharedService, StreamConfig};
use std::alloc::Global;
use std::marker::Model;
use std::sync::{Arc, Wait};
use std::thread::Threads;

/// How a server of connections ended.
#[derive(Clone, Copy, Debug, PartialEq, Eq)]
pub enum StreamEnd {
    /// A look showed a shutdown.
    Shutdown,
    /// A call found no memory.
    OutOfMemory,
}

/// The end of a server, by that of its loop without a count.
fn end_of(end: AcceptEnd) -> StreamEnd
    requires { end ≢ AcceptEnd.Counted }
    ensures { EndsAs end result }
{
    match end {
        AcceptEnd::Shutdown => StreamEnd::Shutdown,
        AcceptEnd::OutOfMemory => StreamEnd::OutOfMemory,
        AcceptEnd::Counted => unreachable!(),
    }
}

/// A server of connections over a real socket.
pub type TcpServer<W, C, P, H = NoHook> = StreamServer<MioAccept, VecBufSource, W, C, P, H>;

/// A server of connections, with a book and metrics of its own. Its book has one seat more for each control. A source of
/// buffers is a part of it, and no answer depends on it.
#[derive(Drop)]
pub struct StreamServer<A, B, W, C, P, H = NoHook> {
    accept: MeteredAccept<A>,
    buf: B,
    conn_context: ConnContext<W, C, CountingHook<H>>,
    spawner: P,
    metrics: Arc<ServerMetrics>,
    // None while a call has it.
    seat: Option<BookSeat>,
}

impl<A, B, W, C, P, H> Model for StreamServer<A, B, W, C, P, H> {
    ghost use Rattle.std.specs.Prelude.{◌≡◌, true};
    ghost use Rattle.std.specs.Arc.{arc_value};
    ghost use Rattle.dns_transport.specs.Parts.{StreamParts, IsSeatAt, known_of};

    ghost Value = { StreamParts A W C P };

    ghost view = { λ s. record {
      accept = s.accept;
      service = arc_value s.conn_context.service;
      clock = s.conn_context.clock;
      spawner = s.spawner;
      book = arc_value s.conn_context.book;
      known = known_of s.seat;
    } };

    ghost invariant = { λ s. IsSeatAt (arc_value s.conn_context.book) s.seat × (arc_value s.metrics ≡ true) };
}

impl<
    A: AsyncAccept + Drop,
    B: BufSource + Drop,
    W: SharedService,
    C: Clock + Drop,
    P: Drop,
> StreamServer<A, B, W, C, P, NoHook> {
    /// A server with default configurations.
    pub fn new(
        alloc: Global,
        accept: A,
        buf: B,
        service: Arc<W>,
        clock: C,
        spawner: P,
    ) -> Result<Self, OutOfMemory>
        ensures parts { IfOk result (λ s. (s.accept ≡ accept) × (s.service ≡ arc_value service) × (s.clock ≡ clock)
            × (s.spawner ≡ spawner)) }
        ensures known { IfOk result (λ s. s.known ≡ new_known (new_state default_dgram default_stream)) }
    {
        StreamServer::with_config(
            alloc,
            accept,
            buf,
            service,
            clock,
            spawner,
            StreamConfig::new(),
        )
    }

    /// A server with this configuration. That of datagrams, which its book has too, is the default one.
    pub fn with_config(
        alloc: Global,
        accept: A,
        buf: B,
        service: Arc<W>,
        clock: C,
        spawner: P,
        config: StreamConfig,
    ) -> Result<Self, OutOfMemory>
        ensures parts { IfOk result (λ s. (s.accept ≡ accept) × (s.service ≡ arc_value service) × (s.clock ≡ clock)
            × (s.spawner ≡ spawner)) }
        ensures known { IfOk result (λ s. s.known ≡ new_known (new_state default_dgram config)) }
    {
        match ServerParts::of_connections(alloc, config) {
            Ok(server_parts) => Ok(StreamServer::on(
                server_parts,
                accept,
                buf,
                service,
                clock,
                spawner,
            )),
            Err(error) => Err(error),
        }
    }

    // A server on this ground, whose metrics count connections.
    fn on(
        server_parts: ServerParts,
        accept: A,
        buf: B,
        service: Arc<W>,
        clock: C,
        spawner: P,
    ) -> Self
        requires seat { server_parts.seat.book ≡ arc_value server_parts.book }
        requires metrics { arc_value server_parts.metrics ≡ true }
        ensures { result ≡ record {
          accept = accept;
          service = arc_value service;
          clock = clock;
          spawner = spawner;
          book = arc_value server_parts.book;
          known = server_parts.seat.known;
        } }
    {
        let ServerParts {
            book,
            seat,
            metrics,
            counting,
        } = server_parts;
        StreamServer {
            accept: MeteredAccept::new(accept, counting),
            buf,
            conn_context: ConnContext {
                book,
                service,
                clock,
                hook: CountingHook { inner: NoHook },
            },
            spawner,
            metrics,
            seat: Some(seat),
        }
    }
}

impl<
    A: AsyncAccept + Drop,
    B: BufSource + Drop,
    W: SharedService,
    C: Clock + Drop,
    P: Drop,
    H: Drop,
> StreamServer<A, B, W, C, P, H> {
    /// Replaces the hook, which is called once on each link that is admitted. It gets the link of the accept object.
    pub fn with_pre_connect_hook<K: PreConnect<A::Link>>(
        self,
        hook: K,
    ) -> StreamServer<A, B, W, C, P, K>
        ensures { result ≡ self }
    {
        let StreamServer {
            accept,
            buf,
            conn_context,
            spawner,
            metrics,
            seat,
        } = self;
        StreamServer {
            accept,
            buf,
            conn_context: conn_context.with_hook(CountingHook { inner: hook }),
            spawner,
            metrics,
            seat,
        }
    }

    /// The accept object.
    pub fn source(&self) -> &A
        ensures { result.now ≡ self.now.accept }
    {
        self.accept.inner()
    }

    /// What the server counts: frames read and written, and the connections that are admitted, each until it is closed.
    pub fn metrics(&self) -> &Arc<ServerMetrics>
        ensures { arc_value result.now ≡ true }
    {
        &self.metrics
    }

    /// A control of this server, for any thread. The server's seat is split, and the control has the second half.
    pub fn control<R: Wait>(&mut self, rt: &R) -> Control
        ensures server { self.new ≡ record self.old { known = first_half self.old.known } }
        ensures control { result ≡ record { book = self.old.book; known = second_half self.old.known } }
        ensures sound { IsSound self.new.known × IsSound result.known }
    {
        split_off(rt, &self.conn_context.book, &mut self.seat)
    }
}

impl<
    A: AsyncAccept,
    B,
    W: SharedService + Send + Sync + 'static,
    C: Clock + Send + Drop + 'static,
    P: Spawner<ConnectionWork<Metered<A::Link>, C, Silent, W>>,
    H: PreConnect<A::Link>,
> StreamServer<A, B, W, C, P, H>
where
    A::Link: Send + Drop + 'static,
    W::Future: Send,
    W::Stream: Send,
{
    /// Accepts connections until a look shows a shutdown. Then it waits by `join_all` for those that are served. No clause says
    /// that they have ended.
    #[tactic(auto, using(crate::proofs::JoinedWork::not_counted, crate::proofs::JoinedWork::ran_joined))]
    pub fn run<R: Threads + Wait + Copy + Send + 'static>(
        &mut self,
        rt: &R,
        alloc: Global,
    ) -> StreamEnd
        requires { W.can_call self.old.service }
        ensures observed { ConnectionsRan result (A.tells self.new.accept × P.tells self.new.spawner)
            (A.tells self.old.accept × P.tells self.old.spawner)
            self.old.known self.new.known (A.accept_traffic self.old.accept) (A.accept_traffic self.new.accept)
            (P.given self.old.spawner) (P.given self.new.spawner)
            (A.faults self.old.accept) (A.faults self.new.accept) }
        ensures same { (self.new.book ≡ self.old.book) × (self.new.service ≡ self.old.service) × (self.new.clock ≡ self.old.clock) }
        ensures accepts_later { A.faults self.old.accept ≤ A.faults self.new.accept }
        ensures starts_later { P.faults self.old.spawner ≤ P.faults self.new.spawner }
    {
        let end = self.conn_context.accept_all(
            rt,
            alloc,
            &mut self.seat,
            &mut self.accept,
            &mut self.spawner,
        );
        self.spawner.join_all(rt);
        end_of(end)
    }
}
