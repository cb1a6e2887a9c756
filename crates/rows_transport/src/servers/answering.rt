//! Servers of connections over memory.

ghost use Rattle.std.specs.Prelude.{◌≡◌};

use crate::servers::connections;
use crate::servers::controls::{count, shows_shutdown, shut_down_after};
use dns_outside::{AsyncAccept, MemoryClock, Spawner};
use dns_service::SharedService;
use dns_transport::{
    ConnectionWork, Control, Metered, PreConnect, ServerMetrics, Silent, StreamEnd, StreamServer,
    VecBufSource,
};
use rows_links::{clock, let_go};
use std::alloc::Global;
use std::sync::{Arc, Wait};
use std::thread;
use std::thread::Threads;

/// A server of connections, and how many of them it is to answer.
#[derive(Drop)]
pub struct Answering<'a, R, A, P, H, W> {
    rt: &'a R,
    alloc: Global,
    server: StreamServer<A, VecBufSource, W, MemoryClock, P, H>,
    wanted: usize,
}

impl<
    R: Threads + Wait + Copy + Send + Sync + 'static,
    A: AsyncAccept + Drop,
    P: Spawner<ConnectionWork<Metered<A::Link>, MemoryClock, Silent, W>> + Drop,
    H: PreConnect<A::Link> + Drop,
    W: SharedService + Send + Sync + 'static,
> Answering<'_, R, A, P, H, W>
where
    A::Link: Send + Drop + 'static,
    W::Future: Send,
    W::Stream: Send,
{
    /// Runs beside what shuts the server down once that many responses were sent. The control that did, and how the run ended.
    fn join(&mut self, metrics: &ServerMetrics, control: Control) -> (Control, StreamEnd)
        requires { W.can_call self.old.server.service }
    {
        let Answering {
            rt,
            alloc,
            server,
            wanted,
        } = self;
        thread::join(
            *rt,
            || shut_down_after(*rt, metrics, control, *wanted),
            || -> StreamEnd
                requires { W.can_call server.now.service }
            { server.run(*rt, *alloc) },
        )
    }

    /// Whether the server was shut down then, as the control shows that shut it down.
    fn runs_by(&mut self, metrics: &ServerMetrics) -> bool
        requires { W.can_call self.old.server.service }
    {
        let control = self.server.control(self.rt);
        let (control, end) = self.join(metrics, control);
        shows_shutdown(self.rt, control, end == StreamEnd::Shutdown)
    }

    fn runs(&mut self) -> bool
        requires { W.can_call self.old.server.service }
    {
        match Arc::try_clone(self.server.metrics()) {
            Ok(metrics) => self.runs_by(&metrics),
            Err(_) => false,
        }
    }

    /// Whether that many connections are answered, the server is shut down, as a control shows that was made before, and what it
    /// counted is shown.
    fn answers(&mut self) -> bool
        requires { W.can_call self.old.server.service }
    {
        let mut early = self.server.control(self.rt);
        self.answers_under(&mut early)
    }

    /// Whether that many connections are answered, and the server is then shut down, as this control shows.
    fn answers_under(&mut self, early: &mut Control) -> bool
        requires { W.can_call self.old.server.service }
    {
        !early.is_shutdown(self.rt)
            && self.runs()
            && early.is_shutdown(self.rt)
            && count(self.server.metrics(), self.wanted)
    }

    /// Whether this server, with this hook, answers that many connections. The server is dropped then.
    fn answers_hooked(
        rt: &R,
        alloc: Global,
        server: StreamServer<A, VecBufSource, W, MemoryClock, P>,
        hook: H,
        wanted: usize,
    ) -> bool
        requires { W.can_call server.service }
    {
        let server = server.with_pre_connect_hook(hook);
        let mut answering = Answering {
            rt,
            alloc,
            server,
            wanted,
        };
        let held = answering.answers();
        let_go(answering);
        held
    }

    /// Whether a server over this accept object, with this hook, answers that many connections.
    pub fn answers_over(
        rt: &R,
        alloc: Global,
        accept: A,
        spawner: P,
        hook: H,
        service: W,
        wanted: usize,
    ) -> bool
        requires { W.can_call service }
    {
        match connections(alloc, accept, clock(alloc), spawner, service) {
            Ok(server) => Answering::answers_hooked(rt, alloc, server, hook, wanted),
            Err(_) => false,
        }
    }
}
