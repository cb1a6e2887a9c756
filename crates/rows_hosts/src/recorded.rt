//! A connection whose trace is kept. A row of rows_server serves the trace again.

ghost use Rattle.std.specs.Prelude.{◌≡◌, false};

use dns_book::{Admission, Book, BookSeat, BookState, Look};
use dns_middleware::{Notifiable, Settings, wrap};
use dns_name::{IpAddr, OutOfMemory, SocketAddr};
use dns_outside::{MemoryClock, SteadyLink};
use dns_server::{
    NoEvent, Script, ScriptService, ScriptTarget, TraceRecorder, read_script, serve_connection,
};
use dns_service::{Service, SharedService, WithoutMeta};
use std::alloc::Global;
use std::sync::Wait;

const CALLER: SocketAddr = SocketAddr {
    ip: IpAddr::V4([192, 0, 2, 1]),
    port: 53,
};

/// A query for the root's address, with an OPT record, after its length, and its reply.
const QUERY: &[u8] =
    b"\x00\x1c\x12\x34\x01\x00\x00\x01\x00\x00\x00\x00\x00\x01\x00\x00\x01\x00\x01\x00\x00\x29\x00\x00\x00\x00\x00\x00\x00\x00";

const REPLY: &[u8] =
    b"\x00\x22\x12\x34\x81\x00\x00\x01\x00\x00\x00\x00\x00\x01\x00\x00\x01\x00\x01\x00\x00\x29\x00\x00\x00\x00\x00\x00\x00\x06\x00\x0b\x00\x02\x01\x2c";

/// The settings and the rule that it is answered by.
const SCRIPT: &[u8] =
    b"strict no\nsecret 000102030405060708090a0b0c0d0e0f\ndeny 192.0.2.7\nrule * rcode:0\n";

/// Its trace: all settings, and the events that its driver notes.
const TRACE: &[u8] =
    b"strict no\nedns yes\nsecret 000102030405060708090a0b0c0d0e0f\ndeny 192.0.2.7\ndgram 1232 5000\n\
    stream 30000 30000 10 100 yes\nbudget none 1000\noffer 0 0 1 192.0.2.1 53\n\
    piece 0 0 1 001c12340100000100000000000100000100010000290000000000000000\nturn 0 0 1 0\nwrite 0 0 1 0\nend 0 0 1\n";

/// What a connection is served over.
#[derive(Drop)]
struct Outside {
    link: SteadyLink,
    clock: MemoryClock,
    recorder: TraceRecorder,
}

impl Outside {
    fn new(alloc: Global, settings: &Settings) -> Result<Outside, OutOfMemory> {
        let octets = Vec::from_slice(alloc, QUERY)?;
        match TraceRecorder::new(alloc, settings) {
            Ok(recorder) => Ok(Outside {
                link: SteadyLink::new(octets, Vec::new(alloc)),
                clock: MemoryClock::new(Vec::new(alloc)),
                recorder,
            }),
            Err(error) => Err(error),
        }
    }

    /// Serves a connection that is admitted.
    fn serve<R: Wait, W: SharedService>(
        &mut self,
        rt: &R,
        alloc: Global,
        book: &Book,
        seat: BookSeat,
        look: &Look,
        service: &W,
    ) -> BookSeat
        requires book { seat.book ≡ book.now }
        requires running { look.now.closed ≡ false }
        requires can_call { W.can_call service.now }
    {
        let (seat, _end) = serve_connection(
            rt,
            alloc,
            book,
            seat,
            1,
            CALLER,
            look,
            service,
            &mut self.link,
            &mut self.clock,
            &mut self.recorder,
        );
        seat
    }

    /// Admits a connection, and serves it.
    fn admit<R: Wait, W: SharedService>(
        &mut self,
        rt: &R,
        alloc: Global,
        book: &Book,
        mut seat: BookSeat,
        service: &W,
    )
        requires book { seat.book ≡ book.now }
        requires can_call { W.can_call service.now }
    {
        if let Admission::Admitted(look) = book.admit(rt, &mut seat) {
            if !look.closed {
                let _seat = self.serve(rt, alloc, book, seat, &look, service);
            }
        }
    }

    /// Serves a connection in a book of its own, and says whether there was memory for the book.
    fn serve_in_a_book<R: Wait, W: SharedService>(
        &mut self,
        rt: &R,
        alloc: Global,
        settings: &Settings,
        service: &W,
    ) -> bool
        requires { W.can_call service.now }
    {
        match Book::new(alloc, BookState::new(settings.dgram, settings.stream)) {
            Ok((book, seat)) => {
                self.admit(rt, alloc, &book, seat, service);
                true
            }
            Err(_) => false,
        }
    }

    /// The trace, if the reply was written and the trace tells.
    fn into_trace(self) -> Option<Vec<u8>> {
        let Outside { link, recorder, .. } = self;
        if link.written() == REPLY {
            recorded_text(recorder)
        } else {
            None
        }
    }
}

/// The trace, if it tells.
fn recorded_text(recorder: TraceRecorder) -> Option<Vec<u8>> {
    if recorder.tells() {
        Some(recorder.finish())
    } else {
        None
    }
}

/// Serves a connection over what is outside, and gives its trace; none, here and below, if memory is short.
fn trace_over<R: Wait, W: SharedService>(
    rt: &R,
    alloc: Global,
    settings: &Settings,
    service: &W,
    mut outside: Outside,
) -> Option<Vec<u8>>
    requires { W.can_call service.now }
{
    if outside.serve_in_a_book(rt, alloc, settings, service) {
        outside.into_trace()
    } else {
        None
    }
}

/// The trace of a connection to a service.
fn recorded<R: Wait, W: SharedService>(
    rt: &R,
    alloc: Global,
    settings: &Settings,
    service: &W,
) -> Option<Vec<u8>>
    requires { W.can_call service.now }
{
    match Outside::new(alloc, settings) {
        Ok(outside) => trace_over(rt, alloc, settings, service, outside),
        Err(_) => None,
    }
}

/// The trace of a connection to a service in the layers of settings.
fn trace_under<R: Wait, S: Service<()>, N: Notifiable>(
    rt: &R,
    alloc: Global,
    settings: &Settings,
    service: S,
    target: N,
) -> Option<Vec<u8>>
    requires { S.can_call service }
{
    match wrap(alloc, settings, service, target) {
        Ok(service) => recorded(rt, alloc, settings, &WithoutMeta { service }),
        Err(_) => None,
    }
}

/// The trace of a connection to what a script says.
fn trace_of<R: Wait>(rt: &R, alloc: Global, script: Script<NoEvent>) -> Option<Vec<u8>> {
    let (settings, service, notify_rules, _) = script.into_parts();
    let service = ScriptService::new(service.into_rules(alloc));
    let target = ScriptTarget::new(notify_rules);
    trace_under(rt, alloc, &settings, service, target)
}

/// The trace of a connection to the script.
fn trace<R: Wait>(rt: &R, alloc: Global) -> Option<Vec<u8>> {
    match read_script::<NoEvent>(alloc, SCRIPT) {
        Ok(script) => trace_of(rt, alloc, script),
        Err(_) => None,
    }
}

/// Whether the trace of a connection to the script says all settings and events.
fn is_recorded<R: Wait>(rt: &R, alloc: Global) -> bool {
    match trace(rt, alloc) {
        Some(trace) => trace.as_slice() == TRACE,
        None => false,
    }
}

/// A connection over memory is recorded: its trace says all settings and events.
#[test]
fn a_connection_is_recorded(rt: HostRuntime) -> Result<(), &'static str> {
    if is_recorded(&rt, rt.alloc()) {
        Ok(())
    } else {
        Err("not as is wanted")
    }
}
