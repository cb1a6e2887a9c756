//! Rows of frames, of the idle timer, of one client's core, and of the settings of a server.

ghost use Rattle.std.specs.Prelude.{◌≡◌, false};

use crate::book_rows::replies;
use crate::service_rows::rules;
use crate::step_lines::steps_of;
use dns_core::{
    BookState, ClientCore, Event, EventKind, Framer, IdleTimer, Output, Settings, Step,
};
use dns_name::SocketAddr;
use dns_run::ScriptService;
use dns_service::{DgramConfig, OutOfMemory, SharedService, StreamConfig, WithoutMeta};
use rows_table::{Calls, Row, RowError};
use std::alloc::Global;

/// Frames, one client, settings, and the book for one thread.
pub(crate) struct ClientRows;

impl Calls for ClientRows {
    fn answer(&self, call: &str, row: &mut Row<'_>) -> Result<(), RowError> {
        match call {
            "framer" => frames(row),
            "idle_timer" => timer(row),
            "settings" => settings(row),
            "book_state" => replies(row),
            _ => return of_client(call, row),
        }
        Ok(())
    }
}

/// One client's core, or the moment, the seconds and the client of the line of a look.
fn of_client(call: &str, row: &mut Row<'_>) -> Result<(), RowError> {
    match call {
        "client_waits" => client(row, true),
        "client_survives" => client(row, false),
        "read_step" => {
            let steps = steps_of(row.alloc(), row.all_words())?;
            match steps.split_first() {
                Some((Step::Look { at, secs, client }, _)) => {
                    row.show(at);
                    row.show(secs);
                    row.show(client);
                    Ok(())
                }
                _ => Err(RowError::OutOfForm),
            }
        }
        _ => Err(RowError::NoSuchCall),
    }
}

/// The first message of what is kept after each piece, and once more at the end.
fn frames(row: &mut Row<'_>) {
    let mut framer = Framer::new(row.alloc());
    for piece in row.all_words().split(' ') {
        fed(row, &mut framer, piece);
    }
    say_next(row, &mut framer)
}

/// The first message of what is kept after a piece.
fn fed(row: &mut Row<'_>, framer: &mut Framer, piece: &str) {
    let octets = row.octets_of(piece);
    row.keep(framer.feed(row.alloc(), octets));
    say_next(row, framer)
}

fn say_next(row: &mut Row<'_>, framer: &mut Framer) {
    match framer.next(row.alloc()) {
        Ok(Some(message)) => row.hexadecimal(&message),
        Ok(None) => row.say("none"),
        Err(_) => row.fail(RowError::OutOfMemory),
    }
}

/// The deadline of a timer that was reset at a moment, for a timeout and another moment, and whether it is expired then; and
/// whether it is once it was reset at that moment.
fn timer(row: &mut Row<'_>) {
    let mut timer = IdleTimer::new(row.number());
    let timeout = row.number();
    let now = row.number();
    row.show(&timer.idle_timeout_deadline(timeout, now));
    row.show(&timer.idle_timeout_expired(timeout, now));
    timer.reset(now);
    row.show(&timer.idle_timeout_expired(timeout, now))
}

/// An open book with the default configurations.
fn open_book() -> BookState
    ensures { result.closed ≡ false }
{
    BookState::new(DgramConfig::new(), StreamConfig::new())
}

/// The core of a client by the first of its steps, which is stepped through the others: what waits for its driver after each, or
/// nothing. Its service answers each request with NXDOMAIN at its second poll.
fn client(row: &mut Row<'_>, waits: bool) -> Result<(), RowError> {
    let steps = steps_of(row.alloc(), row.all_words())?;
    match rules(row.alloc()) {
        Ok(rules) => answered_by(row, ScriptService::new(rules), &steps, waits),
        Err(error) => row.fail(error),
    }
    Ok(())
}

/// Steps the core of a client through the steps, with this service: what waits for its driver after each, or nothing.
fn answered_by(row: &mut Row<'_>, service: ScriptService, steps: &[Step], waits: bool) {
    match steps.split_first() {
        Some((Step::Own(first), rest)) => {
            begun(row, &WithoutMeta { service }, first, rest, waits)
        }
        _ => row.fail(RowError::Missing),
    }
}

fn begun<S: SharedService>(
    row: &mut Row<'_>,
    service: &S,
    first: &Event,
    rest: &[Step],
    waits: bool,
)
    requires { S.can_call service.now }
{
    match core_of(row.alloc(), service, first) {
        Ok(core) => gone_through(row, core, service, rest, waits),
        Err(error) => row.fail(error),
    }
}

fn gone_through<S: SharedService>(
    row: &mut Row<'_>,
    mut core: ClientCore<S>,
    service: &S,
    steps: &[Step],
    waits: bool,
)
    requires { S.can_call service.now }
{
    let lost = stepped_through(row, &mut core, service, steps, waits);
    let_go(core);
    if !waits {
        row.say("survives");
    } else if lost {
        row.fail(RowError::OutOfMemory);
    }
}

/// Lets a value go, in a function that needn't know of what type it is.
fn let_go<T: Drop>(_value: T) {}

/// A core is stepped through steps, beside a book on which the events that all clients hear act. Whether memory ran out.
fn stepped_through<S: SharedService>(
    row: &mut Row<'_>,
    core: &mut ClientCore<S>,
    service: &S,
    steps: &[Step],
    waits: bool,
) -> bool
    requires { S.can_call service.now }
{
    let mut book = open_book();
    let mut lost = false;
    for step in steps {
        let outputs = stepped(row.alloc(), core, service, &mut book, step);
        lost = step_said(row, core, outputs, waits, lost);
    }
    lost
}

/// Says what waits for the driver of a core after a step, or nothing, and whether memory ran out until then.
fn step_said<S: SharedService>(
    row: &mut Row<'_>,
    core: &ClientCore<S>,
    outputs: Result<Vec<Output>, OutOfMemory>,
    waits: bool,
    lost: bool,
) -> bool {
    match outputs {
        Ok(outputs) => {
            if waits {
                say_waiting(row, core);
            }
            stays_lost(row, core, lost, !outputs.is_empty())
        }
        Err(OutOfMemory) => stays_lost(row, core, true, false),
    }
}

/// Says where a core that is lost is sent something, or goes on.
fn stays_lost<S: SharedService>(
    row: &mut Row<'_>,
    core: &ClientCore<S>,
    lost: bool,
    speaks: bool,
) -> bool {
    if lost {
        if speaks {
            row.say("speaks");
        }
        if !core.is_closed() || core.queued() > 0 {
            row.say("goes on");
        }
    }
    lost
}

/// What a core is sent for a step.
fn stepped<S: SharedService>(
    alloc: Global,
    core: &mut ClientCore<S>,
    service: &S,
    book: &mut BookState,
    step: &Step,
) -> Result<Vec<Output>, OutOfMemory>
    requires { S.can_call service.now }
{
    match step {
        Step::Look { .. } => core.saw(alloc, &book.shown()),
        Step::Own(event) => {
            if noted(book, &event.kind) {
                return Ok(Vec::new(alloc));
            }
            core.step(alloc, service, event)
        }
    }
}

/// Whether an event is one that all clients hear, which then acts on the book.
fn noted(book: &mut BookState, kind: &EventKind) -> bool {
    match kind {
        EventKind::Reconfigure { dgram, stream } => {
            let _version = book.reconfigure(*dgram, *stream);
            true
        }
        EventKind::Shutdown => {
            let _look = book.shutdown();
            true
        }
        _ => false,
    }
}

/// Whether a core is closed, how many frames wait, the first of them, the first request that isn't done, and the first after
/// number 0.
fn say_waiting<S: SharedService>(row: &mut Row<'_>, core: &ClientCore<S>) {
    row.show(&core.is_closed());
    say_queue(row, core.queued(), core.front_frame());
    say_number(row, core.first_unfinished());
    say_number(row, core.next_unfinished(0))
}

fn say_queue(row: &mut Row<'_>, queued: usize, front: Option<&[u8]>) {
    row.show(&queued);
    match front {
        Some(frame) => row.hexadecimal(frame),
        None => row.say("none"),
    }
}

fn say_number(row: &mut Row<'_>, number: Option<u64>) {
    match number {
        Some(number) => row.show(&number),
        None => row.say("none"),
    }
}

/// The core of a client by its first event.
fn core_of<S: SharedService>(
    alloc: Global,
    service: &S,
    event: &Event,
) -> Result<ClientCore<S>, RowError>
    requires { S.can_call service.now }
{
    match &event.kind {
        EventKind::Offer { addr } => admitted(alloc, event, *addr),
        EventKind::Datagram { addr, octets } => {
            exchange(alloc, service, event, *addr, octets.as_slice())
        }
        _ => Err(RowError::OutOfForm),
    }
}

/// The core of a connection that a look admits.
fn admitted<S: SharedService>(
    alloc: Global,
    event: &Event,
    addr: SocketAddr,
) -> Result<ClientCore<S>, RowError> {
    let look = open_book().shown();
    match ClientCore::admit(alloc, event.client, addr, event.at, &look) {
        Ok(core) => Ok(core),
        Err(OutOfMemory) => Err(RowError::OutOfMemory),
    }
}

/// The core of an exchange that a datagram begins.
fn exchange<S: SharedService>(
    alloc: Global,
    service: &S,
    event: &Event,
    addr: SocketAddr,
    octets: &[u8],
) -> Result<ClientCore<S>, RowError>
    requires { S.can_call service.now }
{
    let look = open_book().shown();
    let (client, at, secs) = (event.client, event.at, event.secs);
    match ClientCore::datagram(alloc, service, client, addr, at, secs, octets, &look) {
        Ok((core, _)) => Ok(core),
        Err(OutOfMemory) => Err(RowError::OutOfMemory),
    }
}

/// Whether the settings are strict and EDNS is on, whether cookies are on, how many addresses are denied, and the limit
/// of connections.
fn settings(row: &mut Row<'_>) {
    let settings = Settings::new(row.alloc());
    row.show(&settings.strict);
    row.show(&settings.edns);
    row.show(&settings.cookies.is_some());
    row.show(&settings.denied.as_slice().len());
    row.show(&settings.stream.max_concurrent_connections())
}
