//! What becomes of a client's state by its events, and what the client is sent.

ghost use Rattle.std.specs.Prelude.{◌≡◌, ℕ, [], ◌∷◌, IfOk, false};
ghost use Rattle.std.specs.Result.{IsOkAnd};
ghost use Rattle.dns_events.specs.declared.event.Event.{Event};
ghost use Rattle.dns_session.specs.News.{wide};
ghost use Rattle.dns_session.specs.Rule.{rule};
ghost use Rattle.dns_session.specs.Serving.{Serving, serving};
ghost use Rattle.dns_session.specs.Slate.{Slate};
ghost use Rattle.dns_session.specs.Goings.{StateGoes, outputs_of, state_behind, wound_up};
ghost use Rattle.dns_session.specs.Outputs.{outputs_in};
ghost use Rattle.dns_session.specs.Stands.{IsClosed, state_is_open};
ghost use Rattle.dns_framing.specs.PolledRequest.{request_answer};

use crate::client::State;
use crate::exchange::{exchange_step, one};
use crate::outcome::Outcome;
use crate::sent::Sent;
use dns_events::{Event, EventKind, Output, Why};
use dns_framing::SharedService;
use dns_name::{Octets, OutOfMemory};
use std::alloc::Global;
use std::mem::replace;

/// The state of a connection that only writes what waits from now on, if it is open.
fn wound_up<W: SharedService>(state: State<W>, why: Why) -> State<W>
    ensures { result ≡ wound_up why state }
{
    match state {
        State::Open(connection) => State::Flushing(connection.into_flushing(why)),
        other => other,
    }
}

/// A client's state is another from now on.
fn set<W: SharedService>(state: &mut State<W>, new: State<W>)
    ensures { state.new ≡ new }
{
    drop(replace(state, new));
}

/// A connection that is open only writes what waits from now on.
fn wind_up<W: SharedService>(state: &mut State<W>, why: Why)
    ensures { state.new ≡ wound_up why state.old }
{
    let open = replace(state, State::Closed { freed: false });
    set(state, wound_up(open, why));
}

/// A call found no memory: nothing is kept any more.
pub(crate) fn lose<W: SharedService>(state: &mut State<W>)
    ensures { state.new ≡ State.Lost }
{
    set(state, State::Lost);
}

/// An event of a closed connection: a release gives its slot back.
fn step_closed(freed: &mut bool, event: &Event)
    ensures { (answers : Serving) (client : ℕ) (s : Slate) → IsClosed client freed.old s
        → ([] ≡ (rule answers event.now s).1) × IsClosed client freed.new (rule answers event.now s).0 }
{
    if let EventKind::Release = &event.kind {
        *freed = true;
    }
}

/// A last frame, and why the connection is closed after it.
fn last(alloc: Global, client: u64, octets: Octets, why: Why) -> Result<Vec<Output>, OutOfMemory>
    ensures { IfOk result (λ outs. outs.items ≡ Output.Frame client octets ∷ Output.Closed client why ∷ []) }
{
    let mut outs = Vec::with_capacity(alloc, 2)?;
    outs.push(Output::Frame { client, octets })?;
    outs.push(Output::Closed { client, why })?;
    Ok(outs)
}

/// The connection is closed. Nothing is kept of it but its number.
fn close<W: SharedService>(state: &mut State<W>)
    ensures { state.new ≡ State.Closed false }
{
    set(state, State::Closed { freed: false });
}

/// What a connection is sent for an outcome, which its state follows.
fn follow<W: SharedService>(state: &mut State<W>, outcome: Outcome) -> Sent
    ensures outs { (client : ℕ) → outputs_in client result ≡ outputs_of client outcome }
    ensures state { state.new ≡ state_behind state.old outcome }
{
    match outcome {
        Outcome::Nothing => Sent::Nothing,
        Outcome::Written(octets) => Sent::Frame(octets),
        Outcome::WrittenLast(octets, why) => {
            close(state);
            Sent::Last(octets, why)
        }
        Outcome::WindsUp(why) => {
            wind_up(state, why);
            Sent::Nothing
        }
        Outcome::Ends(why) => {
            close(state);
            Sent::Closed(why)
        }
    }
}

/// What a client is sent, as a list.
fn listed(alloc: Global, client: u64, sent: Sent) -> Result<Vec<Output>, OutOfMemory>
    ensures { IfOk result (λ outs. outs.items ≡ outputs_in client sent) }
{
    match sent {
        Sent::Nothing => Ok(Vec::new(alloc)),
        Sent::Frame(octets) => one(alloc, Output::Frame { client, octets }),
        Sent::Last(octets, why) => last(alloc, client, octets, why),
        Sent::Closed(why) => one(alloc, Output::Closed { client, why }),
    }
}

/// What a client is sent for an outcome, as a list.
fn carry_out<W: SharedService>(
    state: &mut State<W>,
    alloc: Global,
    client: u64,
    outcome: Outcome,
) -> Result<Vec<Output>, OutOfMemory>
    ensures outs { IfOk result (λ outs. outs.items ≡ outputs_of client outcome) }
    ensures state { state.new ≡ state_behind state.old outcome }
{
    let sent = follow(state, outcome);
    listed(alloc, client, sent)
}

/// Octets of a client's stream came. Of one that is no open connection they change nothing.
pub(crate) fn piece_state<W: SharedService>(
    state: &mut State<W>,
    alloc: Global,
    service: &W,
    at: u64,
    secs: u64,
    octets: &[u8],
) -> Result<Sent, OutOfMemory>
    requires { W.can_call service.now }
    ensures follows { IfOk result (λ sent. (client : ℕ) (e : Event) → e.at ≡ at → e.secs ≡ secs → e.kind ≡ EventKind.Piece octets.now
        → StateGoes (request_answer W.Future.answer W.Stream.answer)
        (serving (W.answer service.now) (W.hint service.now)) client state.old state.new (outputs_in client sent)
        (rule (serving (W.answer service.now) (W.hint service.now)) e)) }
    ensures lost { state.old ≡ State.Lost → IsOkAnd result (λ sent. sent ≡ Sent.Nothing) × (state.new ≡ State.Lost) }
{
    match state {
        State::Open(connection) => match connection.piece(alloc, service, at, secs, octets) {
            Ok(outcome) => Ok(follow(state, outcome)),
            Err(error) => Err(error),
        },
        _ => Ok(Sent::Nothing),
    }
}

/// The front frame of a client was written, or took too long.
pub(crate) fn write_state<W: SharedService>(state: &mut State<W>, at: u64, took: u64) -> Sent
    ensures follows { (answers : Serving) (client : ℕ) (e : Event) → e.at ≡ at → e.kind ≡ EventKind.Write took
        → StateGoes (request_answer W.Future.answer W.Stream.answer) answers client state.old state.new (outputs_in client result)
        (rule answers e) }
    ensures lost { state.old ≡ State.Lost → (result ≡ Sent.Nothing) × (state.new ≡ State.Lost) }
{
    match state {
        State::Open(connection) => {
            let outcome = connection.write(at, took);
            follow(state, outcome)
        }
        State::Flushing(connection) => {
            let outcome = connection.write(took);
            follow(state, outcome)
        }
        _ => Sent::Nothing,
    }
}

/// An event of a client of this number: what it leads to is that of the client's state.
pub(crate) fn step_state<W: SharedService>(
    state: &mut State<W>,
    alloc: Global,
    service: &W,
    client: u64,
    event: &Event,
) -> Result<Vec<Output>, OutOfMemory>
    requires { W.can_call service.now }
    ensures follows { IfOk result (λ outs. StateGoes (request_answer W.Future.answer W.Stream.answer)
        (serving (W.answer service.now) (W.hint service.now)) client state.old state.new outs.items
        (rule (serving (W.answer service.now) (W.hint service.now)) event.now)) }
    ensures lost { state.old ≡ State.Lost → IsOkAnd result (λ outs. outs.items ≡ []) × (state.new ≡ State.Lost) }
{
    match state {
        State::Open(connection) => match connection.step(alloc, service, event) {
            Ok(outcome) => carry_out(state, alloc, client, outcome),
            Err(error) => Err(error),
        },
        _ => step_unopened(state, alloc, client, event),
    }
}

/// One event of a client that is no open connection. The service isn't asked.
fn step_unopened<W: SharedService>(
    state: &mut State<W>,
    alloc: Global,
    client: u64,
    event: &Event,
) -> Result<Vec<Output>, OutOfMemory>
    requires { state_is_open state.now ≡ false }
    ensures follows { IfOk result (λ outs. (answers : Serving)
        → StateGoes (request_answer W.Future.answer W.Stream.answer) answers client state.old state.new outs.items
        (rule answers event.now)) }
    ensures lost { state.old ≡ State.Lost → IsOkAnd result (λ outs. outs.items ≡ []) × (state.new ≡ State.Lost) }
{
    match state {
        State::Exchange(unfinished) => exchange_step(alloc, client, unfinished, event),
        State::Flushing(connection) => {
            let outcome = connection.step(event);
            carry_out(state, alloc, client, outcome)
        }
        State::Closed { freed } => {
            step_closed(freed, event);
            Ok(Vec::new(alloc))
        }
        State::Open(_) => Ok(Vec::new(alloc)),
        State::Lost => Ok(Vec::new(alloc)),
    }
}

/// An open connection is to be closed, since the server shuts down.
pub(crate) fn shut_down<W: SharedService>(
    state: &mut State<W>,
    alloc: Global,
    client: u64,
) -> Result<Vec<Output>, OutOfMemory>
    ensures follows { IfOk result (λ outs. (answers : Serving)
        → StateGoes (request_answer W.Future.answer W.Stream.answer) answers client state.old state.new outs.items
        (rule answers (wide EventKind.Shutdown))) }
    ensures lost { state.old ≡ State.Lost → IsOkAnd result (λ outs. outs.items ≡ []) × (state.new ≡ State.Lost) }
{
    let State::Open(connection) = state else {
        return Ok(Vec::new(alloc));
    };
    let outcome = connection.wind_up(Why::Shutdown);
    carry_out(state, alloc, client, outcome)
}
