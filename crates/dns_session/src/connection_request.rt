//! What is kept of a connection's request that isn't done.

ghost use Rattle.std.specs.Prelude.{◌≡◌, ◌≢◌, ◌<◌, ℕ, ◌+◌, ◌-◌, min, length, IfOk, OnOk, Some, None, not, ◌&&◌, if◌then◌else◌};
ghost use Rattle.std.specs.Arc.{arc_value};
ghost use Rattle.std.specs.Ordering.{nat_cmp};
ghost use Rattle.std.specs.BTreeMap.{get};
ghost use Rattle.dns_framing.specs.PolledRequest.{request_answer};
ghost use Rattle.dns_framing.specs.Answer.{Answer};
ghost use Rattle.dns_framing.specs.Invokers.{dispatched_by};
ghost use Rattle.dns_session.specs.Connections.{is_in_transaction};
ghost use Rattle.dns_session.specs.Turns.{ends};
ghost use Rattle.dns_session.specs.TurnedAt.{IsHeldOn, IsPolledBy, TurnsBy, TurnedAt};
ghost use Rattle.dns_session.specs.Unfinished.{ChangesAt, IsInOrder, request_at, row_start};

use crate::kept::call;
use crate::unfinished::Unfinished;
use dns_base::Message;
use dns_framing::{
    ConnectionInvoker, Dispatched, InvokerStatus, PolledRequest, ReplyFuture, ReplyStream, Request,
    ServiceInvoker, SharedService, is_in_transaction,
};
use dns_name::{Octets, OutOfMemory};
use std::alloc::Global;
use std::collections::BTreeMap;
use std::sync::Arc;

/// A request of a connection that isn't done: its polled state, its message, how far it is, and the frame of a reply that waits
/// for room.
#[derive(Drop)]
pub struct ConnectionRequest<F, R> {
    polled: PolledRequest<F, R>,
    message: Arc<Message>,
    status: InvokerStatus,
    held: Option<Octets>,
}

/// Asks a service a request of a connection.
pub fn ask<W: SharedService>(
    alloc: Global,
    service: &W,
    request: Request<()>,
) -> Result<ConnectionRequest<W::Future, W::Stream>, OutOfMemory>
    requires { W.can_call service.now }
    ensures answers { IfOk result (λ q. (k : ℕ)
        → request_answer W.Future.answer W.Stream.answer q.polled k ≡ W.answer service.now request k) }
    ensures message { IfOk result (λ q. arc_value q.message ≡ request.octets) }
    ensures status { IfOk result (λ q. q.status ≡ InvokerStatus.Normal) }
    ensures held { IfOk result (λ q. q.held ≡ None) }
{
    let (polled, message) = call(alloc, service, request)?.into_parts();
    Ok(ConnectionRequest {
        polled,
        message,
        status: InvokerStatus::Normal,
        held: None,
    })
}

impl<F: Drop, R: Drop> ConnectionRequest<F, R> {
    /// The message, of a request that is polled no more.
    pub(crate) fn into_message(self) -> Arc<Message>
        ensures { result ≡ self.message }
    {
        self.message
    }
}

impl<F, R> ConnectionRequest<F, R>
where
    F: ReplyFuture<Stream = R>,
    R: ReplyStream,
{
    /// Takes the next answer, and says whether the request is done. What it tells is heard, and its reply is queued.
    fn poll(&mut self, alloc: Global, invoker: &mut ConnectionInvoker) -> Result<bool, OutOfMemory>
        ensures { IfOk result (λ done. IsPolledBy (request_answer F.answer R.answer) self.old invoker.old done self.new invoker.new) }
    {
        invoker.begin(self.status);
        let dispatched = invoker.dispatch(alloc, &mut self.polled, &self.message)?;
        self.take_back(invoker);
        Ok(ends(dispatched))
    }

    /// How far it is and what it holds are its own again.
    fn take_back(&mut self, invoker: &mut ConnectionInvoker)
        ensures request { self.new ≡ record self.old { status = invoker.old.status; held = invoker.old.held } }
        ensures invoker { invoker.new ≡ record invoker.old { held = None } }
    {
        self.status = invoker.status;
        self.held = invoker.held.take();
    }

    /// Queues the reply that is held, if there is room now. Nothing is polled.
    fn try_held(&mut self, held: Octets, invoker: &mut ConnectionInvoker) -> bool
        requires { self.old.held ≡ None }
        ensures { IsHeldOn (request_answer F.answer R.answer) held
            (record self.old { held = Some held }) invoker.old result self.new invoker.new }
    {
        self.held = invoker.offer(held);
        false
    }

    /// A turn of the request, and whether it is done.
    fn turn(&mut self, alloc: Global, invoker: &mut ConnectionInvoker) -> Result<bool, OutOfMemory>
        ensures { IfOk result (λ done. TurnsBy (request_answer F.answer R.answer) self.old.held self.old invoker.old done self.new
            invoker.new) }
    {
        match self.held.take() {
            Some(held) => Ok(self.try_held(held, invoker)),
            None => self.poll(alloc, invoker),
        }
    }

    /// Whether the request was in a transaction before its turn, and is in one after it; and whether it is done.
    fn turn_counted(
        &mut self,
        alloc: Global,
        invoker: &mut ConnectionInvoker,
    ) -> Result<((bool, bool), bool), OutOfMemory>
        ensures turns { IfOk result (λ p. TurnsBy
            (request_answer F.answer R.answer) self.old.held self.old invoker.old p.1 self.new invoker.new) }
        ensures before { IfOk result (λ p. p.0.0 ≡ is_in_transaction self.old.status) }
        ensures behind { IfOk result (λ p. p.0.1 ≡ (not p.1 && is_in_transaction self.new.status)) }
    {
        let was = is_in_transaction(self.status);
        let done = self.turn(alloc, invoker)?;
        Ok(((was, !done && is_in_transaction(self.status)), done))
    }
}

/// Whether what a poll led to makes its request done.
fn ends(dispatched: Dispatched) -> bool
    ensures { (a : Answer) → dispatched ≡ dispatched_by a → result ≡ ends a }
{
    match dispatched {
        Dispatched::Pending | Dispatched::Item => false,
        Dispatched::Ended | Dispatched::Aborted => true,
    }
}

/// A turn of the request of this number, if it is kept. It is let go if it is done. Whether it was in a transaction, and
/// whether it is now, is given.
pub fn turn_at<F: ReplyFuture<Stream = R>, R: ReplyStream>(
    alloc: Global,
    unfinished: &mut Unfinished<ConnectionRequest<F, R>>,
    invoker: &mut ConnectionInvoker,
    request: u64,
) -> Result<(bool, bool), OutOfMemory>
    ensures here { IfOk result (λ p. IsInOrder unfinished.old
        → TurnedAt (request_answer F.answer R.answer) (request_at unfinished.old request) invoker.old p.0 p.1
        (request_at unfinished.new request) invoker.new) }
    ensures others { OnOk result (IsInOrder unfinished.old → ChangesAt request unfinished.old unfinished.new) }
{
    let start = unfinished.row_start();
    if request < start {
        return turn_passed(alloc, &mut unfinished.passed, invoker, request);
    }
    if request >= unfinished.count {
        return Ok((false, false));
    }
    turn_in_row(alloc, unfinished, invoker, (request - start) as usize)
}

/// A turn of the request at a place of the row.
fn turn_in_row<F: ReplyFuture<Stream = R>, R: ReplyStream>(
    alloc: Global,
    unfinished: &mut Unfinished<ConnectionRequest<F, R>>,
    invoker: &mut ConnectionInvoker,
    place: usize,
) -> Result<(bool, bool), OutOfMemory>
    requires { place < length unfinished.old.row.items }
    ensures here { IfOk result (λ p. IsInOrder unfinished.old
        → TurnedAt (request_answer F.answer R.answer)
        (request_at unfinished.old (row_start unfinished.old + place)) invoker.old p.0 p.1
        (request_at unfinished.new (row_start unfinished.old + place)) invoker.new) }
    ensures others { OnOk result (IsInOrder unfinished.old → ChangesAt (row_start unfinished.old + place) unfinished.old unfinished.new) }
{
    let (counts, done) = unfinished.row[place].turn_counted(alloc, invoker)?;
    if !done {
        return Ok(counts);
    }
    unfinished.let_go(place)?;
    Ok(counts)
}

/// A turn of the request of this number, if it was passed by and isn't done.
fn turn_passed<F: ReplyFuture<Stream = R>, R: ReplyStream>(
    alloc: Global,
    passed: &mut BTreeMap<u64, ConnectionRequest<F, R>>,
    invoker: &mut ConnectionInvoker,
    request: u64,
) -> Result<(bool, bool), OutOfMemory>
    ensures here { IfOk result (λ p. TurnedAt (request_answer F.answer R.answer)
        (get nat_cmp passed.old request) invoker.old p.0 p.1 (get nat_cmp passed.new request) invoker.new) }
    ensures others { OnOk result ((q : ℕ) → q ≢ request → get nat_cmp passed.new q ≡ get nat_cmp passed.old q) }
{
    let Some(kept) = passed.get_mut(&request) else {
        return Ok((false, false));
    };
    let turned = kept.turn_counted(alloc, invoker)?;
    Ok(let_go(passed, request, turned))
}

/// Lets go of a request that is done, and gives on what else its turn gave.
fn let_go<F: Drop, R: Drop>(
    passed: &mut BTreeMap<u64, ConnectionRequest<F, R>>,
    request: u64,
    turned: ((bool, bool), bool),
) -> (bool, bool)
    ensures counts { result ≡ turned.0 }
    ensures here { get nat_cmp passed.new request ≡ (if turned.1 then None else get nat_cmp passed.old request) }
    ensures others { (q : ℕ) → q ≢ request → get nat_cmp passed.new q ≡ get nat_cmp passed.old q }
{
    let (counts, done) = turned;
    if done {
        let _done = passed.remove(&request);
    }
    counts
}

/// How many requests of that many are in a transaction after a turn of one, which was in one before, or is in one now.
pub fn recount(count: u64, transactions: u64, was: bool, now: bool) -> u64
    ensures { result ≡ (if now && not was then min (transactions + 1) count
        else (if was && not now then transactions - 1 else transactions)) }
{
    if now && !was {
        return transactions.saturating_add(1).min(count);
    }
    if was && !now {
        return transactions.saturating_sub(1);
    }
    transactions
}
