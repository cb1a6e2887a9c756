//! Exchanges begin, and are polled.

ghost use Rattle.std.specs.Prelude.{◌≡◌, ◌≢◌, ℕ, ◌<◌, ◌++◌, IfOk, OnOk, true};
ghost use Rattle.std.specs.VecDeque.{deque_len};
ghost use Rattle.dns_session.specs.Serving.{Serving, serving};
ghost use Rattle.dns_service.specs.PolledRequest.{request_answer};
ghost use Rattle.dns_events.specs.declared.event.EventKind.TheVariants.{Datagram};
ghost use Rattle.dns_dgram_driver.specs.Steps.{TurnedExchange, TurnedOne, TurnedFirst, Begun, IsFirstNumber, gone_behind, event_with, numbers_of, kept_at, kept_under, packet_to};

use crate::notes::EventHead;
use crate::running::{KeptExchange, Running};
use crate::spare::Spare;
use dns_io::Packet;
use dns_name::SocketAddr;
use dns_service::{Octets, OutOfMemory, SharedService};
use dns_session::{KeptRequest, begin_exchange_in};
use std::alloc::Global;
use std::collections::VecDeque;

/// The octets as a datagram to an address, if there are any.
fn packet_to(octets: Option<Octets>, addr: SocketAddr) -> Option<Packet>
    ensures { result ≡ packet_to octets addr }
{
    match octets {
        Some(octets) => Some(Packet { octets, addr }),
        None => None,
    }
}

/// Keeps an exchange under its number, after all others, unless its request is done.
fn keep<W: SharedService>(
    exchanges: &mut VecDeque<KeptExchange<W>>,
    number: u64,
    request: Option<KeptRequest<W::Future, W::Stream>>,
    addr: SocketAddr,
) -> Result<(), OutOfMemory>
    ensures { OnOk result (exchanges.new.items ≡ exchanges.old.items ++ kept_under number addr request) }
{
    let Some(request) = request else {
        return Ok(());
    };
    exchanges.push_back(KeptExchange {
        number,
        request,
        addr,
    })?;
    Ok(())
}

/// Keeps an exchange that began, unless its request is done, and gives what is sent for it.
fn enter<W: SharedService>(
    exchanges: &mut VecDeque<KeptExchange<W>>,
    number: u64,
    request: Option<KeptRequest<W::Future, W::Stream>>,
    addr: SocketAddr,
    octets: Option<Octets>,
) -> Result<Option<Packet>, OutOfMemory>
    ensures packet { IfOk result (λ packet. packet ≡ packet_to octets addr) }
    ensures kept { OnOk result (exchanges.new.items ≡ exchanges.old.items ++ kept_under number addr request) }
{
    match keep(exchanges, number, request, addr) {
        Ok(()) => Ok(packet_to(octets, addr)),
        Err(error) => Err(error),
    }
}

/// Begins the exchange of a datagram, by what was heard of the book. What is sent at once is answered.
pub(crate) fn begin<W: SharedService>(
    alloc: Global,
    service: &W,
    state: &mut Running<W>,
    head: EventHead,
    addr: SocketAddr,
    octets: Octets,
    spare: &mut Spare,
) -> Result<Option<Packet>, OutOfMemory>
    requires { W.can_call service.now }
    ensures here { IfOk result (λ packet. Begun (request_answer W.Future.answer W.Stream.answer)
        (serving (W.answer service.now) (W.hint service.now)) state.old.heard (event_with head (Datagram addr octets)) addr octets
        (kept_at head.client state.old.exchanges.items) packet (kept_at head.client state.new.exchanges.items)) }
    ensures others { OnOk result ((c : ℕ) → c ≢ head.client → kept_at c state.new.exchanges.items ≡ kept_at c state.old.exchanges.items) }
    ensures rest { state.new ≡ record state.old { exchanges = state.new.exchanges } }
{
    let config = &state.heard.dgram;
    let spare = &mut spare.message;
    match begin_exchange_in(
        alloc, service, addr, head.at, head.secs, octets, config, spare,
    ) {
        Ok((request, sent)) => enter(&mut state.exchanges, head.client, request, addr, sent),
        Err(error) => Err(error),
    }
}

/// A Turn of an exchange that is kept: what is sent for it, and whether its request is done.
fn turn_kept<W: SharedService>(
    alloc: Global,
    kept: &mut KeptExchange<W>,
) -> Result<(Option<Packet>, bool), OutOfMemory>
    ensures number { kept.new.number ≡ kept.old.number }
    ensures turned { IfOk result (λ p. (answers : Serving)
        → TurnedOne (request_answer W.Future.answer W.Stream.answer) answers kept.old p.0 p.1 kept.new) }
{
    match kept.request.turn(alloc) {
        Ok((octets, done)) => Ok((packet_to(octets, kept.addr), done)),
        Err(error) => Err(error),
    }
}

/// A Turn of the first exchange.
fn turn_front<W: SharedService>(
    alloc: Global,
    exchanges: &mut VecDeque<KeptExchange<W>>,
) -> Result<(Option<Packet>, bool), OutOfMemory>
    requires { 0 < deque_len exchanges.old }
    ensures { IfOk result (λ p. TurnedFirst (request_answer W.Future.answer W.Stream.answer) exchanges.old.items p.0 p.1
        exchanges.new.items) }
{
    let (packet, done) = turn_kept(alloc, &mut exchanges[0])?;
    Ok((packet, done))
}

/// The first exchange is kept no more, and its message is spare.
#[inline(never)]
fn let_go<W: SharedService>(exchanges: &mut VecDeque<KeptExchange<W>>, spare: &mut Spare)
    requires { 0 < deque_len exchanges.old }
    ensures { exchanges.new.items ≡ gone_behind true exchanges.old.items }
{
    spare.keep_message(exchanges.pop_front());
}

/// The first exchange goes after all others, or is kept no more if its request is done.
fn go_behind<W: SharedService>(
    exchanges: &mut VecDeque<KeptExchange<W>>,
    done: bool,
    spare: &mut Spare,
)
    requires { 0 < deque_len exchanges.old }
    ensures { exchanges.new.items ≡ gone_behind done exchanges.old.items }
{
    if done {
        let_go(exchanges, spare);
    } else {
        exchanges.rotate_left(1);
    }
}

/// The number of the first exchange.
pub(crate) fn number_first<W: SharedService>(exchanges: &VecDeque<KeptExchange<W>>) -> u64
    requires { 0 < deque_len exchanges.now }
    ensures { IsFirstNumber result exchanges.now.items }
{
    exchanges[0].number
}

/// A Turn of the first exchange: what is sent for it, and whether its request is done. It goes after all others, or is kept no more.
pub(crate) fn turn_first<W: SharedService>(
    alloc: Global,
    exchanges: &mut VecDeque<KeptExchange<W>>,
    spare: &mut Spare,
) -> Result<(Option<Packet>, bool), OutOfMemory>
    requires { 0 < deque_len exchanges.old }
    ensures here { IfOk result (λ p. (n : ℕ) (answers : Serving) → IsFirstNumber n exchanges.old.items
        → TurnedExchange (request_answer W.Future.answer W.Stream.answer) answers (kept_at n exchanges.old.items) p.0
        (kept_at n exchanges.new.items)) }
    ensures others { OnOk result ((n c : ℕ) → IsFirstNumber n exchanges.old.items → c ≢ n
        → kept_at c exchanges.new.items ≡ kept_at c exchanges.old.items) }
    ensures order { IfOk result (λ p. numbers_of exchanges.new.items ≡ gone_behind p.1 (numbers_of exchanges.old.items)) }
{
    let (packet, done) = turn_front(alloc, exchanges)?;
    go_behind(exchanges, done, spare);
    Ok((packet, done))
}
