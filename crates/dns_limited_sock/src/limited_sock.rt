//! A socket whose replies are limited.

ghost use Rattle.std.specs.Prelude.{◌≡◌, ◌≤◌, ℕ, [], Some, None, IfOk, length, option_map};
ghost use Rattle.dns_io.specs.Causes.{Observed};
ghost use Rattle.dns_io.specs.SockTraffic.{SendBound, SendCause, SendMoves};
ghost use Rattle.dns_rate_limit.specs.declared.rate.Verdict.TheVariants.{Whole};
ghost use Rattle.dns_limited_sock.specs.declared.good_cookies.Exchange.{Exchange};
ghost use Rattle.dns_limited_sock.specs.GoodCookies.{IsAwaited, exchange_of};
ghost use Rattle.dns_limited_sock.specs.Sends.{EmptiedMoves, MayTakePlace, MovesAsJudged, MovesBy, ShortMoves, in_place_of};

use crate::good_cookies::{Exchange, GoodCookies};
use crate::limiting::Limiting;
use crate::reply_kind::ReplyKind;
use crate::truncation::emptied;
use dns_base::MessageRef;
use dns_io::{AsyncDgramSock, Clock, DgramRecv, DgramSend};
use dns_name::{OutOfMemory, SocketAddr};
use dns_rate_limit::Verdict;
use std::alloc::Global;
use std::sync::{Arc, Wait};

/// What a reply was judged to be that found no room yet.
#[derive(Clone, Copy)]
struct Held {
    exchange: Exchange,
    verdict: Verdict,
}

/// A socket over another one that sends each reply whole, truncated or not at all, as what it shares with others says.
#[derive(Drop)]
pub struct LimitedSock<D, C, R> {
    inner: D,
    clock: C,
    rt: R,
    alloc: Global,
    limiting: Arc<Limiting>,
    good: GoodCookies,
    held: Option<Held>,
}

/// The answer of a send, as if all of these octets had been sent.
fn in_place_of(octets: &[u8], answer: DgramSend) -> DgramSend
    ensures { result ≡ in_place_of (length octets.now) answer }
{
    match answer {
        DgramSend::Took(_) => DgramSend::Took(octets.len()),
        DgramSend::Again => DgramSend::Again,
        DgramSend::Failed => DgramSend::Failed,
    }
}

/// What takes the place of a reply; nothing without memory.
fn short_of(alloc: Global, reply: &[u8]) -> Option<Vec<u8>>
    ensures { MayTakePlace reply.now (option_map (λ v. v.items) result) }
{
    match emptied(alloc, reply) {
        Ok(short) => short,
        Err(_) => None,
    }
}

impl<D, C: Clock, R: Wait> LimitedSock<D, C, R> {
    /// Over a socket, by a clock and by what the sockets of a server share.
    pub fn new(
        rt: R,
        alloc: Global,
        inner: D,
        clock: C,
        limiting: Arc<Limiting>,
    ) -> LimitedSock<D, C, R>
        ensures inner { result.inner ≡ inner }
        ensures good { result.good.waiting.items ≡ [] }
        ensures held { result.held ≡ None }
    {
        LimitedSock {
            inner,
            clock,
            rt,
            alloc,
            limiting,
            good: GoodCookies::new(alloc),
            held: None,
        }
    }

    /// Remembers a request that came by a good cookie.
    fn hear(&mut self, request: &[u8], from: SocketAddr)
        ensures { self.new.inner ≡ self.old.inner }
    {
        let (Some(exchange), Ok(message)) = (
            Exchange::of(request, from),
            MessageRef::from_slice(request),
        ) else {
            return;
        };
        let Some(secret) = self.limiting.secret(&self.rt) else {
            return;
        };
        let (_, second) = self.clock.latest();
        self.good.hear(exchange, &message, &secret, second);
    }

    /// What is done with a reply, which is counted. One to a request with a good cookie is sent whole.
    fn judged(&mut self, exchange: Exchange, reply: &[u8]) -> Result<Verdict, OutOfMemory>
        ensures inner { self.new.inner ≡ self.old.inner }
        ensures good { IsAwaited exchange self.old.good.waiting.items → IfOk result (λ v. v ≡ Whole) }
    {
        let Ok(message) = MessageRef::from_slice(reply) else {
            return Ok(Verdict::Whole);
        };
        let has_cookie = self.good.take(exchange);
        let kind = ReplyKind::of(self.alloc, &message)?;
        let (_, second) = self.clock.latest();
        let client = exchange.peer.ip;
        Ok(
            self.limiting.judge(
                &self.rt,
                self.alloc,
                client,
                has_cookie,
                &kind.as_kind(),
                second,
            ),
        )
    }

    /// What is done with a reply. One that found no room before is judged once.
    fn verdict(&mut self, exchange: Exchange, reply: &[u8]) -> Verdict
        ensures inner { self.new.inner ≡ self.old.inner }
        ensures good { self.old.held ≡ None → IsAwaited exchange self.old.good.waiting.items → result ≡ Whole }
    {
        if let Some(held) = self.held.take() {
            if exchange.is_same(held.exchange) {
                return held.verdict;
            }
        }
        match self.judged(exchange, reply) {
            Ok(verdict) => verdict,
            Err(_) => Verdict::Whole,
        }
    }
}

impl<D: AsyncDgramSock, C: Clock, R: Wait> LimitedSock<D, C, R> {
    /// Sends what takes the place of a reply, if there is something.
    fn send_in_place(&mut self, short: &Option<Vec<u8>>, reply: &[u8], to: SocketAddr) -> DgramSend
        ensures moves { Observed (D.tells self.new.inner) (D.tells self.old.inner) (ShortMoves (option_map (λ v. v.items) short.now) result
            to (D.sock_traffic self.old.inner) (D.sock_traffic self.new.inner)) }
        ensures bound { SendBound result reply.now }
        ensures receives { D.failed_receives self.new.inner ≡ D.failed_receives self.old.inner }
        ensures later { D.failed_sends self.old.inner ≤ D.failed_sends self.new.inner }
        ensures cause { SendCause result (D.failed_sends self.old.inner) (D.failed_sends self.new.inner) }
    {
        match short {
            Some(short) => {
                let answer = self.inner.poll_send_to(short.as_slice(), to);
                in_place_of(reply, answer)
            }
            None => DgramSend::Took(reply.len()),
        }
    }

    /// Sends a reply's header with TC and its questions in its place.
    fn send_emptied(&mut self, reply: &[u8], to: SocketAddr) -> DgramSend
        ensures moves { Observed (D.tells self.new.inner) (D.tells self.old.inner) (EmptiedMoves result reply.now to
            (D.sock_traffic self.old.inner) (D.sock_traffic self.new.inner)) }
        ensures bound { SendBound result reply.now }
        ensures receives { D.failed_receives self.new.inner ≡ D.failed_receives self.old.inner }
        ensures later { D.failed_sends self.old.inner ≤ D.failed_sends self.new.inner }
        ensures cause { SendCause result (D.failed_sends self.old.inner) (D.failed_sends self.new.inner) }
    {
        let short = short_of(self.alloc, reply);
        self.send_in_place(&short, reply, to)
    }

    /// Sends a reply as it was judged.
    fn send_by(&mut self, verdict: Verdict, reply: &[u8], to: SocketAddr) -> DgramSend
        ensures moves { Observed (D.tells self.new.inner) (D.tells self.old.inner) (MovesBy verdict result reply.now to
            (D.sock_traffic self.old.inner) (D.sock_traffic self.new.inner)) }
        ensures bound { SendBound result reply.now }
        ensures receives { D.failed_receives self.new.inner ≡ D.failed_receives self.old.inner }
        ensures later { D.failed_sends self.old.inner ≤ D.failed_sends self.new.inner }
        ensures cause { SendCause result (D.failed_sends self.old.inner) (D.failed_sends self.new.inner) }
    {
        match verdict {
            Verdict::Whole => self.inner.poll_send_to(reply, to),
            Verdict::Truncated => self.send_emptied(reply, to),
            Verdict::Dropped => DgramSend::Took(reply.len()),
        }
    }

    /// Sends a reply of an exchange as it is judged. If there is no room, what it was judged to be is held.
    fn send_limited(&mut self, exchange: Exchange, reply: &[u8], to: SocketAddr) -> DgramSend
        ensures moves { Observed (D.tells self.new.inner) (D.tells self.old.inner) (MovesAsJudged result reply.now to
            (D.sock_traffic self.old.inner) (D.sock_traffic self.new.inner)) }
        ensures good { self.old.held ≡ None → IsAwaited exchange self.old.good.waiting.items
            → Observed (D.tells self.new.inner) (D.tells self.old.inner) (SendMoves result reply.now to
            (D.sock_traffic self.old.inner) (D.sock_traffic self.new.inner)) }
        ensures bound { SendBound result reply.now }
        ensures receives { D.failed_receives self.new.inner ≡ D.failed_receives self.old.inner }
        ensures later { D.failed_sends self.old.inner ≤ D.failed_sends self.new.inner }
        ensures cause { SendCause result (D.failed_sends self.old.inner) (D.failed_sends self.new.inner) }
    {
        let verdict = self.verdict(exchange, reply);
        let answer = self.send_by(verdict, reply, to);
        if answer == DgramSend::Again {
            self.held = Some(Held { exchange, verdict });
        }
        answer
    }
}

impl<D: AsyncDgramSock, C: Clock, R: Wait> AsyncDgramSock for LimitedSock<D, C, R> {
    ghost tells = { λ _. ⊥ };

    ghost sock_traffic = { λ _. record { received = []; sent = []; empty_receives = 0; full_sends = 0 } };

    ghost failed_receives = { λ s. D.failed_receives s.inner };

    ghost failed_sends = { λ s. D.failed_sends s.inner };

    fn poll_send_to(&mut self, octets: &[u8], to: SocketAddr) -> DgramSend
        ensures moves { Observed (D.tells self.new.inner) (D.tells self.old.inner) (MovesAsJudged result octets.now to
            (D.sock_traffic self.old.inner) (D.sock_traffic self.new.inner)) }
        ensures good { (e : Exchange) → exchange_of octets.now to ≡ Some e → self.old.held ≡ None
            → IsAwaited e self.old.good.waiting.items
            → Observed (D.tells self.new.inner) (D.tells self.old.inner) (SendMoves result octets.now to
            (D.sock_traffic self.old.inner) (D.sock_traffic self.new.inner)) }
        ensures bound { SendBound result octets.now }
        ensures receives { D.failed_receives self.new.inner ≡ D.failed_receives self.old.inner }
        ensures later { D.failed_sends self.old.inner ≤ D.failed_sends self.new.inner }
        ensures cause { SendCause result (D.failed_sends self.old.inner) (D.failed_sends self.new.inner) }
    {
        if !self.limiting.is_on() {
            return self.inner.poll_send_to(octets, to);
        }
        match Exchange::of(octets, to) {
            Some(exchange) => self.send_limited(exchange, octets, to),
            None => self.inner.poll_send_to(octets, to),
        }
    }

    fn readable<W: Wait>(&mut self, rt: &W, millis: u64) {
        self.inner.readable(rt, millis);
        self.clock.outdate();
    }

    fn try_recv_buf_from(&mut self, buf: &mut [u8]) -> DgramRecv {
        let answer = self.inner.try_recv_buf_from(buf);
        self.clock.outdate();
        if let DgramRecv::Got(count, from) = answer {
            if self.limiting.is_on() {
                self.hear(&buf[..count], from);
            }
        }
        answer
    }
}
