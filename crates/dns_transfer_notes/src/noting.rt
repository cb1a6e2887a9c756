//! A layer that notes transfers.

ghost use Rattle.std.specs.Prelude.{◌≡◌};

use crate::notes::{TransferNews, TransferNote, TransferNotes};
use dns_base::{Opcode, Rcode};
use dns_name::{Name, SocketAddr};
use dns_service::{OutOfMemory, Polled, ReplyFuture, ReplyStream, Request, Service, ServiceResult};
use std::alloc::Global;
use std::sync::{Arc, Wait};

/// The type of a question that asks for a transfer (RFC 1035, section 3.2.3).
const AXFR: u16 = 252;

/// The type of a question that asks for what has changed in a zone (RFC 1995, section 2).
const IXFR: u16 = 251;

/// The type of SOA records (RFC 1035, section 3.2.2).
const SOA: u16 = 6;

/// A service whose transfers are noted, and NOTIFYs and queries for SOA records that are refused.
#[derive(Drop)]
pub struct NotingSvc<R, S> {
    rt: R,
    next: S,
    notes: Arc<TransferNotes>,
}

impl<R, S> NotingSvc<R, S> {
    /// Round a service.
    pub fn new(rt: R, next: S, notes: Arc<TransferNotes>) -> Self
        ensures { result ≡ record { rt = rt; next = next; notes = notes } }
    {
        NotingSvc { rt, next, notes }
    }
}

/// What is noted of a request.
#[derive(Clone, Copy)]
enum Subject {
    /// A question for a transfer over a stream.
    Transfer,
    /// A NOTIFY.
    Notify,
    /// A query for the SOA record, by which a secondary checks its copy.
    Soa,
}

/// A question that is noted, and what of it was.
#[derive(Drop)]
struct Asked {
    subject: Subject,
    apex: Name,
    client: SocketAddr,
    notes: Arc<TransferNotes>,
    state: State,
}

/// What was noted of a question for a transfer.
#[derive(Clone, Copy, PartialEq, Eq)]
enum State {
    Nothing,
    Begun,
    Over,
}

/// Whether a question has a type that asks for a transfer.
fn asks_transfer(qtype: u16) -> bool {
    qtype == AXFR || qtype == IXFR
}

/// What is noted of a request with a question of this type, if something is.
fn subject_of<Meta>(request: &Request<Meta>, qtype: u16) -> Option<Subject> {
    let opcode = request.message().header().opcode;
    if opcode == Opcode::NOTIFY {
        return Some(Subject::Notify);
    }
    if request.transport_ctx().is_non_udp() && asks_transfer(qtype) {
        return Some(Subject::Transfer);
    }
    if opcode == Opcode::QUERY && qtype == SOA {
        return Some(Subject::Soa);
    }
    None
}

/// What is noted of a request, and the zone that it names.
fn asked_zone<Meta>(
    alloc: Global,
    request: &Request<Meta>,
) -> Result<Option<(Subject, Name)>, OutOfMemory> {
    let Some(question) = request.message().first_question() else {
        return Ok(None);
    };
    match subject_of(request, question.qtype().to_int()) {
        Some(subject) => Ok(Some((subject, question.qname().to_name(alloc)?))),
        None => Ok(None),
    }
}

impl Asked {
    /// The question of a request, if something is noted of it.
    fn of<Meta>(
        alloc: Global,
        request: &Request<Meta>,
        notes: &Arc<TransferNotes>,
    ) -> Result<Option<Asked>, OutOfMemory> {
        match asked_zone(alloc, request)? {
            Some((subject, apex)) => Ok(Some(Asked {
                subject,
                apex,
                client: request.client_addr(),
                notes: Arc::try_clone(notes)?,
                state: State::Nothing,
            })),
            None => Ok(None),
        }
    }

    /// Notes what happened. Without memory nothing is noted.
    fn note<R: Wait>(&self, rt: &R, alloc: Global, news: TransferNews) {
        if let Ok(apex) = self.apex.try_clone(alloc) {
            let client = self.client;
            self.notes.put(rt, TransferNote { apex, client, news });
        }
    }

    /// Notes the first reply to a question for a transfer.
    fn hear_transfer<R: Wait>(&mut self, rt: &R, alloc: Global, code: Rcode) {
        if code == Rcode::NOERROR {
            self.state = State::Begun;
            self.note(rt, alloc, TransferNews::Begun);
        } else {
            self.state = State::Over;
            self.note(rt, alloc, TransferNews::Refused(code));
        }
    }

    /// Notes the reply to a NOTIFY, if that is refused.
    fn hear_notify<R: Wait>(&mut self, rt: &R, alloc: Global, code: Rcode) {
        self.state = State::Over;
        if code != Rcode::NOERROR {
            self.note(rt, alloc, TransferNews::NotifyRefused(code));
        }
    }

    /// Notes the reply to a query for the SOA record, if that is NOTAUTH.
    fn hear_soa<R: Wait>(&mut self, rt: &R, alloc: Global, code: Rcode) {
        self.state = State::Over;
        if code == Rcode::NOTAUTH {
            self.note(rt, alloc, TransferNews::SoaRefused);
        }
    }

    /// Notes the first reply.
    fn hear_first<R: Wait>(&mut self, rt: &R, alloc: Global, code: Rcode) {
        match self.subject {
            Subject::Transfer => self.hear_transfer(rt, alloc, code),
            Subject::Notify => self.hear_notify(rt, alloc, code),
            Subject::Soa => self.hear_soa(rt, alloc, code),
        }
    }

    /// Notes an item, if it is the first one.
    fn hear_item<R: Wait>(&mut self, rt: &R, alloc: Global, item: &ServiceResult) {
        if self.state != State::Nothing {
            return;
        }
        if let Ok(given) = item {
            if let Some(reply) = given.response() {
                self.hear_first(rt, alloc, reply.header().rcode);
            }
        }
    }

    /// Notes the end, if a transfer began.
    fn end<R: Wait>(self, rt: &R, news: TransferNews) {
        let Asked {
            subject: _,
            apex,
            client,
            notes,
            state,
        } = self;
        if state == State::Begun {
            notes.put(rt, TransferNote { apex, client, news });
        }
    }
}

/// Notes the end of a transfer, if it wasn't noted yet.
fn note_end<R: Wait>(rt: &R, asked: Option<Asked>, news: TransferNews) {
    if let Some(asked) = asked {
        asked.end(rt, news);
    }
}

/// How a transfer ends that is let go with at most that many items left. The last item only says that it has ended.
fn news_at(left: Option<usize>) -> TransferNews {
    match left {
        Some(0) | Some(1) => TransferNews::Ended,
        _ => TransferNews::BrokenOff,
    }
}

/// Notes what a poll gave.
fn hear<R: Wait>(
    rt: &R,
    alloc: Global,
    asked: &mut Option<Asked>,
    polled: &Polled<Option<ServiceResult>>,
) {
    match polled {
        Polled::Ready(Some(item)) => {
            if let Some(asked) = asked {
                asked.hear_item(rt, alloc, item);
            }
        }
        Polled::Ready(None) => note_end(rt, asked.take(), TransferNews::Ended),
        Polled::Pending => {}
    }
}

/// The future of a service whose transfers are noted.
#[derive(Drop)]
pub struct NotingFuture<R, F> {
    rt: R,
    inner: F,
    asked: Option<Asked>,
}

/// The stream of a service whose transfers are noted. One that is let go notes how its transfer ends.
pub struct NotingStream<R: Wait + Copy, T: ReplyStream> {
    rt: R,
    inner: T,
    asked: Option<Asked>,
}

impl<R: Wait + Copy, T: ReplyStream> Drop for NotingStream<R, T> {
    fn drop(self) {
        let NotingStream { rt, inner, asked } = self;
        let (_, left) = inner.size_hint();
        note_end(&rt, asked, news_at(left));
    }
}

impl<R, S, Meta> Service<Meta> for NotingSvc<R, S>
where
    R: Wait + Copy,
    S: Service<Meta>,
{
    type Stream = NotingStream<R, S::Stream>;

    type Future = NotingFuture<R, S::Future>;

    ghost answer = { λ s. S.answer s.next };

    ghost hint = { λ s. S.hint s.next };

    ghost can_call = { λ s. S.can_call s.next };

    fn call(
        &self,
        alloc: Global,
        request: &mut Request<Meta>,
    ) -> Result<NotingFuture<R, S::Future>, OutOfMemory> {
        let asked = Asked::of(alloc, request, &self.notes)?;
        let rt = self.rt;
        let inner = self.next.call(alloc, request)?;
        Ok(NotingFuture { rt, inner, asked })
    }
}

impl<R: Wait + Copy, F: ReplyFuture> ReplyFuture for NotingFuture<R, F> {
    type Stream = NotingStream<R, F::Stream>;

    ghost answer = { λ f. F.answer f.inner };

    fn poll(&mut self, alloc: Global) -> Result<Polled<NotingStream<R, F::Stream>>, OutOfMemory> {
        let rt = self.rt;
        match self.inner.poll(alloc)? {
            Polled::Ready(inner) => Ok(Polled::Ready(NotingStream {
                rt,
                inner,
                asked: self.asked.take(),
            })),
            Polled::Pending => Ok(Polled::Pending),
        }
    }
}

impl<R: Wait + Copy, T: ReplyStream> ReplyStream for NotingStream<R, T> {
    ghost answer = { λ s. T.answer s.inner };

    ghost size = { λ s. T.size s.inner };

    fn poll_next(&mut self, alloc: Global) -> Result<Polled<Option<ServiceResult>>, OutOfMemory> {
        let polled = self.inner.poll_next(alloc)?;
        hear(&self.rt, alloc, &mut self.asked, &polled);
        Ok(polled)
    }

    fn size_hint(&self) -> (usize, Option<usize>) {
        self.inner.size_hint()
    }
}
