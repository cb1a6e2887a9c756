//! What polls gave, as a row says it.

use crate::cookie_rows::CookiesIn;
use dns_name::IpAddr;
use dns_service::{OutOfMemory, Polled, ReplyFuture, ReplyStream, Request, Service, ServiceResult};
use rows_table::{Row, RowError};

/// How often a stream is polled and how its replies are said.
#[derive(Clone, Copy)]
pub(crate) enum Shown<'a> {
    /// The octets of that many polls.
    Polls(u8),
    /// The octets of the first poll, if the second gives the end.
    Only,
    /// The cookies of the first poll, as they check for an address under a secret.
    Cookies(IpAddr, &'a [u8; 16]),
}

/// What a service gives to a request.
pub(crate) fn called<S: Service<()>>(
    row: &mut Row<'_>,
    service: S,
    request: &mut Request<()>,
    shown: Shown<'_>,
)
    requires { S.can_call service }
{
    match service.call(row.alloc(), request) {
        Ok(mut future) => future_said(row, &mut future, shown),
        Err(OutOfMemory) => row.fail(RowError::OutOfMemory),
    }
}

/// What a future's stream gives, after `pending` for each poll that gives none yet; there are four polls at most.
fn future_said<F: ReplyFuture>(row: &mut Row<'_>, future: &mut F, shown: Shown<'_>) {
    for _ in 0..4 {
        if let Some(mut stream) = ready(row, future) {
            return stream_said(row, &mut stream, shown);
        }
    }
}

/// The stream that a future gives at its next poll; if there is none, it says so.
pub(crate) fn ready<F: ReplyFuture>(row: &mut Row<'_>, future: &mut F) -> Option<F::Stream> {
    match future.poll(row.alloc()) {
        Ok(Polled::Ready(stream)) => return Some(stream),
        Ok(Polled::Pending) => row.say("pending"),
        Err(OutOfMemory) => row.fail(RowError::OutOfMemory),
    }
    None
}

fn stream_said<S: ReplyStream>(row: &mut Row<'_>, stream: &mut S, shown: Shown<'_>) {
    match shown {
        Shown::Polls(polls) => polled(row, stream, polls),
        Shown::Only => {
            next_said(row, stream);
            let answer = stream.poll_next(row.alloc());
            say(row, &AllOfIt { end: "" }, answer)
        }
        Shown::Cookies(address, secret) => {
            let cookies = stream.poll_next(row.alloc());
            say(row, &CookiesIn { address, secret }, cookies)
        }
    }
}

/// What that many polls give.
pub(crate) fn polled<S: ReplyStream>(row: &mut Row<'_>, stream: &mut S, polls: u8) {
    for _ in 0..polls {
        next_said(row, stream);
    }
}

/// What is said of values.
pub(crate) trait Says<T> {
    /// Says it of a value.
    fn says(&self, row: &mut Row<'_>, value: &T);
}

/// Says it of a value that nothing else has.
pub(crate) fn say<T: Drop, S: Says<T>>(row: &mut Row<'_>, what: &S, value: T) {
    what.says(row, &value)
}

/// What one poll of a stream answers.
pub(crate) type PollAnswer = Result<Polled<Option<ServiceResult>>, OutOfMemory>;

/// All that a poll gives: `pending`, the item, or what is said of the end.
#[derive(Drop)]
struct AllOfIt {
    end: &'static str,
}

impl Says<PollAnswer> for AllOfIt {
    fn says(&self, row: &mut Row<'_>, value: &PollAnswer) {
        match value {
            Ok(Polled::Ready(Some(item))) => item_said(row, item),
            Ok(Polled::Ready(None)) => row.say(self.end),
            Ok(Polled::Pending) => row.say("pending"),
            Err(_) => row.fail(RowError::OutOfMemory),
        }
    }
}

/// What the next poll gives.
pub(crate) fn next_said<S: ReplyStream>(row: &mut Row<'_>, stream: &mut S) {
    let answer = stream.poll_next(row.alloc());
    say(row, &AllOfIt { end: "end" }, answer)
}

/// The octets of the reply, the feedback or the error of an item.
fn item_said(row: &mut Row<'_>, item: &ServiceResult) {
    match item {
        Ok(given) => match given.response() {
            Some(reply) => row.hexadecimal(reply.as_slice()),
            None => match given.feedback() {
                Some(feedback) => row.debug(&feedback),
                None => row.say("nothing"),
            },
        },
        Err(error) => row.debug(error),
    }
}

/// How many items are left, at least and at most: `1..2`, or `1..` if the most isn't known.
pub(crate) fn size_said(row: &mut Row<'_>, size: (usize, Option<usize>)) {
    row.show(&size.0);
    row.close("..");
    if let Some(most) = size.1 {
        row.close_shown(&most);
    }
}
