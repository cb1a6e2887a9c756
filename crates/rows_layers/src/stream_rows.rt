//! Rows of the streams of a layer: each kind round a future that is pending twice, and its stream, which is pending once.

use crate::error_rows::next_error;
use crate::often_rows::datagram;
use crate::said::{polled, size_said};
use crate::slow::{Later, SameError, Slow};
use crate::words::reply;
use dns_middleware::cut;
use dns_service::{CallResult, OutOfMemory, ReplyStream, ServiceError, ServiceFeedback};
use dns_stream::{MiddlewareStream, Once, PostprocessingStream};
use rows_table::{Row, RowError};
use std::alloc::Global;

type Layered = MiddlewareStream<
    Later<Slow>,
    Slow,
    PostprocessingStream<Later<Slow>, (), SameError>,
    Once,
>;

/// A reply is cut to that many octets: its limit and its octets.
pub(crate) fn cut_next(row: &mut Row<'_>) {
    match reply(row.alloc(), row.octets()) {
        Ok(mut reply) => {
            let limit = row.number();
            row.keep(cut(row.alloc(), &mut reply, limit));
            row.show(&reply.push_limit());
            row.hexadecimal(reply.as_slice())
        }
        Err(fault) => row.fail(fault),
    }
}

/// What a stream of the kind of the next word says, round an item of an error.
pub(crate) fn watched(row: &mut Row<'_>, sizes: bool) {
    let kind = row.word();
    let error = next_error(row);
    let stream: Result<Layered, RowError> = match kind {
        "IdentityFuture" => Ok(MiddlewareStream::IdentityFuture(later(error))),
        "IdentityStream" => Ok(MiddlewareStream::IdentityStream(slow(error))),
        "Map" => match mapped(row.alloc(), error) {
            Ok(mapped) => Ok(MiddlewareStream::Map(mapped)),
            Err(fault) => Err(fault),
        },
        "Result" => Ok(MiddlewareStream::Result(feedback())),
        _ => Err(RowError::OutOfForm),
    };
    match stream {
        Ok(stream) => shown(row, stream, sizes),
        Err(fault) => row.fail(fault),
    }
}

/// The sizes that a stream tells at first and as it is polled that many times, or what these polls answer.
fn shown<S: ReplyStream>(row: &mut Row<'_>, stream: S, sizes: bool) {
    let mut stream = stream;
    let polls = row.number::<u8>();
    if sizes {
        size_said(row, stream.size_hint());
        for _ in 0..polls {
            let answer = stream.poll_next(row.alloc());
            unsaid(row, answer);
            size_said(row, stream.size_hint());
        }
    } else {
        polled(row, &mut stream, polls)
    }
}

fn slow(error: ServiceError) -> Slow {
    Slow {
        waits: 1,
        item: Some(Err(error)),
    }
}

fn later(error: ServiceError) -> Later<Slow> {
    Later {
        waits: 2,
        stream: Some(slow(error)),
    }
}

fn mapped(
    alloc: Global,
    error: ServiceError,
) -> Result<PostprocessingStream<Later<Slow>, (), SameError>, RowError> {
    match datagram(alloc, b"\x12\x34\x01\0\0\0\0\0\0\0\0\0") {
        Some(request) => Ok(PostprocessingStream::new(later(error), request, SameError {})),
        None => Err(RowError::OutOfMemory),
    }
}

/// A feedback, whatever the error is.
fn feedback() -> Once {
    Once::new(Ok(CallResult::feedback_only(ServiceFeedback::EndTransaction)))
}

/// Says nothing of what a poll gives.
fn unsaid<T: Drop>(row: &mut Row<'_>, answer: Result<T, OutOfMemory>) {
    match answer {
        Ok(_) => {}
        Err(_) => row.fail(RowError::OutOfMemory),
    }
}
