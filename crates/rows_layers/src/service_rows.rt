//! Rows of services that stand by themselves (one that gives no reply, one of a closure, and an item that comes once) and of
//! errors.

ghost use Rattle.std.specs.Prelude.{None, Some};
ghost use Rattle.dns_service.specs.declared.service.Polled.TheVariants.{Ready};
ghost use Rattle.dns_service.specs.Transport.{hint_of};

use crate::error_rows::{error_said, next_error, refused_by};
use crate::inner::{AsPlanned, planned};
use crate::request_rows::{other_metadata, request};
use crate::said::{next_said, ready, size_said};
use dns_service::{
    CallResult, Error, Now, Once, OutOfMemory, Polled, ReplyFuture, ReplyStream, Request, Service,
    ServiceFeedback, ServiceResult, SharedService, WithoutMeta, service_fn,
};
use rows_table::{Calls, Row, RowError};
use std::alloc::Global;
use std::sync::Arc;

/// Gives no reply to any request. It is its own future and stream.
#[derive(Drop)]
struct Silent {}

impl ReplyStream for Silent {
    ghost answer = { λ _ _. Ready None };

    ghost size = { λ _. (0, Some 0) };

    fn poll_next(&mut self, _alloc: Global) -> Result<Polled<Option<ServiceResult>>, OutOfMemory> {
        Ok(Polled::Ready(None))
    }

    fn size_hint(&self) -> (usize, Option<usize>) {
        (0, Some(0))
    }
}

impl ReplyFuture for Silent {
    type Stream = Silent;

    ghost answer = { λ _ _. Ready None };

    fn poll(&mut self, _alloc: Global) -> Result<Polled<Silent>, OutOfMemory> {
        Ok(Polled::Ready(Silent {}))
    }
}

impl Service<()> for Silent {
    type Stream = Silent;

    type Future = Silent;

    ghost answer = { λ _ _ _. Ready None };

    ghost hint = { λ _ r. hint_of r.transport };

    fn call(&self, _alloc: Global, _request: &mut Request<()>) -> Result<Silent, OutOfMemory> {
        Ok(Silent {})
    }
}

/// Services that stand by themselves, requests with other metadata, and errors.
#[derive(Drop)]
pub(crate) struct ServiceRows;

impl Calls for ServiceRows {
    fn answer(&self, call: &str, row: &mut Row<'_>) -> Result<(), RowError> {
        match call {
            "service_fn" => of_closure(row),
            "once" => once(row),
            "with_new_metadata" => return other_metadata(row),
            "rcode" => error_said(row, true),
            "service_error" => error_said(row, false),
            "error" => match row.word() {
                "CommandCouldNotBeSent" => row.show(&Error::CommandCouldNotBeSent),
                _ => row.fail(RowError::OutOfForm),
            },
            "reply_error" => match refused_by(row.all_words()) {
                Some(error) => row.debug(&error),
                None => row.fail(RowError::OutOfForm),
            },
            _ => return Err(RowError::NoSuchCall),
        }
        Ok(())
    }
}

/// What the silent service gives as a shared one.
pub(crate) fn served(row: &mut Row<'_>, request: &mut Request<()>) {
    match Arc::new(row.alloc(), WithoutMeta { service: Silent {} }) {
        Ok(shared) => match SharedService::call(&shared, row.alloc(), request) {
            Ok(future) => future_said(row, future),
            Err(OutOfMemory) => row.fail(RowError::OutOfMemory),
        },
        Err(_) => row.fail(RowError::OutOfMemory),
    }
}

/// What the silent service gives as a service behind a shared reference.
pub(crate) fn of_arc(row: &mut Row<'_>, request: &mut Request<()>) {
    match Arc::new(row.alloc(), Silent {}) {
        Ok(shared) => answered(row, shared, request),
        Err(_) => row.fail(RowError::OutOfMemory),
    }
}

/// What a service gives to a request.
fn answered<S: Service<()>>(row: &mut Row<'_>, service: S, request: &mut Request<()>)
    requires { S.can_call service }
{
    match service.call(row.alloc(), request) {
        Ok(future) => future_said(row, future),
        Err(OutOfMemory) => row.fail(RowError::OutOfMemory),
    }
}

/// What a service of a closure gives that answers with this error, and how many octets its request has reserved.
fn of_closure(row: &mut Row<'_>) {
    let error = next_error(row);
    match request(row) {
        Ok(mut request) => {
            let service = service_fn::<AsPlanned, _, _>(planned, Err(error));
            answered(row, service, &mut request);
            row.close(", reserved");
            row.show(&request.num_reserved_bytes())
        }
        Err(fault) => row.fail(fault),
    }
}

/// What a future gives that is ready with an item that comes once.
fn once(row: &mut Row<'_>) {
    if row.word() != "BeginTransaction" {
        row.fail(RowError::OutOfForm);
    }
    let item = CallResult::feedback_only(ServiceFeedback::BeginTransaction);
    future_said(row, Now::new(Once::new(Ok(item))))
}

/// What a future's stream gives at three polls, its sizes in front of each, and what the future is afterwards.
fn future_said<F: ReplyFuture>(row: &mut Row<'_>, future: F) {
    let mut future = future;
    if let Some(mut stream) = ready(row, &mut future) {
        stream_said(row, &mut stream);
    }
    let said = match future.poll(row.alloc()) {
        Ok(Polled::Ready(_)) => ", then ready",
        Ok(Polled::Pending) => ", then pending",
        Err(OutOfMemory) => ", then out of memory",
    };
    row.close(said)
}

fn stream_said<S: ReplyStream>(row: &mut Row<'_>, stream: &mut S) {
    for _ in 0..3 {
        size_said(row, stream.size_hint());
        next_said(row, stream);
    }
}
