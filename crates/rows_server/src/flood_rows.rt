//! Rows of floods, of how often a service is called and polled, and of a target.

ghost use Rattle.dns_service.specs.Transport.{hint_of};
ghost use Rattle.dns_service.specs.declared.service.Polled.TheVariants.{Pending};

use crate::texts::next_text;
use crate::trace_rows::said_again;
use dns_core::{Notifiable, Settings, VerdictFuture, serve_events};
use dns_name::{Class, IpAddr, Name};
use dns_run::{NotifyRules, ScriptTarget, event_at, next_number};
use dns_service::{Event, Once, OutOfMemory, Polled, ReplyFuture, Request, Service};
use dns_trace::read_trace;
use rows_table::{Calls, Row, RowError};
use std::alloc::Global;
use std::cell::Cell;
use std::sync::Arc;

/// Events of floods, the number that follows a number of their generator, a service that counts, and a target.
pub(crate) struct FloodRows;

impl Calls for FloodRows {
    fn answer(&self, call: &str, row: &mut Row<'_>) -> Result<(), RowError> {
        match call {
            "next_number" => {
                let number = row.number();
                row.show(&next_number(number))
            }
            "event_at" => return made(row),
            "poll_count" => poll_count(row),
            "arc_target" => of_arc(row),
            _ => return Err(RowError::NoSuchCall),
        }
        Ok(())
    }
}

/// The event of a place, by a number of the generator, in a trace of the default settings.
fn made(row: &mut Row<'_>) -> Result<(), RowError> {
    let place = row.number();
    let number = row.number();
    let settings = Settings::new(row.alloc());
    match event_at(row.alloc(), place, number) {
        Ok(event) => said_again(row, &settings, &[event]),
        Err(OutOfMemory) => Err(RowError::OutOfMemory),
    }
}

/// Counts its calls, and the polls of its futures, of which none is ever ready.
#[derive(Drop)]
struct Counting<'a> {
    calls: &'a Cell<u64>,
    polls: &'a Cell<u64>,
}

impl<'a> Service<()> for Counting<'a> {
    type Stream = Once;

    type Future = Never<'a>;

    ghost answer = { λ _ _ _. Pending };

    ghost hint = { λ _ r. hint_of r.transport };

    fn call(&self, _alloc: Global, _request: &mut Request<()>) -> Result<Never<'a>, OutOfMemory> {
        self.calls.set(self.calls.get().saturating_add(1));
        Ok(Never { polls: self.polls })
    }
}

/// A future that is never ready, and counts its polls.
#[derive(Drop)]
struct Never<'a> {
    polls: &'a Cell<u64>,
}

impl<'a> ReplyFuture for Never<'a> {
    type Stream = Once;

    ghost answer = { λ _ _. Pending };

    fn poll(&mut self, _alloc: Global) -> Result<Polled<Once>, OutOfMemory> {
        self.polls.set(self.polls.get().saturating_add(1));
        Ok(Polled::Pending)
    }
}

/// The events of a trace: how many outputs there are, how often the service was called, and how often its futures were polled.
fn poll_count(row: &mut Row<'_>) {
    let text = next_text(row);
    match read_trace(row.alloc(), &text) {
        Ok((settings, events)) => counted(row, &settings, &events),
        Err(_) => row.fail(RowError::OutOfForm),
    }
}

/// How many outputs there are, how often a service was called, and how often its futures were polled.
fn counted(row: &mut Row<'_>, settings: &Settings, events: &[Event]) {
    let calls = Cell::new(0);
    let polls = Cell::new(0);
    let service = Counting {
        calls: &calls,
        polls: &polls,
    };
    match output_count(row.alloc(), settings, service, events) {
        Ok(count) => {
            row.show(&count);
            row.show(&calls.get());
            row.show(&polls.get())
        }
        Err(OutOfMemory) => row.fail(RowError::OutOfMemory),
    }
}

/// How many outputs there are of a service's answers.
fn output_count(
    alloc: Global,
    settings: &Settings,
    service: Counting<'_>,
    events: &[Event],
) -> Result<usize, OutOfMemory> {
    let target = ScriptTarget::new(NotifyRules::new(alloc));
    let outputs = serve_events(alloc, settings, service, target, events)?;
    Ok(outputs.len())
}

/// The verdict of a target of no rules that is shared, on a change of the root zone.
fn of_arc(row: &mut Row<'_>) {
    let target = ScriptTarget::new(NotifyRules::new(row.alloc()));
    match Arc::new(row.alloc(), target) {
        Ok(target) => verdict(row, &target),
        Err(_) => row.fail(RowError::OutOfMemory),
    }
}

/// The verdict on a change of the root zone.
fn verdict<N: Notifiable>(row: &mut Row<'_>, target: &N) {
    match Name::root(row.alloc()) {
        Ok(root) => verdict_on(row, target, &root),
        Err(_) => row.fail(RowError::OutOfMemory),
    }
}

fn verdict_on<N: Notifiable>(row: &mut Row<'_>, target: &N, apex: &Name) {
    let source = IpAddr::V4([192, 0, 2, 1]);
    match target.notify_zone_changed(row.alloc(), Class::IN, apex, None, source) {
        Ok(future) => verdict_said(row, future),
        Err(OutOfMemory) => row.fail(RowError::OutOfMemory),
    }
}

fn verdict_said<F: VerdictFuture>(row: &mut Row<'_>, future: F) {
    let mut future = future;
    match future.poll(row.alloc()) {
        Ok(Polled::Ready(verdict)) => row.debug(&verdict),
        Ok(Polled::Pending) => row.say("pending"),
        Err(OutOfMemory) => row.fail(RowError::OutOfMemory),
    }
}
