//! Rows of the book for one thread.

use dns_book::{Admission, BookState, Call, Look, Reply};
use dns_service::{DgramConfig, StreamConfig};
use rows_table::{Row, RowError, number_of};

/// The replies of an open book with this limit and version to calls, which commas part.
pub(crate) fn replies(row: &mut Row<'_>) {
    let stream = with_limit(row.number());
    let mut state = BookState::resume(DgramConfig::new(), stream, row.number());
    for name in row.word().split(',') {
        asked(row, &mut state, name);
    }
}

/// The reply of a book to a call by its name; a comma parts it from what stands there.
fn asked(row: &mut Row<'_>, state: &mut BookState, name: &str) {
    if !row.said().is_empty() {
        row.close(",");
    }
    match call_named(name) {
        Ok(call) => reply_said(row, &state.call(&call)),
        Err(fault) => row.fail(fault),
    }
}

/// The default configuration with this limit of connections.
fn with_limit(limit: usize) -> StreamConfig {
    let mut stream = StreamConfig::new();
    stream.set_max_concurrent_connections(limit);
    stream
}

/// A call by its name; `reconfigure` has a new limit after a colon.
fn call_named(name: &str) -> Result<Call, RowError> {
    match name {
        "admit" => Ok(Call::Admit),
        "release" => Ok(Call::Release),
        "shutdown" => Ok(Call::Shutdown),
        "look" => Ok(Call::Look),
        _ => reconfigure(name),
    }
}

fn reconfigure(name: &str) -> Result<Call, RowError> {
    let limit = name.strip_prefix("reconfigure:");
    let limit = number_of(limit.ok_or(RowError::OutOfForm)?)?;
    Ok(Call::Reconfigure {
        dgram: DgramConfig::new(),
        stream: with_limit(limit),
    })
}

fn reply_said(row: &mut Row<'_>, reply: &Reply) {
    match reply {
        Reply::Admission(admission) => admission_said(row, admission),
        Reply::Left(left) => row.show(left),
        Reply::Version(Ok(version)) => row.show(version),
        Reply::Version(Err(error)) => row.debug(error),
        Reply::Look(look) => look_said(row, look),
    }
}

fn admission_said(row: &mut Row<'_>, admission: &Admission) {
    match admission {
        Admission::Admitted(look) => {
            row.say("admitted");
            look_said(row, look)
        }
        Admission::Full {
            taken,
            limit,
            accepted,
        } => {
            row.say("full");
            row.show(taken);
            row.say("of");
            row.show(limit);
            row.show(accepted)
        }
        Admission::Closed => row.say("closed"),
    }
}

/// The version, whether the book is closed, and how many slots are taken of how many. Nothing else may be configured.
fn look_said(row: &mut Row<'_>, look: &Look) {
    let limit = look.stream.max_concurrent_connections();
    let has_defaults = look.dgram == DgramConfig::new() && look.stream == with_limit(limit);
    if !has_defaults {
        return row.say("another configuration");
    }
    row.show(&look.version);
    row.say(if look.closed { "closed" } else { "open" });
    row.show(&look.taken);
    row.say("of");
    row.show(&limit)
}
