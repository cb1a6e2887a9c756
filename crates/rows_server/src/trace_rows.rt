//! Rows of traces: a text is read, and what it says is written again.

use crate::texts::{next_text, say_text};
use dns_service::Event;
use dns_trace::{TraceError, TraceSettings, TraceWriter, read_trace};
use rows_table::{Row, RowError};
use std::alloc::Global;

/// The text that is written of what a text says, or its first bad line and the reason.
pub(crate) fn trace_of(row: &mut Row<'_>) -> Result<(), RowError> {
    let text = next_text(row);
    match read_trace(row.alloc(), &text) {
        Ok((settings, events)) => said_again(row, &settings, &events),
        Err(error) => refused(row, error),
    }
}

/// The text of settings and events.
pub(crate) fn said_again(
    row: &mut Row<'_>,
    settings: &TraceSettings,
    events: &[Event],
) -> Result<(), RowError> {
    let text = written(row.alloc(), settings, events)?;
    say_text(row, &text);
    Ok(())
}

/// The text of settings and events.
fn written(alloc: Global, settings: &TraceSettings, events: &[Event]) -> Result<Vec<u8>, RowError> {
    let mut writer = TraceWriter::new(alloc, settings)?;
    for event in events {
        writer.note(alloc, event)?;
    }
    Ok(writer.finish())
}

/// The first bad line and the reason.
fn refused(row: &mut Row<'_>, error: TraceError) -> Result<(), RowError> {
    match error {
        TraceError::Line { line, reason } => {
            row.say("refused");
            row.show(&line);
            row.debug(&reason);
            Ok(())
        }
        TraceError::OutOfMemory => Err(RowError::OutOfMemory),
    }
}
