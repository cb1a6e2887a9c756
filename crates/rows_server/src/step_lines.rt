//! Steps of a client by their lines.

use dns_service::Step;
use dns_trace::{Words, read_step};
use rows_table::RowError;
use std::alloc::Global;

/// The steps of lines.
pub(crate) fn steps_of(alloc: Global, lines: &str) -> Result<Vec<Step>, RowError> {
    let mut steps = Vec::new(alloc);
    for line in lines.split(';') {
        add_step(alloc, line, &mut steps)?;
    }
    Ok(steps)
}

/// Puts the step of a line after the others.
fn add_step(alloc: Global, line: &str, steps: &mut Vec<Step>) -> Result<(), RowError> {
    let words = Words::of(alloc, line.as_bytes())?;
    match read_step(alloc, &words) {
        Ok(step) => kept(steps, step),
        Err(_) => Err(RowError::OutOfForm),
    }
}

fn kept(steps: &mut Vec<Step>, step: Step) -> Result<(), RowError> {
    match steps.push(step) {
        Ok(()) => Ok(()),
        Err(_) => Err(RowError::OutOfMemory),
    }
}
