//! A table of rows is read from standard input, and each row that doesn't hold is reported.

use crate::page::pages;
use crate::repeats::push_line;
use crate::report::Report;
use crate::{Row, RowError};
use std::alloc::Global;
use std::io;
use std::process::ExitCode;

/// The calls that the rows of a table name.
pub trait Calls {
    /// Says in a row what the call of this name says of the row's arguments. They are read to their end before anything can be
    /// refused.
    fn answer(&self, call: &str, row: &mut Row<'_>) -> Result<(), RowError>;
}

/// The calls of two parts of a table: the second is asked for what the first doesn't know.
impl<A: Calls, B: Calls> Calls for (A, B) {
    fn answer(&self, call: &str, row: &mut Row<'_>) -> Result<(), RowError> {
        match self.0.answer(call, row) {
            Err(RowError::NoSuchCall) => self.1.answer(call, row),
            said => said,
        }
    }
}

/// What steps are taken with.
pub trait Steps {
    /// Takes the step of this name with the row's arguments, and says in the row what it answers.
    fn take_step(&mut self, step: &str, row: &mut Row<'_>);
}

/// Asks a row's call of its arguments. Reports what it says if that isn't what is wanted.
fn answered<C: Calls>(calls: &C, row: Row<'_>, wanted: &str, report: &mut Report<'_>) {
    let mut row = row;
    let call = row.word();
    if let Err(fault) = calls.answer(call, &mut row) {
        row.give_up(fault);
    }
    row.end();
    report.compare(&row, wanted)
}

/// Judges one row, a call with its arguments and what is wanted, after its repetitions were written out.
fn judged<C: Calls>(alloc: Global, calls: &C, row: &str, report: &mut Report<'_>) {
    match row.split_once(" = ") {
        Some((asked, wanted)) => match pages(alloc, asked) {
            Ok(pages) => answered(calls, Row::of(alloc, asked, &pages), wanted.trim(), report),
            Err(fault) => report.fail(fault.as_str()),
        },
        None => report.fail(RowError::NothingWanted.as_str()),
    }
}

/// Judges the row of one line. A line that is empty or begins with `#` is no row.
fn line_judged<'a, C: Calls>(alloc: Global, calls: &C, line: &'a str, report: &mut Report<'a>) {
    if report.begin(line) {
        let mut row = String::new(alloc);
        match push_line(&mut row, line) {
            Ok(()) => judged(alloc, calls, row.as_str(), report),
            Err(fault) => report.fail(fault.as_str()),
        }
    }
}

/// What is reported of the rows of a table.
fn report<'a, C: Calls>(alloc: Global, calls: &C, table: &'a str) -> Report<'a> {
    let mut report = Report::new(alloc);
    for line in table.lines() {
        line_judged(alloc, calls, line, &mut report);
    }
    report
}

/// Judges the rows of standard input and prints how many there are and how many failed, with a line for each of these.
/// Empty lines and lines that begin with `#` are no rows. The status is 0 if all rows hold.
pub fn run<R: Input + Print + AllocGlobal, C: Calls>(rt: &R, calls: &C) -> io::Result<ExitCode> {
    match io::read_to_string(rt.alloc(), rt.reader()) {
        Ok(table) => report(rt.alloc(), calls, table.as_str()).print(rt),
        Err(error) => Err(error),
    }
}
