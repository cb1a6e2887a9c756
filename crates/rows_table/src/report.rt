//! What is reported of a table whose rows are judged.

use crate::Row;
use std::alloc::Global;
use std::process::ExitCode;
use std::{fmt, io};

/// The line that is judged and its number, how many rows there were, how many of them failed, and a line for each of these.
#[derive(Drop)]
pub(crate) struct Report<'a> {
    line: &'a str,
    number: usize,
    rows: usize,
    failed: usize,
    failures: String,
}

impl<'a> Report<'a> {
    /// A report on no rows.
    pub(crate) fn new(alloc: Global) -> Report<'a> {
        Report {
            line: "",
            number: 0,
            rows: 0,
            failed: 0,
            failures: String::new(alloc),
        }
    }

    /// Begins with the next line, and says whether it is a row: it isn't empty, and doesn't begin with `#`.
    pub(crate) fn begin(&mut self, line: &'a str) -> bool {
        self.line = line;
        self.number = self.number.saturating_add(1);
        let is_row = !line.is_empty() && !line.starts_with('#');
        if is_row {
            self.rows = self.rows.saturating_add(1);
        }
        is_row
    }

    /// The row fails if it has a fault or says something else than what is wanted.
    pub(crate) fn compare(&mut self, row: &Row<'_>, wanted: &str) {
        match row.fault {
            Some(fault) => self.fail(fault.as_str()),
            None if row.said() == wanted => {}
            None => self.fail(row.said()),
        }
    }

    /// The row fails, with what is said in place of what it wants. If there is no memory for the line, it fails without.
    pub(crate) fn fail(&mut self, said: &str) {
        self.failed = self.failed.saturating_add(1);
        let _ = writeln!(
            self.failures,
            "line {}: {}, but it says {said}",
            self.number, self.line
        );
    }

    /// Prints what is reported. The status is 0 if all rows hold.
    pub(crate) fn print<R: Print>(&self, rt: &R) -> io::Result<ExitCode> {
        rt.println(self)?;
        match self.failed {
            0 => Ok(ExitCode::SUCCESS),
            _ => Ok(ExitCode::FAILURE),
        }
    }
}

impl fmt::Display for Report<'_> {
    fn fmt<W: fmt::Write>(&self, f: &mut fmt::Formatter<W>) -> fmt::Result {
        write!(
            f,
            "{}{} rows, {} failed",
            self.failures, self.rows, self.failed
        )
    }
}
