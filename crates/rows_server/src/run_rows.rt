//! Rows of the program's run, of traces, of plans of a server, and of exit statuses.

use crate::outside_rows::failing;
use crate::serve_rows::planned;
use crate::texts::{keep_word, next_text, parted, say_in_brackets, say_text};
use crate::trace_rows::trace_of;
use dns_outside::{MemorySink, MemorySource, Reading, Source};
use dns_run::{Status, run};
use dns_trace::size;
use rows_table::{Calls, Row, RowError};
use std::io;

/// Each status.
const STATUSES: &[Status] = &[
    Status::Done,
    Status::Usage,
    Status::Refused,
    Status::ReadFault,
    Status::WriteFault,
    Status::OutOfMemory,
    Status::TooLong,
    Status::HostFault,
];

/// Runs, traces, plans of a server, and exit statuses.
pub(crate) struct RunRows;

impl Calls for RunRows {
    fn answer(&self, call: &str, row: &mut Row<'_>) -> Result<(), RowError> {
        match call {
            "replay" | "steps" | "trace" | "cache" => of_script(row, call),
            "read_trace" => return trace_of(row),
            "serve_plan" => planned(row),
            "statuses" => statuses(row),
            "size" => {
                let word = row.word();
                row.debug(&size(word.as_bytes()))
            }
            _ => return of_faults(call, row),
        }
        Ok(())
    }
}

/// Runs of which calls fail, or over octets without an end.
fn of_faults(call: &str, row: &mut Row<'_>) -> Result<(), RowError> {
    match call {
        "run" => with_faults(row),
        "endless" => endless(row),
        "reads_fail" => each_fails(row, true),
        "writes_fail" => each_fails(row, false),
        _ => return Err(RowError::NoSuchCall),
    }
    Ok(())
}

/// Each status by its name, with its number.
fn statuses(row: &mut Row<'_>) {
    for status in STATUSES {
        row.debug(status);
        row.show(&status.number());
    }
}

/// A command line, whose words commas part in the next word of the row.
pub(crate) fn next_words(row: &mut Row<'_>) -> Vec<String> {
    let word = row.word();
    parted(row, word)
}

/// The script of the words that are left, which is given 40 octets a call, and of which the read of this number fails.
pub(crate) fn source(row: &mut Row<'_>, number: Option<u64>) -> MemorySource {
    let text = next_text(row);
    source_of(row, text, number)
}

/// A text that is read 40 octets a call, and of which the read of this number fails.
fn source_of(row: &mut Row<'_>, text: Vec<u8>, number: Option<u64>) -> MemorySource {
    let failing = failing(row, number);
    MemorySource::new(text, failing, 40)
}

/// A sink that takes 40 octets a call, of which the one of this number fails.
pub(crate) fn sink(row: &mut Row<'_>, number: Option<u64>) -> MemorySink {
    let failing = failing(row, number);
    MemorySink::new(Vec::new(row.alloc()), failing, 40)
}

/// Whether a source that had that many octets has them still.
pub(crate) fn untouched(source: &MemorySource, size: usize) -> &'static str {
    if source.left().len() == size {
        "untouched"
    } else {
        "read"
    }
}

/// How the run of words over a source ends, and what it writes.
fn written<S: Source>(row: &mut Row<'_>, words: &[String], source: &mut S) {
    let mut sink = sink(row, None);
    row.debug(&run(row.alloc(), words, source, &mut sink));
    say_text(row, sink.written())
}

/// How the run of a word over a script ends, `cache` with a number of replies, and what it writes.
fn of_script(row: &mut Row<'_>, word: &str) {
    let mut words = parted(row, word);
    if word == "cache" {
        let replies = row.word();
        keep_word(row, &mut words, replies);
    }
    let mut source = source(row, None);
    written(row, &words, &mut source)
}

/// How the run of words ends if one read and one write fail, or none, whether anything was read, and what it writes.
fn with_faults(row: &mut Row<'_>) {
    let words = next_words(row);
    let read = row.optional();
    let write = row.optional();
    let mut source = source(row, read);
    run_with_fault(row, &words, &mut source, write)
}

/// How the run of words ends over a source if the write of this number fails. Says too whether anything was read, and
/// what was written.
fn run_with_fault(
    row: &mut Row<'_>,
    words: &[String],
    source: &mut MemorySource,
    number: Option<u64>,
) {
    let mut sink = sink(row, number);
    let size = source.left().len();
    row.debug(&run(row.alloc(), words, source, &mut sink));
    row.say(untouched(source, size));
    say_text(row, sink.written())
}

/// How the run of words over a script ends if one read and one write fail, or none, and in brackets what it writes.
fn one_fails(
    row: &mut Row<'_>,
    words: &[String],
    text: &[u8],
    read: Option<u64>,
    write: Option<u64>,
) -> Status {
    let text = row.copied(text);
    let mut source = source_of(row, text, read);
    one_write_fails(row, words, &mut source, write)
}

/// How the run of words ends over a source if the write of this number fails, and in brackets what it writes.
fn one_write_fails(
    row: &mut Row<'_>,
    words: &[String],
    source: &mut MemorySource,
    number: Option<u64>,
) -> Status {
    let mut sink = sink(row, number);
    let status = run(row.alloc(), words, source, &mut sink);
    row.debug(&status);
    say_in_brackets(row, sink.written());
    status
}

/// How the runs of a word end in which the read of each number fails, or the write of each. They go up to the first run that is
/// done.
fn each_fails(row: &mut Row<'_>, reads: bool) {
    let words = next_words(row);
    let text = next_text(row);
    each_of_text(row, &words, &text, reads)
}

/// How the runs of words over a text end as one read after another fails, or one write, until a run is done.
fn each_of_text(row: &mut Row<'_>, words: &[String], text: &[u8], reads: bool) {
    for number in 0..1_000u64 {
        let (read, write) = if reads {
            (Some(number), None)
        } else {
            (None, Some(number))
        };
        if one_fails(row, words, text, read, write) == Status::Done {
            return;
        }
    }
    row.fail(RowError::OutOfForm)
}

/// How the run of a word ends over octets without an end, and what it writes.
fn endless(row: &mut Row<'_>) {
    let words = next_words(row);
    written(row, &words, &mut Reading::new(io::repeat(0)))
}
