//! Rows of sources and sinks.

use dns_outside::{
    MemorySink, MemorySource, Reading, Sink, Source, SourceRead, SteadySink, SteadySource, Writing,
    read_all, write_all,
};
use rows_table::{Calls, Row, RowError};

/// Sources and sinks.
pub(crate) struct OutsideRows;

impl Calls for OutsideRows {
    fn answer(&self, call: &str, row: &mut Row<'_>) -> Result<(), RowError> {
        match call {
            "reading" => reading(row),
            "writing" => writing(row),
            "memory_source" => memory_source(row),
            "memory_sink" => memory_sink(row),
            "steady_source" => steady_source(row),
            "steady_sink" => steady_sink(row),
            _ => return Err(RowError::NoSuchCall),
        }
        Ok(())
    }
}

/// What three reads of two octets give of a slice.
fn reading(row: &mut Row<'_>) {
    let octets = row.octets();
    let mut source = Reading::new(octets);
    for _ in 0..3 {
        one_read(row, &mut source);
    }
}

/// What one read of two octets gives.
fn one_read<S: Source>(row: &mut Row<'_>, source: &mut S) {
    let mut buf = [0u8; 2];
    match source.read(&mut buf) {
        SourceRead::Got(count) => match buf.get(..count) {
            Some(got) => row.hexadecimal(got),
            None => row.fail(RowError::OutOfForm),
        },
        SourceRead::End => row.say("End"),
        SourceRead::Failed => row.say("Failed"),
    }
}

/// A piece is written by one call and another one whole: what the first call takes, and what stands in the vector.
fn writing(row: &mut Row<'_>) {
    let first = row.octets();
    let second = row.octets();
    let mut sink = Writing::new(Vec::new(row.alloc()));
    row.debug(&sink.write(first));
    row.debug(&write_all(&mut sink, second));
    row.hexadecimal(&sink.into_inner())
}

/// Says all that is left of a source, or why it isn't read.
fn say_whole<S: Source>(row: &mut Row<'_>, source: &mut S) {
    match read_all(row.alloc(), source) {
        Ok(octets) => row.hexadecimal(&octets),
        Err(error) => row.debug(&error),
    }
}

/// The numbers of the calls that fail: the one, if there is one.
pub(crate) fn failing(row: &mut Row<'_>, number: Option<u64>) -> Vec<u64> {
    let mut numbers = Vec::new(row.alloc());
    if let Some(number) = number {
        row.keep(numbers.push(number));
    }
    numbers
}

/// A source of which one call fails and which gives that many octets a call is read whole twice: what the first gives, what
/// is left then, and what the second gives.
fn memory_source(row: &mut Row<'_>) {
    let number = row.number();
    let failing = failing(row, Some(number));
    let most = row.number();
    let mut source = MemorySource::new(row.vector(), failing, most);
    say_whole(row, &mut source);
    row.hexadecimal(source.left());
    say_whole(row, &mut source)
}

/// What writing the piece of the next word whole gives, and what the sink has then.
fn say_written(row: &mut Row<'_>, sink: &mut MemorySink) {
    let piece = row.octets();
    row.debug(&write_all(sink, piece));
    row.hexadecimal(sink.written())
}

/// Two pieces are written whole to a sink of which one call fails and which takes that many octets a call.
fn memory_sink(row: &mut Row<'_>) {
    let number = row.number();
    let failing = failing(row, Some(number));
    let mut sink = MemorySink::new(Vec::new(row.alloc()), failing, row.number());
    say_written(row, &mut sink);
    say_written(row, &mut sink)
}

fn steady_source(row: &mut Row<'_>) {
    let mut source = SteadySource::new(row.vector());
    say_whole(row, &mut source);
    row.hexadecimal(source.left());
}

fn steady_sink(row: &mut Row<'_>) {
    let octets = row.octets();
    let mut sink = SteadySink::new(Vec::new(row.alloc()));
    row.debug(&write_all(&mut sink, octets));
    match sink.written() {
        Some(octets) => row.hexadecimal(octets),
        None => row.say("lost"),
    }
}
