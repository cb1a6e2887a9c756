//! Rows of plans of a server.

use crate::run_rows::{next_words, sink, source, untouched};
use crate::service_rows::three_answers;
use crate::texts::say_text;
use dns_outside::{MemorySink, MemorySource};
use dns_run::{ServePlan, Status, serve_plan};
use rows_table::Row;

/// The plan of words and a script, or why there is none, if one read and one write fail, or none. Then whether anything was read,
/// and what is written.
pub(crate) fn planned(row: &mut Row<'_>) {
    let read = row.optional();
    let write = row.optional();
    let words = next_words(row);
    let mut source = source(row, read);
    planned_by(row, &words, &mut source, write)
}

/// The plan of words over a source, or why there is none, and what is written. The write of this number fails.
fn planned_by(row: &mut Row<'_>, words: &[String], source: &mut MemorySource, number: Option<u64>) {
    let mut sink = sink(row, number);
    plan_of(row, words, source, &mut sink);
    say_text(row, sink.written())
}

/// The plan of words and a source, or why there is none, and whether anything was read.
fn plan_of(row: &mut Row<'_>, words: &[String], source: &mut MemorySource, sink: &mut MemorySink) {
    let size = source.left().len();
    let planned = serve_plan(row.alloc(), words, source, sink);
    answer_said(row, planned);
    row.say(untouched(source, size))
}

fn answer_said(row: &mut Row<'_>, planned: Result<ServePlan, Status>) {
    match planned {
        Ok(plan) => plan_said(row, &plan),
        Err(status) => row.debug(&status),
    }
}

/// The address and the count of a plan, whether faulty queries are refused, and what is answered to a query at three polls.
fn plan_said(row: &mut Row<'_>, plan: &ServePlan) {
    row.say("serve");
    row.show(&plan.addr.ip);
    row.show(&plan.addr.port);
    row.show(&plan.count);
    row.tell_whether("strict", plan.settings.strict);
    let query = row.copied(b"\x12\x34\x01\x00\x00\x01\x00\x00\x00\x00\x00\x00\x00\x00\x01\x00\x01");
    three_answers(row, &plan.service, query)
}
