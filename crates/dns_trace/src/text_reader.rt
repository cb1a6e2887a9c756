//! A text that is read line by line.

ghost use Rattle.std.specs.Prelude.{◌≡◌, ℕ, List, Result};
ghost use Rattle.std.specs.Str.Lines.{lines};
ghost use Rattle.dns_trace.specs.Reading.{TakesLine};
ghost use Rattle.dns_trace.specs.TextLines.{TakesLines, after_line, after_lines, numbered};
ghost use Rattle.dns_trace.specs.declared.reason.Reason.{Reason as TheReason};

use crate::lines::{is_text, says_nothing, split_line};
use crate::reason::{LineError, Reason};
use crate::words::Words;
use std::alloc::Global;

/// Why a text says nothing.
#[derive(Clone, Copy)]
pub enum TraceError {
    /// The first bad line, counted from 1, and why it is refused.
    Line { line: u64, reason: Reason },
    OutOfMemory,
}

/// What takes the lines of a text, one by one.
pub trait TakeLine: Sized + Drop {
    /// What is said with the line of these words more.
    ghost with_line: { Self → List (List ℕ) → Result Self TheReason };

    /// Takes the line of these words, which says something.
    fn take_line(&mut self, alloc: Global, words: &Words) -> Result<(), LineError>
        ensures { TakesLine result self.new (with_line self.old words.now) };
}

/// Takes one line, if it says something.
#[tactic(auto, unfolding(crate::specs::TextLines::after_words))]
fn after<T: TakeLine>(alloc: Global, taker: &mut T, line: &[u8]) -> Result<(), LineError>
    ensures { TakesLine result taker.new (after_line T.with_line taker.old line.now) }
{
    let words = Words::of(alloc, line)?;
    if says_nothing(&words) {
        return Ok(());
    }
    if !is_text(line) {
        return Err(LineError::Refused(Reason::Text));
    }
    taker.take_line(alloc, &words)
}

/// Takes one line, which has this number.
fn after_numbered<T: TakeLine>(
    alloc: Global,
    taker: &mut T,
    number: u64,
    line: &[u8],
) -> Result<(), TraceError>
    ensures { TakesLines result taker.new (numbered number (after_line T.with_line taker.old line.now)) }
{
    match after(alloc, taker, line) {
        Ok(()) => Ok(()),
        Err(LineError::OutOfMemory) => Err(TraceError::OutOfMemory),
        Err(LineError::Refused(reason)) => Err(TraceError::Line {
            line: number,
            reason,
        }),
    }
}

/// Takes the lines of a text, of which the first is line 1.
#[tactic(auto, using(crate::proofs::Numbered::refused_first))]
pub fn read_lines<T: TakeLine>(alloc: Global, taker: &mut T, text: &[u8]) -> Result<(), TraceError>
    ensures { TakesLines result taker.new (after_lines T.with_line 1 taker.old (lines text.now)) }
{
    let mut rest = text;
    let mut line = 0u64;
    while !rest.is_empty() {
        line += 1;
        let (first, more) = split_line(rest);
        after_numbered(alloc, taker, line, first)?;
        rest = more;
    }
    Ok(())
}
