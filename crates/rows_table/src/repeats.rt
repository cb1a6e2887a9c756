//! Repetitions in a row: `{TEXT*N}` stands for TEXT, N times.

use crate::RowError;

/// Appends a line with its repetitions written out.
pub(crate) fn push_line(text: &mut String, line: &str) -> Result<(), RowError> {
    match line.split_once('{') {
        Some((first, parts)) => {
            text.push_str(first)?;
            for part in parts.split('{') {
                push_part(text, part)?;
            }
            Ok(())
        }
        None => Ok(text.push_str(line)?),
    }
}

/// Appends what a brace opens: a repetition and what is after it.
fn push_part(text: &mut String, part: &str) -> Result<(), RowError> {
    match part.split_once('}') {
        Some((repetition, rest)) => {
            push_repetition(text, repetition)?;
            Ok(text.push_str(rest)?)
        }
        None => Err(RowError::Repetition),
    }
}

/// Appends the text in front of the last `*` as often as the number after it says.
fn push_repetition(text: &mut String, repetition: &str) -> Result<(), RowError> {
    let (piece, times) = repetition.rsplit_once('*').unwrap_or(("", ""));
    match times.parse::<u16>() {
        Ok(times) => {
            for _ in 0..times {
                text.push_str(piece)?;
            }
            Ok(())
        }
        Err(_) => Err(RowError::Repetition),
    }
}
