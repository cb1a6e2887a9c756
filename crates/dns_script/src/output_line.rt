//! The lines that are written.

ghost use Rattle.std.specs.Prelude.{◌≡◌, ◌++◌, IfOk, OnOk, codes, decimal, string_bytes};
ghost use Rattle.hex.specs.Hex.{encode_lower};
ghost use Rattle.dns_script.specs.Line.{line_of, refused_line, reason_word, why_word};

use dns_name::{Octets, OutOfMemory};
use dns_service::{Output, Why};
use dns_trace::{Reason, TextWriter};
use std::alloc::Global;

/// Appends the line of an output, with its LF: `datagram CLIENT HEX`, `frame CLIENT HEX`, `closed CLIENT WHY` or
/// `turned CLIENT yes|no`. Digits of octets are in lower case, and a frame has its length in front.
#[tactic(auto, unfolding(crate::specs::Line::line_of))]
pub fn push_line(text: &mut TextWriter, output: &Output) -> Result<(), OutOfMemory>
    ensures { OnOk result (text.new ≡ text.old ++ line_of output.now) }
{
    match output {
        Output::Datagram { client, octets } => push_octets(text, "datagram", *client, octets),
        Output::Frame { client, octets } => push_octets(text, "frame", *client, octets),
        Output::Closed { client, why } => push_words(text, "closed", *client, why_text(*why)),
        Output::TurnedAway { client, accepted } => {
            let answer = if *accepted { "yes" } else { "no" };
            push_words(text, "turned", *client, answer)
        }
    }
}

/// Appends a line of a word, a number and a word.
fn push_words(
    text: &mut TextWriter,
    first: &str,
    number: u64,
    last: &str,
) -> Result<(), OutOfMemory>
    ensures { OnOk result (text.new
        ≡ text.old ++ (first.now ++ (codes " " ++ (decimal number ++ (codes " " ++ (last.now ++ codes "\n")))))) }
{
    text.name(first)?;
    text.number(number)?;
    text.word(last)?;
    text.end_line()
}

/// Appends a line of a word, a number and octets, which are written as two hexadecimal digits each, in lower case.
fn push_octets(
    text: &mut TextWriter,
    first: &str,
    number: u64,
    octets: &Octets,
) -> Result<(), OutOfMemory>
    ensures { OnOk result (text.new
        ≡ text.old ++ (first.now ++ (codes " " ++ (decimal number ++ (codes " " ++ (encode_lower octets.now ++ codes "\n")))))) }
{
    text.name(first)?;
    text.number(number)?;
    text.hex(octets.as_slice())?;
    text.end_line()
}

/// The line of an output, with its LF, as a text of its own. `push_line` appends the line to a text.
#[tactic(auto, unfolding(crate::specs::Line::line_of))]
pub fn line(alloc: Global, output: &Output) -> Result<String, OutOfMemory>
    ensures { IfOk result (λ t. string_bytes t ≡ line_of output.now) }
{
    match output {
        Output::Datagram { client, octets } => octets_line(alloc, "datagram", *client, octets),
        Output::Frame { client, octets } => octets_line(alloc, "frame", *client, octets),
        Output::Closed { client, why } => word_line(alloc, "closed", *client, why_text(*why)),
        Output::TurnedAway { client, accepted } => {
            let answer = if *accepted { "yes" } else { "no" };
            word_line(alloc, "turned", *client, answer)
        }
    }
}

/// A line of a word, a number and a word.
fn word_line(alloc: Global, first: &str, number: u64, last: &str) -> Result<String, OutOfMemory>
    ensures { IfOk result (λ t. string_bytes t ≡ first.now ++ (codes " " ++ (decimal number ++ (codes " " ++ (last.now ++ codes "\n"))))) }
{
    Ok(format!(in alloc; "{first} {number} {last}\n")?)
}

/// A line of a word, a number and octets, which are written as two hexadecimal digits each, in lower case.
fn octets_line(
    alloc: Global,
    first: &str,
    number: u64,
    octets: &Octets,
) -> Result<String, OutOfMemory>
    ensures { IfOk result (λ t. string_bytes t
        ≡ first.now ++ (codes " " ++ (decimal number ++ (codes " " ++ (encode_lower octets.now ++ codes "\n"))))) }
{
    let digits = hex::encode(alloc, octets.as_slice())?;
    word_line(alloc, first, number, digits.as_str())
}

fn why_text(why: Why) -> &'static str
    ensures { result.now ≡ why_word why }
{
    match why {
        Why::Ended => "ended",
        Why::Fault => "fault",
        Why::Short => "short",
        Why::Idle => "idle",
        Why::WriteTimeout => "writetimeout",
        Why::Commanded => "commanded",
        Why::Shutdown => "shutdown",
    }
}

fn reason_text(reason: Reason) -> &'static str
    ensures { result.now ≡ reason_word reason }
{
    match reason {
        Reason::Text => "text",
        Reason::Word => "word",
        Reason::Order => "order",
        Reason::Mix => "mix",
        Reason::Repeat => "repeat",
        Reason::Count => "count",
        Reason::Value => "value",
        Reason::Zone => "zone",
    }
}

/// The line of a refusal, with its LF: `refused LINE REASON`.
#[tactic(auto, unfolding(crate::specs::Line::refused_line))]
pub fn refusal(alloc: Global, number: u64, reason: Reason) -> Result<String, OutOfMemory>
    ensures { IfOk result (λ t. string_bytes t ≡ refused_line number reason) }
{
    word_line(alloc, "refused", number, reason_text(reason))
}
