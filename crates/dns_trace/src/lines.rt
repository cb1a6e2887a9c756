//! The lines of a text.

ghost use Rattle.std.specs.Prelude.{◌≡◌, ℕ, ◌<◌, ◌≤◌, ◌∷◌, length, slice_index};
ghost use Rattle.std.specs.Str.Lines.{lines, strip_carriage_return};
ghost use Rattle.dns_trace.specs.Lines.{is_skipped, is_text};

use crate::words::Words;

/// The place of the first LF, or the length.
fn line_end(text: &[u8]) -> usize
    ensures within { result ≤ length text.now }
    ensures before { (k : ℕ) → k < result → slice_index text.now k ≡ 10 → ⊥ }
    ensures found { result < length text.now → slice_index text.now result ≡ 10 }
{
    for (i, octet) in text.iter().enumerate() {
        if *octet == b'\n' {
            return i;
        }
    }
    text.len()
}

/// A line without one CR at its end.
fn without_cr(line: &[u8]) -> &[u8]
    ensures { result.now ≡ strip_carriage_return line.now }
{
    if !line.is_empty() && line[line.len() - 1] == b'\r' {
        return &line[..line.len() - 1];
    }
    line
}

/// The first line of a text, without its LF and one CR before that, and what follows it.
pub fn split_line(text: &[u8]) -> (&[u8], &[u8])
    requires { 0 < length text.now }
    ensures line { lines text.now ≡ result.0.now ∷ lines result.1.now }
    ensures shorter { length result.1.now < length text.now }
{
    let end = line_end(text);
    if end == text.len() {
        return (text, &text[end..]);
    }
    (without_cr(&text[..end]), &text[end + 1..])
}

/// Whether the line of these words is empty or a comment.
pub fn says_nothing(words: &Words) -> bool
    ensures { result ≡ is_skipped words.now }
{
    if words.len() == 0 {
        return true;
    }
    match words.word(0).first() {
        Some(first) => *first == b'#',
        None => false,
    }
}

/// Whether a line has characters from the space to the tilde alone.
pub fn is_text(line: &[u8]) -> bool
    ensures { result ≡ is_text line.now }
{
    for octet in line {
        if *octet < b' ' || *octet > b'~' {
            return false;
        }
    }
    true
}
