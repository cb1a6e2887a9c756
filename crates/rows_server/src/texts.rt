//! Lines within a row: `;` stands for LF, `^` for CR and `_` for a space.

use rows_table::{Row, RowError};

/// The octets that all words which are left stand for.
pub(crate) fn next_text(row: &mut Row<'_>) -> Vec<u8> {
    let mut octets = Vec::new(row.alloc());
    for octet in row.all_words().bytes() {
        row.keep(octets.push(match octet {
            b';' => b'\n',
            b'^' => b'\r',
            b'_' => b' ',
            _ => octet,
        }));
    }
    octets
}

/// Octets as a row writes them: spaces stay.
fn text_of(row: &mut Row<'_>, octets: &[u8]) -> String {
    let mut text = String::new(row.alloc());
    for octet in octets {
        row.keep(text.push(match *octet {
            b'\n' => ';',
            b'\r' => '^',
            _ => char::from(*octet),
        }));
    }
    text
}

/// Says octets as lines.
pub(crate) fn say_text(row: &mut Row<'_>, octets: &[u8]) {
    let text = text_of(row, octets);
    row.say(text.as_str());
}

/// Says octets as lines, in brackets after what stands there.
pub(crate) fn say_in_brackets(row: &mut Row<'_>, octets: &[u8]) {
    let text = text_of(row, octets);
    row.close("(");
    row.close(text.as_str());
    row.close(")");
}

/// The words of a command line, which commas part.
pub(crate) fn parted(row: &mut Row<'_>, all: &str) -> Vec<String> {
    let mut words = Vec::new(row.alloc());
    for word in all.split(',') {
        keep_word(row, &mut words, word);
    }
    words
}

/// Puts a word after the others.
pub(crate) fn keep_word(row: &mut Row<'_>, words: &mut Vec<String>, word: &str) {
    match String::from_str(row.alloc(), word) {
        Ok(word) => row.keep(words.push(word)),
        Err(_) => row.fail(RowError::OutOfMemory),
    }
}
