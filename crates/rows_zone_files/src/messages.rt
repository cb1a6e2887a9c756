//! The call of dns_message_text.

use crate::said::said_lines;
use dns_message::MessageRef;
use dns_message_text::write_message;
use rows_table::{Calls, Row, RowError};

/// Calls that write messages.
pub struct Messages;

impl Calls for Messages {
    fn answer(&self, call: &str, row: &mut Row<'_>) -> Result<(), RowError> {
        match call {
            "write_message" => said_message(row),
            _ => return Err(RowError::NoSuchCall),
        }
        Ok(())
    }
}

/// The text of a message, with `|` for LF.
fn said_message(row: &mut Row<'_>) {
    let Ok(message) = MessageRef::from_slice(row.octets()) else {
        return row.fail(RowError::OutOfForm);
    };
    let mut text = Vec::new(row.alloc());
    row.keep(write_message(row.alloc(), &mut text, &message));
    said_lines(row, text.as_slice());
}
