//! Rows of transfers that come in.

use dns_base::Message;
use dns_incoming::IncomingTransfer;
use dns_name::Name;
use rows_table::{Calls, Row, RowError};

/// How far a transfer is after messages.
pub(crate) struct Transfers;

impl Calls for Transfers {
    fn answer(&self, call: &str, row: &mut Row<'_>) -> Result<(), RowError> {
        match call {
            "incoming" => incoming(row),
            _ => return Err(RowError::NoSuchCall),
        }
        Ok(())
    }
}

/// How far a transfer is after each of some messages, and how many records came: the identifier that was asked with, the
/// apex, how many records the zone may have, how many messages there are, and the messages.
fn incoming(row: &mut Row<'_>) {
    let id = row.number();
    match Name::from_octets(row.vector()) {
        Ok(apex) => {
            let most: u16 = row.number();
            let mut transfer = IncomingTransfer::new(row.alloc(), id, apex, most as usize);
            let messages: u8 = row.number();
            for _ in 0..messages {
                taken(row, &mut transfer);
            }
            row.show(&transfer.into_records().len())
        }
        Err(_) => row.fail(RowError::OutOfForm),
    }
}

/// How far a transfer is after the message of the next word.
fn taken(row: &mut Row<'_>, transfer: &mut IncomingTransfer) {
    match Message::from_octets(row.vector()) {
        Ok(message) => {
            let done = transfer.take(row.alloc(), &message);
            row.keep(done);
            row.debug(&transfer.status())
        }
        Err(_) => row.fail(RowError::OutOfForm),
    }
}
