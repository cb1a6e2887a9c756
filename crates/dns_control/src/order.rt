//! Orders, as they are said.

ghost use Rattle.std.specs.Prelude.{◌≡◌, IfOk, IfSome, option_map, vec_items};
ghost use Rattle.dns_control.specs.Orders.{order_in};

use std::alloc::Global;
use std::io::{self, BufRead, BufReader, Read};

/// How many octets the line of an order has at most, its line feed included.
pub const LINE_LIMIT: usize = 16;

/// Reads an order: the octets before the first line feed, if one is among the first `LINE_LIMIT` octets; else there is none.
pub fn read_order<S: Read + Drop>(alloc: Global, stream: S) -> io::Result<Option<Vec<u8>>>
    ensures { IfOk result (λ order. IfSome (S.remaining stream) (λ said. option_map vec_items order ≡ order_in said)) }
{
    let mut line = Vec::new(alloc);
    let said = stream.take(LINE_LIMIT as u64);
    let mut reader = BufReader::with_capacity(alloc, LINE_LIMIT, said)?;
    reader.read_until(b'\n', &mut line)?;
    match line.as_slice().strip_suffix(b"\n".as_slice()) {
        Some(order) => Ok(Some(Vec::from_slice(alloc, order)?)),
        None => Ok(None),
    }
}
