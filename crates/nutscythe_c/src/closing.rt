//! A connection that is to be closed, by a command or since the server shuts down.

ghost use Rattle.std.specs.Prelude.{◌≡◌};
ghost use Rattle.nutscythe_c.specs.declared.status.Status.{Status as TheStatus};
ghost use Rattle.nutscythe_c.specs.Calls.{number};
ghost use Rattle.nutscythe_c.specs.Objects.{OfFirst};
ghost use Rattle.nutscythe_c.specs.Streams.{Closed, Closes};

use crate::handle::Handle;
use crate::handle_value::HandleValue;
use crate::status::Status;
use dns_embed::Connection;
use std::alloc::Global;

/// The connection is to be closed. What waits may still be written, and nothing else comes or is taken any more.
#[unsafe(no_mangle)]
pub extern "C" fn nutscythe_raw_connection_close(alloc: Global, connection: &mut [Handle]) -> u32
    ensures { (t : TheStatus) × (result ≡ number t)
        × OfFirst connection.old connection.new (λ h i. Closes h.kept i.kept t) (t ≡ TheStatus.NullPointer) }
{
    close_at(alloc, connection) as u32
}

/// The connection is to be closed, by the status.
fn close_at(alloc: Global, connection: &mut [Handle]) -> Status
    ensures { OfFirst connection.old connection.new (λ h i. Closes h.kept i.kept result) (result ≡ Status.NullPointer) }
{
    let [connection, ..] = connection else {
        return Status::NullPointer;
    };
    let Some(mut kept) = connection.take(alloc) else {
        return Status::NoHandle;
    };
    let status = match &mut *kept {
        HandleValue::Connection(opened) => close(alloc, opened),
        _ => Status::NoHandle,
    };
    connection.put(kept);
    status
}

/// A connection is to be closed: at once, unless frames wait.
fn close(alloc: Global, opened: &mut Connection) -> Status
    ensures { Closed opened.old opened.new result }
{
    opened.close(alloc);
    if opened.queued() == 0 {
        Status::Close
    } else {
        Status::Done
    }
}
