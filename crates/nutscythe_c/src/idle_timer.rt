//! For how long a connection was idle.

ghost use Rattle.std.specs.Prelude.{◌≡◌, Some};
ghost use Rattle.nutscythe_c.specs.declared.status.Status.{Status as TheStatus};
ghost use Rattle.nutscythe_c.specs.Calls.{number};
ghost use Rattle.nutscythe_c.specs.Objects.{OfFirst};
ghost use Rattle.nutscythe_c.specs.Streams.{Expires, Ticks};

use crate::handle::Handle;
use crate::handle_value::HandleValue;
use crate::status::Status;
use dns_embed::Connection;
use std::alloc::Global;

/// The moment in ms at which the connection was idle for too long; u64::MAX if its timer can't close it.
#[unsafe(no_mangle)]
pub extern "C" fn nutscythe_raw_connection_deadline(
    alloc: Global,
    connection: &mut [Handle],
    now: u64,
    deadline: &mut [u64],
) -> u32
    ensures { (t : TheStatus) × (result ≡ number t)
        × OfFirst connection.old connection.new (λ h i. (i.kept ≡ h.kept) × OfFirst deadline.old deadline.new
        (λ d e. Expires now h.kept d e t) (t ≡ TheStatus.NullPointer)) (t ≡ TheStatus.NullPointer × deadline.new ≡ deadline.old) }
{
    deadline_at(alloc, connection, now, deadline) as u32
}

/// The moment at which the connection was idle for too long, by its status.
fn deadline_at(alloc: Global, connection: &mut [Handle], now: u64, deadline: &mut [u64]) -> Status
    ensures { OfFirst connection.old connection.new (λ h i. (i.kept ≡ h.kept) × OfFirst deadline.old deadline.new
        (λ d e. Expires now h.kept d e result) (result ≡ Status.NullPointer)) (result ≡ Status.NullPointer × deadline.new ≡ deadline.old) }
{
    let [connection, ..] = connection else {
        return Status::NullPointer;
    };
    let [deadline, ..] = deadline else {
        return Status::NullPointer;
    };
    deadline_in(alloc, connection, now, deadline)
}

/// The moment at which what a handle holds was idle for too long.
fn deadline_in(alloc: Global, connection: &mut Handle, now: u64, deadline: &mut u64) -> Status
    ensures kept { connection.new.kept ≡ connection.old.kept }
    ensures deadline { Expires now connection.old.kept deadline.old deadline.new result }
{
    let Some(kept) = connection.take(alloc) else {
        return Status::NoHandle;
    };
    let status = match &*kept {
        HandleValue::Connection(opened) => {
            *deadline = opened.deadline(now);
            Status::Done
        }
        _ => Status::NoHandle,
    };
    connection.put(kept);
    status
}

/// Looks whether the connection was idle for too long by a moment in ms.
#[unsafe(no_mangle)]
pub extern "C" fn nutscythe_raw_connection_tick(
    alloc: Global,
    connection: &mut [Handle],
    now: u64,
) -> u32
    ensures { (t : TheStatus) × (result ≡ number t)
        × OfFirst connection.old connection.new (λ h i. (i.kept ≡ h.kept) × Ticks now h.kept t) (t ≡ TheStatus.NullPointer) }
{
    tick_at(alloc, connection, now) as u32
}

/// Looks at the time, by its status.
fn tick_at(alloc: Global, connection: &mut [Handle], now: u64) -> Status
    ensures { OfFirst connection.old connection.new (λ h i. (i.kept ≡ h.kept) × Ticks now h.kept result) (result ≡ Status.NullPointer) }
{
    let [connection, ..] = connection else {
        return Status::NullPointer;
    };
    let Some(kept) = connection.take(alloc) else {
        return Status::NoHandle;
    };
    let status = match &*kept {
        HandleValue::Connection(opened) => idle(opened, now),
        _ => Status::NoHandle,
    };
    connection.put(kept);
    status
}

/// Whether a connection is to be closed, since it was idle for too long.
fn idle(opened: &Connection, now: u64) -> Status
    ensures { Ticks now (Some (HandleValue.Connection opened.now)) result }
{
    if opened.is_idle(now) {
        Status::Close
    } else {
        Status::Done
    }
}
