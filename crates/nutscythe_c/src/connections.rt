//! A connection: octets in, queries out, replies in, frames out.

ghost use Rattle.std.specs.Prelude.{◌≡◌, slice_get};
ghost use Rattle.nutscythe_c.specs.declared.status.Status.{Status as TheStatus};
ghost use Rattle.nutscythe_c.specs.Calls.{number};
ghost use Rattle.nutscythe_c.specs.Objects.{OfFirst};
ghost use Rattle.nutscythe_c.specs.Streams.{Feeds, Fed, Fronts, Given, Gives, Offered, Offers, Opens, Shows, Writes, Wrote, nothing_left};
ghost use Rattle.nutscythe_c.specs.Uses.{UsesBy};

use crate::handle::Handle;
use crate::handle_value::HandleValue;
use crate::status::Status;
use crate::uses::{Use, use_at};
use dns_embed::{Connection, Next, Written, put};
use dns_service::Settings;
use std::alloc::Global;

/// Opens a connection of the configuration in settings, at a moment in ms. The handle holds it from then on.
#[unsafe(no_mangle)]
pub extern "C" fn nutscythe_raw_connection_open(
    alloc: Global,
    settings: &mut [Handle],
    at: u64,
    connection: &mut [Handle],
) -> u32
    ensures { (t : TheStatus) × (result ≡ number t)
        × OfFirst settings.old settings.new (λ h i. (i.kept ≡ h.kept) × OfFirst connection.old connection.new
        (λ c d. UsesBy (Use.Connection at) h.kept c.kept d.kept t) (t ≡ TheStatus.NullPointer))
        (t ≡ TheStatus.NullPointer × connection.new ≡ connection.old) }
{
    use_at(alloc, Use::Connection(at), settings, connection) as u32
}

/// Opens a connection of settings.
pub(crate) fn open(alloc: Global, settings: &Settings, at: u64, connection: &mut Handle) -> Status
    ensures { Opens at settings.now connection.old.kept connection.new.kept result }
{
    let config = settings.stream.connection_config();
    let Ok(opened) = Connection::open(alloc, at, &config) else {
        return Status::NoMemory;
    };
    match connection.hold(alloc, HandleValue::Connection(opened)) {
        Ok(()) => Status::Done,
        Err(_) => Status::NoMemory,
    }
}

/// Octets of the stream came.
#[unsafe(no_mangle)]
pub extern "C" fn nutscythe_raw_connection_feed(
    alloc: Global,
    connection: &mut [Handle],
    octets: &[u8],
) -> u32
    ensures { (t : TheStatus) × (result ≡ number t)
        × OfFirst connection.old connection.new (λ h i. Feeds octets.now h.kept i.kept t) (t ≡ TheStatus.NullPointer) }
{
    feed_at(alloc, connection, octets) as u32
}

/// Octets of the stream came, by the status.
fn feed_at(alloc: Global, connection: &mut [Handle], octets: &[u8]) -> Status
    ensures { OfFirst connection.old connection.new (λ h i. Feeds octets.now h.kept i.kept result) (result ≡ Status.NullPointer) }
{
    let [connection, ..] = connection else {
        return Status::NullPointer;
    };
    let Some(mut kept) = connection.take(alloc) else {
        return Status::NoHandle;
    };
    let status = match &mut *kept {
        HandleValue::Connection(opened) => feed(alloc, opened, octets),
        _ => Status::NoHandle,
    };
    connection.put(kept);
    status
}

/// Octets of a connection's stream came.
fn feed(alloc: Global, opened: &mut Connection, octets: &[u8]) -> Status
    ensures { Fed octets.now opened.old opened.new result }
{
    match opened.feed(alloc, octets) {
        Ok(()) => Status::Done,
        Err(_) => Status::NoMemory,
    }
}

/// Takes the next frame at a moment in ms. A query is written into the buffer, if it fits.
#[unsafe(no_mangle)]
pub extern "C" fn nutscythe_raw_connection_next(
    alloc: Global,
    connection: &mut [Handle],
    at: u64,
    query: &mut [u8],
    query_len: &mut [usize],
) -> u32
    ensures missing { result ≡ 22 → (connection.new ≡ connection.old) × (query.new ≡ query.old) × (query_len.new ≡ query_len.old) }
    ensures taken { (t : TheStatus) × (result ≡ number t)
        × OfFirst connection.old connection.new (λ h i. OfFirst query_len.old query_len.new
        (λ n l. Gives at h.kept i.kept query.old query.new n l t)
        (t ≡ TheStatus.NullPointer)) (t ≡ TheStatus.NullPointer) }
{
    next_at(alloc, connection, at, query, query_len) as u32
}

/// Takes the next frame, by its status.
fn next_at(
    alloc: Global,
    connection: &mut [Handle],
    at: u64,
    query: &mut [u8],
    query_len: &mut [usize],
) -> Status
    ensures missing { result ≡ Status.NullPointer → (connection.new ≡ connection.old) × (query.new ≡ query.old)
        × (query_len.new ≡ query_len.old) }
    ensures taken { OfFirst connection.old connection.new (λ h i. OfFirst query_len.old query_len.new
        (λ n l. Gives at h.kept i.kept query.old query.new n l result)
        (result ≡ Status.NullPointer)) (result ≡ Status.NullPointer) }
{
    let [connection, ..] = connection else {
        return Status::NullPointer;
    };
    let [query_len, ..] = query_len else {
        return Status::NullPointer;
    };
    next_in(alloc, connection, at, query, query_len)
}

/// Takes the next frame of what a handle holds.
fn next_in(
    alloc: Global,
    connection: &mut Handle,
    at: u64,
    query: &mut [u8],
    query_len: &mut usize,
) -> Status
    ensures { Gives at connection.old.kept connection.new.kept query.old query.new query_len.old query_len.new result }
{
    let Some(mut kept) = connection.take(alloc) else {
        return Status::NoHandle;
    };
    let status = match &mut *kept {
        HandleValue::Connection(opened) => next(alloc, opened, at, query, query_len),
        _ => Status::NoHandle,
    };
    connection.put(kept);
    status
}

/// Takes the next frame of a connection.
fn next(
    alloc: Global,
    opened: &mut Connection,
    at: u64,
    query: &mut [u8],
    query_len: &mut usize,
) -> Status
    ensures { Given at opened.old opened.new query.old query.new query_len.old query_len.new result }
{
    match opened.next(alloc, at, query) {
        Ok(Next::Waits) => Status::Nothing,
        Ok(Next::Query(len)) => {
            *query_len = len;
            Status::Done
        }
        Ok(Next::NoRoom(len)) => {
            *query_len = len;
            Status::NoRoom
        }
        Ok(Next::Response) => Status::Response,
        Ok(Next::Short) => Status::Close,
        Err(_) => Status::NoMemory,
    }
}

/// Queues a reply as a frame, at a moment in ms, if the queue and the response budget have room.
#[unsafe(no_mangle)]
pub extern "C" fn nutscythe_raw_connection_offer(
    alloc: Global,
    connection: &mut [Handle],
    at: u64,
    reply: &[u8],
) -> u32
    ensures { (t : TheStatus) × (result ≡ number t)
        × OfFirst connection.old connection.new (λ h i. Offers at reply.now h.kept i.kept t) (t ≡ TheStatus.NullPointer) }
{
    offer_at(alloc, connection, at, reply) as u32
}

/// Queues a reply, by its status.
fn offer_at(alloc: Global, connection: &mut [Handle], at: u64, reply: &[u8]) -> Status
    ensures { OfFirst connection.old connection.new (λ h i. Offers at reply.now h.kept i.kept result) (result ≡ Status.NullPointer) }
{
    let [connection, ..] = connection else {
        return Status::NullPointer;
    };
    let Some(mut kept) = connection.take(alloc) else {
        return Status::NoHandle;
    };
    let status = match &mut *kept {
        HandleValue::Connection(opened) => offer(alloc, opened, at, reply),
        _ => Status::NoHandle,
    };
    connection.put(kept);
    status
}

/// Queues a reply of a connection.
fn offer(alloc: Global, opened: &mut Connection, at: u64, reply: &[u8]) -> Status
    ensures { Offered at reply.now opened.old opened.new result }
{
    if reply.len() > 65535 {
        return Status::TooLong;
    }
    match opened.offer(alloc, at, reply) {
        Ok(true) => Status::Done,
        Ok(false) => Status::Dropped,
        Err(_) => Status::NoMemory,
    }
}

/// Writes the frame that is to be sent next into a buffer, if it fits. It stays queued.
#[unsafe(no_mangle)]
pub extern "C" fn nutscythe_raw_connection_front(
    alloc: Global,
    connection: &mut [Handle],
    frame: &mut [u8],
    frame_len: &mut [usize],
) -> u32
    ensures missing { result ≡ 22 → (connection.new ≡ connection.old) × (frame.new ≡ frame.old) × (frame_len.new ≡ frame_len.old) }
    ensures front { (t : TheStatus) × (result ≡ number t)
        × OfFirst connection.old connection.new (λ h i. (i.kept ≡ h.kept) × OfFirst frame_len.old frame_len.new
        (λ n l. Fronts h.kept frame.old frame.new n l t)
        (t ≡ TheStatus.NullPointer)) (t ≡ TheStatus.NullPointer) }
{
    front_at(alloc, connection, frame, frame_len) as u32
}

/// Writes the frame that is to be sent next, by its status.
fn front_at(
    alloc: Global,
    connection: &mut [Handle],
    frame: &mut [u8],
    frame_len: &mut [usize],
) -> Status
    ensures missing { result ≡ Status.NullPointer → (connection.new ≡ connection.old) × (frame.new ≡ frame.old)
        × (frame_len.new ≡ frame_len.old) }
    ensures front { OfFirst connection.old connection.new (λ h i. (i.kept ≡ h.kept) × OfFirst frame_len.old frame_len.new
        (λ n l. Fronts h.kept frame.old frame.new n l result)
        (result ≡ Status.NullPointer)) (result ≡ Status.NullPointer) }
{
    let [connection, ..] = connection else {
        return Status::NullPointer;
    };
    let [frame_len, ..] = frame_len else {
        return Status::NullPointer;
    };
    front_in(alloc, connection, frame, frame_len)
}

/// Writes the frame that is to be sent next of what a handle holds.
fn front_in(
    alloc: Global,
    connection: &mut Handle,
    frame: &mut [u8],
    frame_len: &mut usize,
) -> Status
    ensures kept { connection.new.kept ≡ connection.old.kept }
    ensures front { Fronts connection.old.kept frame.old frame.new frame_len.old frame_len.new result }
{
    let Some(kept) = connection.take(alloc) else {
        return Status::NoHandle;
    };
    let status = match &*kept {
        HandleValue::Connection(opened) => show(opened, frame, frame_len),
        _ => Status::NoHandle,
    };
    connection.put(kept);
    status
}

/// What is said of a connection of which no frame waits.
fn nothing_left(opened: &Connection) -> Status
    ensures { result ≡ nothing_left opened.now.is_closing }
{
    if opened.is_closing() {
        Status::Close
    } else {
        Status::Nothing
    }
}

/// Writes the frame that is to be sent next of a connection.
fn show(opened: &Connection, frame: &mut [u8], frame_len: &mut usize) -> Status
    ensures { Shows opened.now.is_closing (slice_get opened.now.invoker.queue.items 0) frame.old frame.new frame_len.old
        frame_len.new result }
{
    let Some(octets) = opened.front_frame() else {
        return nothing_left(opened);
    };
    *frame_len = octets.len();
    if put(octets, frame) {
        Status::Done
    } else {
        Status::NoRoom
    }
}

/// The frame that was to be sent next was sent, at a moment in ms, in that many ms.
#[unsafe(no_mangle)]
pub extern "C" fn nutscythe_raw_connection_written(
    alloc: Global,
    connection: &mut [Handle],
    at: u64,
    took: u64,
) -> u32
    ensures { (t : TheStatus) × (result ≡ number t)
        × OfFirst connection.old connection.new (λ h i. Writes at took h.kept i.kept t) (t ≡ TheStatus.NullPointer) }
{
    written_at(alloc, connection, at, took) as u32
}

/// The frame was sent, by its status.
fn written_at(alloc: Global, connection: &mut [Handle], at: u64, took: u64) -> Status
    ensures { OfFirst connection.old connection.new (λ h i. Writes at took h.kept i.kept result) (result ≡ Status.NullPointer) }
{
    let [connection, ..] = connection else {
        return Status::NullPointer;
    };
    let Some(mut kept) = connection.take(alloc) else {
        return Status::NoHandle;
    };
    let status = match &mut *kept {
        HandleValue::Connection(opened) => wrote(opened, at, took),
        _ => Status::NoHandle,
    };
    connection.put(kept);
    status
}

/// The frame of a connection was sent.
fn wrote(opened: &mut Connection, at: u64, took: u64) -> Status
    ensures { Wrote at took opened.old opened.new result }
{
    match opened.written(at, took) {
        Written::Nothing => Status::Nothing,
        Written::Frame => Status::Done,
        Written::TimedOut => Status::Close,
    }
}
