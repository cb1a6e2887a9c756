//! A message that is read item by item.

ghost use Rattle.std.specs.Prelude.{◌≡◌, ◌≢◌};
ghost use Rattle.nutscythe_c.specs.declared.status.Status.{Status as TheStatus};
ghost use Rattle.nutscythe_c.specs.Calls.{number};
ghost use Rattle.nutscythe_c.specs.Objects.{OfFirst};
ghost use Rattle.nutscythe_c.specs.Readings.{ReadsMessage, Takes, TakesBy, section_number};

use crate::handle::Handle;
use crate::handle_value::HandleValue;
use crate::status::Status;
use dns_embed::{ItemSection, MessageReader, ReadItem};
use std::alloc::Global;

/// Reads a message from its first item on. The handle holds a copy of it from then on.
#[unsafe(no_mangle)]
pub extern "C" fn nutscythe_raw_message_read(
    alloc: Global,
    message: &[u8],
    reader: &mut [Handle],
) -> u32
    ensures { (t : TheStatus) × (result ≡ number t)
        × OfFirst reader.old reader.new (λ h i. ReadsMessage message.now h.kept i.kept t) (t ≡ TheStatus.NullPointer) }
{
    read_at(alloc, message, reader) as u32
}

/// Reads a message, by its status.
fn read_at(alloc: Global, message: &[u8], reader: &mut [Handle]) -> Status
    ensures { OfFirst reader.old reader.new (λ h i. ReadsMessage message.now h.kept i.kept result) (result ≡ Status.NullPointer) }
{
    let [reader, ..] = reader else {
        return Status::NullPointer;
    };
    match MessageReader::new(alloc, message) {
        Ok(Some(begun)) => match reader.hold(alloc, HandleValue::Reader(begun)) {
            Ok(()) => Status::Done,
            Err(_) => Status::NoMemory,
        },
        Ok(None) => Status::Unreadable,
        Err(_) => Status::NoMemory,
    }
}

/// Reads the next item into a buffer, if it fits: a question, or a record of a section, in wire form with names uncompressed.
#[unsafe(no_mangle)]
pub extern "C" fn nutscythe_raw_message_next(
    alloc: Global,
    reader: &mut [Handle],
    item: &mut [u8],
    item_len: &mut [usize],
    section: &mut [u32],
) -> u32
    ensures missing { result ≡ 22 → (reader.new ≡ reader.old) × (item.new ≡ item.old) × (item_len.new ≡ item_len.old)
        × (section.new ≡ section.old) }
    ensures taken { (t : TheStatus) × (result ≡ number t)
        × OfFirst reader.old reader.new (λ h i. OfFirst item_len.old item_len.new (λ n l. OfFirst section.old section.new
        (λ a b. TakesBy h.kept i.kept item.old item.new n l a b t)
        (t ≡ TheStatus.NullPointer)) (t ≡ TheStatus.NullPointer)) (t ≡ TheStatus.NullPointer) }
{
    next_at(alloc, reader, item, item_len, section) as u32
}

/// Reads the next item, by its status.
fn next_at(
    alloc: Global,
    reader: &mut [Handle],
    item: &mut [u8],
    item_len: &mut [usize],
    section: &mut [u32],
) -> Status
    ensures missing { result ≡ Status.NullPointer → (reader.new ≡ reader.old) × (item.new ≡ item.old) × (item_len.new ≡ item_len.old)
        × (section.new ≡ section.old) }
    ensures taken { OfFirst reader.old reader.new (λ h i. OfFirst item_len.old item_len.new (λ n l. OfFirst section.old section.new
        (λ a b. TakesBy h.kept i.kept item.old item.new n l a b result)
        (result ≡ Status.NullPointer)) (result ≡ Status.NullPointer)) (result ≡ Status.NullPointer) }
{
    let [reader, ..] = reader else {
        return Status::NullPointer;
    };
    let [item_len, ..] = item_len else {
        return Status::NullPointer;
    };
    let [section, ..] = section else {
        return Status::NullPointer;
    };
    next_in(alloc, reader, item, item_len, section)
}

/// Reads the next item of the message that a handle holds.
fn next_in(
    alloc: Global,
    reader: &mut Handle,
    item: &mut [u8],
    item_len: &mut usize,
    section: &mut u32,
) -> Status
    ensures given { result ≢ Status.NullPointer }
    ensures taken { TakesBy reader.old.kept reader.new.kept item.old item.new item_len.old item_len.new section.old section.new result }
{
    let Some(mut kept) = reader.take(alloc) else {
        return Status::NoHandle;
    };
    let status = match &mut *kept {
        HandleValue::Reader(held) => next(alloc, held, item, item_len, section),
        _ => Status::NoHandle,
    };
    reader.put(kept);
    status
}

/// Reads the next item of a message.
fn next(
    alloc: Global,
    held: &mut MessageReader,
    item: &mut [u8],
    item_len: &mut usize,
    section: &mut u32,
) -> Status
    ensures given { result ≢ Status.NullPointer }
    ensures taken { Takes held.old held.new item.old item.new item_len.old item_len.new section.old section.new result }
{
    match held.next(alloc, item) {
        Ok(ReadItem::End) => Status::Nothing,
        Ok(ReadItem::Item(place, len)) => {
            *item_len = len;
            *section = section_number(place);
            Status::Done
        }
        Ok(ReadItem::NoRoom(len)) => {
            *item_len = len;
            Status::NoRoom
        }
        Ok(ReadItem::Unreadable) => Status::Unreadable,
        Err(_) => Status::NoMemory,
    }
}

/// The number of a section.
fn section_number(section: ItemSection) -> u32
    ensures { result ≡ section_number section }
{
    match section {
        ItemSection::Question => 0,
        ItemSection::Answer => 1,
        ItemSection::Authority => 2,
        ItemSection::Additional => 3,
    }
}
