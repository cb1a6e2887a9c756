//! The book of a server's slots for connections, and other configurations for what is open.

ghost use Rattle.std.specs.Prelude.{◌≡◌};
ghost use Rattle.nutscythe_c.specs.declared.status.Status.{Status as TheStatus};
ghost use Rattle.nutscythe_c.specs.Books.{Calls, Configures, OpensBook, book_status, call_of};
ghost use Rattle.nutscythe_c.specs.Calls.{number};
ghost use Rattle.nutscythe_c.specs.Objects.{OfFirst};
ghost use Rattle.nutscythe_c.specs.Uses.{UsesBy};

use crate::handle::Handle;
use crate::handle_value::HandleValue;
use crate::status::Status;
use crate::uses::{Use, use_at};
use dns_admission::{Admission, BookState, Call, Reply};
use dns_service::Settings;
use std::alloc::Global;

/// Opens a book of the configurations in settings, of which no slot is taken. The handle holds it from then on.
#[unsafe(no_mangle)]
pub extern "C" fn nutscythe_raw_book_open(
    alloc: Global,
    settings: &mut [Handle],
    book: &mut [Handle],
) -> u32
    ensures { (t : TheStatus) × (result ≡ number t)
        × OfFirst settings.old settings.new (λ h i. (i.kept ≡ h.kept) × OfFirst book.old book.new
        (λ b c. UsesBy Use.Book h.kept b.kept c.kept t) (t ≡ TheStatus.NullPointer)) (t ≡ TheStatus.NullPointer × book.new ≡ book.old) }
{
    use_at(alloc, Use::Book, settings, book) as u32
}

/// Opens a book of settings.
pub(crate) fn open_book(alloc: Global, made: &Settings, book: &mut Handle) -> Status
    ensures { OpensBook made.now book.old.kept book.new.kept result }
{
    match book.hold(
        alloc,
        HandleValue::Book(BookState::new(made.dgram, made.stream)),
    ) {
        Ok(()) => Status::Done,
        Err(_) => Status::NoMemory,
    }
}

/// The call of a number: 0 asks for a slot, 1 gives one back, 2 shuts the server down.
fn call_of(number: u32) -> Option<Call>
    ensures { result ≡ call_of number }
{
    match number {
        0 => Some(Call::Admit),
        1 => Some(Call::Release),
        2 => Some(Call::Shutdown),
        _ => None,
    }
}

/// What a book tells.
fn book_status(reply: Reply) -> Status
    ensures { result ≡ book_status reply }
{
    match reply {
        Reply::Admission(Admission::Full { accepted, .. }) => {
            if accepted {
                Status::Close
            } else {
                Status::Dropped
            }
        }
        Reply::Admission(Admission::Closed) => Status::Nothing,
        Reply::Version(Err(_)) => Status::OutOfRange,
        _ => Status::Done,
    }
}

/// Asks a book for a slot (0), gives one back (1), or shuts the server down (2).
#[unsafe(no_mangle)]
pub extern "C" fn nutscythe_raw_book_call(alloc: Global, book: &mut [Handle], call: u32) -> u32
    ensures { (t : TheStatus) × (result ≡ number t)
        × OfFirst book.old book.new (λ h i. Calls (call_of call) h.kept i.kept t) (t ≡ TheStatus.NullPointer) }
{
    call_at(alloc, book, call_of(call)) as u32
}

/// Calls a book, by its status.
fn call_at(alloc: Global, book: &mut [Handle], call: Option<Call>) -> Status
    ensures { OfFirst book.old book.new (λ h i. Calls call h.kept i.kept result) (result ≡ Status.NullPointer) }
{
    let [book, ..] = book else {
        return Status::NullPointer;
    };
    let Some(call) = call else {
        return Status::OutOfRange;
    };
    let Some(mut kept) = book.take(alloc) else {
        return Status::NoHandle;
    };
    let status = match &mut *kept {
        HandleValue::Book(held) => book_status(held.call(&call)),
        _ => Status::NoHandle,
    };
    book.put(kept);
    status
}

/// Lets a connection or a book take the configurations in settings.
#[unsafe(no_mangle)]
pub extern "C" fn nutscythe_raw_configure(
    alloc: Global,
    settings: &mut [Handle],
    handle: &mut [Handle],
) -> u32
    ensures { (t : TheStatus) × (result ≡ number t)
        × OfFirst settings.old settings.new (λ h i. (i.kept ≡ h.kept) × OfFirst handle.old handle.new
        (λ c d. UsesBy Use.Configuration h.kept c.kept d.kept t) (t ≡ TheStatus.NullPointer))
        (t ≡ TheStatus.NullPointer × handle.new ≡ handle.old) }
{
    use_at(alloc, Use::Configuration, settings, handle) as u32
}

/// Lets what a handle holds take the configurations in settings.
pub(crate) fn configure(alloc: Global, made: &Settings, handle: &mut Handle) -> Status
    ensures { Configures made.now handle.old.kept handle.new.kept result }
{
    let Some(mut kept) = handle.take(alloc) else {
        return Status::NoHandle;
    };
    let status = match &mut *kept {
        HandleValue::Connection(opened) => {
            opened.configure(&made.stream.connection_config());
            Status::Done
        }
        HandleValue::Book(held) => book_status(Reply::Version(held.reconfigure(
            made.dgram,
            made.stream,
        ))),
        _ => Status::NoHandle,
    };
    handle.put(kept);
    status
}
