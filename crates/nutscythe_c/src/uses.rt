//! What settings are used for at another handle.

ghost use Rattle.std.specs.Prelude.{◌≡◌};
ghost use Rattle.nutscythe_c.specs.Objects.{OfFirst};
ghost use Rattle.nutscythe_c.specs.Uses.{Uses, UsesBy};

use crate::books::{configure, open_book};
use crate::connections::open;
use crate::handle::Handle;
use crate::handle_value::HandleValue;
use crate::settings::hold_copy;
use crate::status::Status;
use dns_service::Settings;
use std::alloc::Global;

/// What settings are used for at another handle.
#[derive(Clone, Copy)]
pub enum Use {
    /// It holds a copy of them.
    Copy,
    /// It holds a connection of their configuration, opened at this moment in ms.
    Connection(u64),
    /// It holds a book of their configurations.
    Book,
    /// What it holds takes their configurations.
    Configuration,
}

/// Uses settings, by two handles that may not be given.
pub(crate) fn use_at(
    alloc: Global,
    purpose: Use,
    settings: &mut [Handle],
    other: &mut [Handle],
) -> Status
    ensures { OfFirst settings.old settings.new (λ h i. (i.kept ≡ h.kept) × OfFirst other.old other.new
        (λ c d. UsesBy purpose h.kept c.kept d.kept result) (result ≡ Status.NullPointer))
        (result ≡ Status.NullPointer × other.new ≡ other.old) }
{
    let [settings, ..] = settings else {
        return Status::NullPointer;
    };
    let [other, ..] = other else {
        return Status::NullPointer;
    };
    use_by(alloc, purpose, settings, other)
}

/// Uses what a handle holds.
fn use_by(alloc: Global, purpose: Use, settings: &mut Handle, other: &mut Handle) -> Status
    ensures kept { settings.new.kept ≡ settings.old.kept }
    ensures used { UsesBy purpose settings.old.kept other.old.kept other.new.kept result }
{
    let Some(kept) = settings.take(alloc) else {
        return Status::NoHandle;
    };
    let status = match &*kept {
        HandleValue::Settings(made) => use_with(alloc, purpose, made, other),
        _ => Status::NoHandle,
    };
    settings.put(kept);
    status
}

/// Uses settings.
fn use_with(alloc: Global, purpose: Use, made: &Settings, other: &mut Handle) -> Status
    ensures { Uses purpose made.now other.old.kept other.new.kept result }
{
    match purpose {
        Use::Copy => hold_copy(alloc, made, other),
        Use::Connection(at) => open(alloc, made, at, other),
        Use::Book => open_book(alloc, made, other),
        Use::Configuration => configure(alloc, made, other),
    }
}
