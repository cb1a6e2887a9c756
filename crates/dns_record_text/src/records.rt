//! Records, one a line.

ghost use Rattle.std.specs.Prelude.{◌≡◌, ◌++◌, ◌∷◌, IfOk, OnOk};
ghost use Rattle.dns_record_text.specs.RecordText.{class_word, resource_text, zone_text};

use crate::names::push_name;
use crate::octets::{push, push_number_word, push_word};
use crate::rdata::push_data;
use dns_message::Record;
use dns_name::{Class, OutOfMemory};
use std::alloc::Global;

/// Appends a class after a space.
#[tactic(auto, unfolding(crate::specs::RecordText::class_word))]
pub fn push_class(alloc: Global, target: &mut Vec<u8>, class: Class) -> Result<(), OutOfMemory>
    ensures { OnOk result (target.new.items ≡ target.old.items ++ (32 ∷ class_word class)) }
{
    if class.to_int() == 1 {
        return push(target, b" IN");
    }
    let text = format!(in alloc; "{class}")?;
    push_word(target, text.as_bytes())
}

/// Appends the line of a record, as `write_zone` writes it.
#[tactic(auto, using(crate::proofs::Appended::regrouped, crate::proofs::Appended::line_spaced))]
pub fn write_record(
    alloc: Global,
    target: &mut Vec<u8>,
    resource: &Record,
) -> Result<(), OutOfMemory>
    ensures { OnOk result (target.new.items ≡ target.old.items ++ resource_text resource.now) }
{
    push_name(target, &resource.owner)?;
    push_number_word(target, resource.ttl.as_secs() as u64)?;
    push_class(alloc, target, resource.class)?;
    push_data(alloc, target, &resource.rdata)?;
    push(target, b"\n")
}

/// The text of records, one a line.
pub fn write_zone(alloc: Global, records: &[Record]) -> Result<Vec<u8>, OutOfMemory>
    ensures { IfOk result (λ text. text.items ≡ zone_text records.now) }
{
    let mut text = Vec::new(alloc);
    for resource in records {
        write_record(alloc, &mut text, resource)?;
    }
    Ok(text)
}
