//! A script as text.

ghost use Rattle.std.specs.Prelude.{◌≡◌, ◌++◌, IfOk, OnOk, flat_map};
ghost use Rattle.dns_trace.specs.Trace.{event_text, settings_text};
ghost use Rattle.dns_script.specs.ScriptText.{script_text, service_text, target_text};

use crate::notify_rule::NotifyRules;
use crate::script::Script;
use crate::service_lines::ServiceLines;
use crate::service_text::{write_service, write_target};
use dns_name::OutOfMemory;
use dns_service::{Event, Settings};
use dns_trace::{TextWriter, write_event, write_settings};
use std::alloc::Global;

/// The lines of events.
fn write_events(text: &mut TextWriter, events: &[Event]) -> Result<(), OutOfMemory>
    ensures { OnOk result (text.new ≡ text.old ++ flat_map event_text events.now) }
{
    for event in events {
        write_event(text, event)?;
    }
    Ok(())
}

/// The lines of a service, of a target and of events.
fn write_lines(
    alloc: Global,
    text: &mut TextWriter,
    service: &ServiceLines,
    notify_rules: &NotifyRules,
    events: &[Event],
) -> Result<(), OutOfMemory>
    ensures { OnOk result (text.new ≡ text.old
        ++ (service_text service.now ++ (target_text notify_rules.now ++ flat_map event_text events.now))) }
{
    write_service(alloc, text, service)?;
    write_target(text, notify_rules.as_slice())?;
    write_events(text, events)
}

/// The lines of settings, of a service, of a target and of events.
fn whole_text(
    alloc: Global,
    settings: &Settings,
    service: &ServiceLines,
    notify_rules: &NotifyRules,
    events: &[Event],
) -> Result<Vec<u8>, OutOfMemory>
    ensures { IfOk result (λ whole. whole.items
        ≡ settings_text settings.now ++ (service_text service.now ++ (target_text notify_rules.now ++ flat_map event_text events.now))) }
{
    let mut text = TextWriter::new(alloc);
    write_settings(&mut text, settings)?;
    write_lines(alloc, &mut text, service, notify_rules, events)?;
    Ok(text.into_vec())
}

/// The text of a script: a line for each setting, even if it is the default one. Then the lines of the service, the target and the
/// events, each in their order. Words are parted by one space, numbers are in decimal without leading zeros, and digits of octets
/// in lower case. Of a script that was read it is a script again (`a_script_reads_back`). Of one that calls made it need not be: a
/// feedback without an idle timeout, a size above that of a script or a name with other characters is written as it stands.
/// `read_script` may refuse it.
#[tactic(auto, unfolding(crate::specs::ScriptText::script_text))]
pub fn script_text(alloc: Global, script: Script<Event>) -> Result<Vec<u8>, OutOfMemory>
    ensures { IfOk result (λ v. v.items ≡ script_text script) }
{
    let (settings, service, notify_rules, events) = script.into_parts();
    let text = whole_text(alloc, &settings, &service, &notify_rules, events.as_slice());
    drop(service);
    text
}
