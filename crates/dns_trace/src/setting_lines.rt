//! The lines of settings.

ghost use Rattle.std.specs.Prelude.{◌≡◌, OnErr};
ghost use Rattle.dns_trace.specs.Reading.{TakesLine, unless};
ghost use Rattle.dns_trace.specs.SettingLines.{deny_line, edns_line, first_said, secret_line, setting_line, strict_line};

use crate::budget_line::read_budget;
use crate::dgram_line::read_dgram;
use crate::reason::{LineError, Reason};
use crate::said::SaidSettings;
use crate::setting::Setting;
use crate::stream_line::read_stream;
use crate::values::{addr, secret, yes_no};
use crate::words::Words;
use std::alloc::Global;

/// A refusal for a reason, unless something holds.
pub fn unless(reason: Reason, holds: bool) -> Result<(), Reason>
    ensures { result ≡ unless reason holds }
{
    if holds { Ok(()) } else { Err(reason) }
}

/// What is said once stands before the first event, and isn't said yet.
fn first_said<A>(before_events: bool, said: &Option<A>) -> Result<(), Reason>
    ensures { result ≡ first_said before_events said.now }
{
    unless(Reason::Order, before_events)?;
    unless(Reason::Repeat, said.is_none())
}

/// A line `strict yes|no`.
#[tactic(auto, unfolding(crate::specs::SettingLines::strict_line))]
fn read_strict(said: &mut SaidSettings, before_events: bool, words: &Words) -> Result<(), LineError>
    ensures line { TakesLine result said.new (strict_line before_events said.old words.now) }
    ensures kept { OnErr result (said.new ≡ said.old) }
{
    first_said(before_events, &said.strict())?;
    unless(Reason::Count, words.len() == 2)?;
    let yes = yes_no(words.word(1))?;
    said.set_strict(yes);
    Ok(())
}

/// A line `edns yes|no`.
#[tactic(auto, unfolding(crate::specs::SettingLines::edns_line))]
fn read_edns(said: &mut SaidSettings, before_events: bool, words: &Words) -> Result<(), LineError>
    ensures line { TakesLine result said.new (edns_line before_events said.old words.now) }
    ensures kept { OnErr result (said.new ≡ said.old) }
{
    first_said(before_events, &said.edns())?;
    unless(Reason::Count, words.len() == 2)?;
    let yes = yes_no(words.word(1))?;
    said.set_edns(yes);
    Ok(())
}

/// A line `secret HEX`.
#[tactic(auto, unfolding(crate::specs::SettingLines::secret_line))]
fn read_secret(said: &mut SaidSettings, before_events: bool, words: &Words) -> Result<(), LineError>
    ensures line { TakesLine result said.new (secret_line before_events said.old words.now) }
    ensures kept { OnErr result (said.new ≡ said.old) }
{
    first_said(before_events, &said.secret())?;
    unless(Reason::Count, words.len() == 2)?;
    let octets = secret(words.word(1))?;
    said.set_secret(octets);
    Ok(())
}

/// A line `deny ADDR`.
#[tactic(auto, unfolding(crate::specs::SettingLines::deny_line, crate::specs::SettingLines::denied_of))]
fn read_deny(
    alloc: Global,
    said: &mut SaidSettings,
    before_events: bool,
    words: &Words,
) -> Result<(), LineError>
    ensures line { TakesLine result said.new (deny_line before_events said.old words.now) }
    ensures kept { OnErr result (said.new ≡ said.old) }
{
    unless(Reason::Order, before_events)?;
    unless(Reason::Count, words.len() == 2)?;
    let address = addr(alloc, words.word(1))?;
    said.deny(address)?;
    Ok(())
}

/// What is said with the line of this setting more. The first word is not looked at. After a refusal, and after memory ran out, what
/// was said is as before.
#[tactic(auto, unfolding(crate::specs::SettingLines::first_dgram_line, crate::specs::SettingLines::first_stream_line, crate::specs::SettingLines::first_budget_line))]
pub fn read_setting(
    alloc: Global,
    said: &mut SaidSettings,
    setting: Setting,
    before_events: bool,
    words: &Words,
) -> Result<(), LineError>
    ensures line { TakesLine result said.new (setting_line setting before_events said.old words.now) }
    ensures kept { OnErr result (said.new ≡ said.old) }
{
    match setting {
        Setting::Strict => read_strict(said, before_events, words),
        Setting::Edns => read_edns(said, before_events, words),
        Setting::Secret => read_secret(said, before_events, words),
        Setting::Deny => read_deny(alloc, said, before_events, words),
        Setting::Dgram => {
            first_said(before_events, &said.dgram())?;
            let dgram = read_dgram(words)?;
            said.set_dgram(dgram);
            Ok(())
        }
        Setting::Stream => {
            first_said(before_events, &said.stream())?;
            let stream = read_stream(words)?;
            said.set_stream(stream);
            Ok(())
        }
        Setting::Budget => {
            first_said(before_events, &said.budget())?;
            let budget = read_budget(words)?;
            said.set_budget(budget);
            Ok(())
        }
    }
}
