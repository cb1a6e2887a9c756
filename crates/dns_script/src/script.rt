//! What a script says.

ghost use Rattle.std.specs.Borrow.{sem};
ghost use Rattle.std.specs.Prelude.{◌≡◌, ◌++◌, ◌∷◌, [], OnErr, OnOk};
ghost use Rattle.dns_trace.specs.Reading.{TakesLine};
ghost use Rattle.dns_script.specs.Plan.{empty_plan, settings_of};
ghost use Rattle.dns_script.specs.Script.{next_setting_line};

use crate::notify_rule::{NotifyRule, NotifyRules};
use crate::rule::Rules;
use crate::service_lines::ServiceLines;
use dns_name::OutOfMemory;
use dns_service::Settings;
use dns_trace::{LineError, Reason, SaidSettings, Setting, Words, read_setting};
use std::alloc::Global;
use std::marker::Model;

/// Why a text is no script.
#[derive(Clone, Copy)]
pub enum ScriptError {
    OutOfMemory,
    /// The first bad line, counted from 1, and why it is refused.
    Refused { line: u64, reason: Reason },
}

/// The settings, the service, the rules of the target, and the events, or the steps.
#[derive(Drop)]
pub struct Script<E> {
    said: SaidSettings,
    service: ServiceLines,
    notify_rules: NotifyRules,
    events: Vec<E>,
}

impl<E> Model for Script<E> {
    ghost use Rattle.dns_script.specs.Plan.{Plan};

    ghost Value = { Plan E };

    ghost view = { λ s. record { said = s.said; service = s.service; notify_rules = s.notify_rules; events = s.events.items } };
}

impl<E: Drop> Script<E> {
    ghost use Rattle.dns_script.specs.Lending.{LendsSettings};

    /// A script that says nothing.
    pub fn new(alloc: Global) -> Script<E>
        ensures { result ≡ empty_plan }
    {
        Script {
            said: SaidSettings::new(alloc),
            service: ServiceLines::Rules(Rules::new(alloc)),
            notify_rules: NotifyRules::new(alloc),
            events: Vec::new(alloc),
        }
    }

    /// What its lines of settings say.
    pub fn settings(&self) -> &SaidSettings
        ensures { result.now ≡ self.now.said }
    {
        &self.said
    }

    /// The settings of the script, to be changed.
    pub fn settings_mut(&mut self) -> &mut SaidSettings
        ensures* writes_back { sem 𝓛 (LendsSettings E.row self.entry result) }
        ensures value { result.now ≡ self.old.said }
    {
        &mut self.said
    }

    /// What is said with the line of this setting more. The first word is not looked at.
    #[tactic(auto, unfolding(crate::specs::Script::next_setting_line))]
    pub(crate) fn take_setting(
        &mut self,
        alloc: Global,
        setting: Setting,
        words: &Words,
    ) -> Result<(), LineError>
        ensures { TakesLine result self.new (next_setting_line setting self.old words.now) }
    {
        let before_events = self.events.is_empty();
        read_setting(alloc, &mut self.said, setting, before_events, words)
    }

    /// The service, which has no rule if nothing else is said.
    pub fn set_service(&mut self, service: ServiceLines)
        ensures { self.new ≡ record self.old { service = service } }
    {
        self.service = service;
    }

    /// One rule of the target more.
    pub fn push_notify_rule(&mut self, rule: NotifyRule) -> Result<(), OutOfMemory>
        ensures ok { OnOk result (self.new ≡ record self.old { notify_rules = self.old.notify_rules ++ rule ∷ [] }) }
        ensures err { OnErr result (self.new ≡ self.old) }
    {
        self.notify_rules.push(rule)
    }

    /// Appends an event to the script, as its last one.
    pub fn push_event(&mut self, event: E) -> Result<(), OutOfMemory>
        ensures ok { OnOk result (self.new ≡ record self.old { events = self.old.events ++ event ∷ [] }) }
        ensures err { OnErr result (self.new ≡ self.old) }
    {
        self.events.push(event)?;
        Ok(())
    }

    /// The events of the script, in the order of its lines.
    pub fn events(&self) -> &[E]
        ensures { result.now ≡ self.now.events }
    {
        self.events.as_slice()
    }

    /// The settings, the service, the rules of the target, and the events.
    pub fn into_parts(self) -> (Settings, ServiceLines, NotifyRules, Vec<E>)
        ensures settings { result.0 ≡ settings_of self }
        ensures service { result.1 ≡ self.service }
        ensures notify_rules { result.2 ≡ self.notify_rules }
        ensures events { result.3.items ≡ self.events }
    {
        let Script {
            said,
            service,
            notify_rules,
            events,
        } = self;
        (said.into_settings(), service, notify_rules, events)
    }
}
