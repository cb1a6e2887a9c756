//! Settings from the text of their lines.

ghost use Rattle.std.specs.Prelude.{◌≡◌};
ghost use Rattle.dns_trace.specs.Reading.{TakesLine};
ghost use Rattle.dns_trace.specs.Said.{nothing_said, settings_said};
ghost use Rattle.dns_embed.specs.SettingsText.{ReadsSettings, said_with, settings_in};

use dns_service::Settings;
use dns_trace::{
    LineError, Reason, SaidSettings, TakeLine, TraceError, Words, read_lines, read_setting,
    setting_named,
};
use std::alloc::Global;
use std::marker::Model;

/// What the lines of settings said.
#[derive(Drop)]
struct SettingsReader {
    said: SaidSettings,
}

impl Model for SettingsReader {
    ghost use Rattle.dns_trace.specs.Said.{Said};

    ghost Value = { Said };

    ghost view = { λ r. r.said };
}

impl TakeLine for SettingsReader {
    ghost with_line = { said_with };

    fn take_line(&mut self, alloc: Global, words: &Words) -> Result<(), LineError> {
        match setting_named(words.word(0)) {
            Some(setting) => read_setting(alloc, &mut self.said, setting, true, words),
            None => Err(LineError::Refused(Reason::Word)),
        }
    }
}

/// The settings of a text, or its first bad line and the reason. What no line says is as in new settings.
pub fn read_settings(alloc: Global, text: &[u8]) -> Result<Settings, TraceError>
    ensures { ReadsSettings result (settings_in text.now) }
{
    let mut reader = SettingsReader {
        said: SaidSettings::new(alloc),
    };
    match read_lines(alloc, &mut reader, text) {
        Ok(()) => Ok(reader.said.into_settings()),
        Err(error) => Err(error),
    }
}
