//! Texts that have names.

ghost use Rattle.std.specs.Prelude.{◌≡◌, ◌++◌, ◌∷◌, ℕ, List, Option, [], MatchOption, None, OnErr, OnOk, Some};
ghost use Rattle.std.specs.Option.{option_copied};
ghost use Rattle.dns_zone_include.specs.Texts.{first_named};

use dns_name::{Octets, OutOfMemory};
use std::alloc::Global;
use std::marker::Model;

/// Texts that zone files may include, each by its name. The names are those that stand after `$INCLUDE`, octet by
/// octet.
pub trait ZoneTexts {
    /// The text of a name, if there is one.
    ghost texts: { Self → List ℕ → Option (List ℕ) };

    /// Looks a text up by its name.
    fn text_named(&self, name: &[u8]) -> Option<&[u8]>
        ensures { MatchOption result (texts self.now name.now ≡ None) (λ text. texts self.now name.now ≡ Some text.now) };
}

/// A text and its name.
#[derive(Drop)]
pub struct ZoneText {
    pub name: Octets,
    pub text: Octets,
}

/// Texts that were read beforehand. Of two of the same name the first counts.
#[derive(Drop)]
pub struct ZoneTextList {
    texts: Vec<ZoneText>,
}

impl Model for ZoneTextList {
    ghost use Rattle.std.specs.Prelude.{List};
    ghost use Rattle.dns_zone_include.specs.declared.texts.ZoneText.{ZoneText};

    ghost Value = { List ZoneText };

    ghost view = { λ l. l.texts.items };
}

impl ZoneTextList {
    /// No text.
    pub fn new(alloc: Global) -> ZoneTextList
        ensures { result ≡ [] }
    {
        ZoneTextList {
            texts: Vec::new(alloc),
        }
    }

    /// One text more.
    pub fn push(&mut self, text: ZoneText) -> Result<(), OutOfMemory>
        ensures value { OnOk result (self.new ≡ self.old ++ text ∷ []) }
        ensures kept { OnErr result (self.new ≡ self.old) }
    {
        self.texts.push(text)?;
        Ok(())
    }
}

/// The first text of this name.
fn first_named<'a>(texts: &'a [ZoneText], name: &[u8]) -> Option<&'a ZoneText>
    ensures { option_copied result ≡ first_named texts.now name.now }
{
    texts.iter().find(|text| text.name.as_slice() == name)
}

impl ZoneTexts for ZoneTextList {
    ghost use Rattle.dns_zone_include.specs.Texts.{text_named};

    ghost texts = { text_named };

    fn text_named(&self, name: &[u8]) -> Option<&[u8]> {
        let found = first_named(self.texts.as_slice(), name)?;
        Some(found.text.as_slice())
    }
}
