//! Text for Display.

ghost use Rattle.std.specs.Prelude.{◌≡◌, Some, IfOk};
ghost use Rattle.dns_record_text.specs.RecordText.{resource_text};

use crate::records::write_record;
use dns_message::Record;
use dns_name::OutOfMemory;
use std::alloc::Global;
use std::fmt;
use std::marker::Model;

/// Text in presentation format, which Display writes as it stands. It is ASCII; octets that aren't UTF-8 are a
/// `fmt::Error`.
#[derive(Drop)]
pub struct PresentationText {
    octets: Vec<u8>,
}

impl Model for PresentationText {
    ghost use Rattle.std.specs.Prelude.{ℕ, List};

    ghost Value = { List ℕ };

    ghost view = { λ t. t.octets.items };
}

impl PresentationText {
    /// Octets as the text that they are.
    pub fn new(octets: Vec<u8>) -> PresentationText
        ensures { result ≡ octets.items }
    {
        PresentationText { octets }
    }

    /// The line of a record, with its LF, as `write_zone` writes it.
    pub fn of_record(alloc: Global, resource: &Record) -> Result<PresentationText, OutOfMemory>
        ensures { IfOk result (λ t. t ≡ resource_text resource.now) }
    {
        let mut octets = Vec::new(alloc);
        write_record(alloc, &mut octets, resource)?;
        Ok(PresentationText { octets })
    }

    /// The octets of the text.
    pub fn as_octets(&self) -> &[u8]
        ensures { result.now ≡ self.now }
    {
        self.octets.as_slice()
    }
}

impl fmt::Display for PresentationText {
    ghost output = { λ t. Some t };

    fn fmt<W: fmt::Write>(&self, f: &mut fmt::Formatter<W>) -> fmt::Result {
        match str::from_utf8(self.octets.as_slice()) {
            Ok(text) => f.write_str(text),
            Err(_) => Err(fmt::Error),
        }
    }
}
