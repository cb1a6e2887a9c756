//! Zone files that come in pieces.

ghost use Rattle.std.specs.Prelude.{◌≡◌, ◌+◌, ◌≤◌, ◌<◌, ◌^◌, IfOk, OnOk, length};
ghost use Rattle.dns_entries.specs.Reading.{Gives};
ghost use Rattle.dns_zone_file.specs.Pieces.{after_piece, reading_begun, zone_finished};
ghost use Rattle.dns_zone_file.specs.ZoneFile.{AreShaped};

use crate::draft::ZoneDraft;
use crate::read::{closed, step, steps};
use dns_entries::{Scan, ZoneFileError};
use dns_message::Record;
use dns_name::Name;
use std::alloc::Global;
use std::marker::Model;

/// A zone file as far as it came.
#[derive(Drop)]
pub struct ZoneReader {
    scan: Scan,
    draft: ZoneDraft,
}

impl Model for ZoneReader {
    ghost use Rattle.dns_zone_file.specs.Pieces.{ZoneReading};

    ghost Value = { ZoneReading };

    ghost view = { λ z. record { scan = z.scan; draft = z.draft } };
}

impl ZoneReader {
    /// Nothing came yet of a file that is read below an origin.
    pub fn new(alloc: Global, origin: Name) -> ZoneReader
        ensures { result ≡ reading_begun origin }
    {
        ZoneReader {
            scan: Scan::begin(alloc, 1),
            draft: ZoneDraft::new(alloc, origin),
        }
    }

    /// Takes a piece more, which may end anywhere. After a refusal no other piece is to be taken.
    pub fn take(&mut self, alloc: Global, text: &[u8]) -> Result<(), ZoneFileError>
        requires { self.old.scan.line + length text.now < 2 ^ 64 }
        ensures value { Gives (λ u. self.new) result (after_piece self.old text.now) }
        ensures line { OnOk result (self.new.scan.line ≤ self.old.scan.line + length text.now) }
    {
        steps(alloc, &mut self.scan, &mut self.draft, text)
    }

    /// The records, in their order, of all that came.
    #[tactic(auto, unfolding(crate::specs::Pieces::zone_finished))]
    pub fn finish(self, alloc: Global) -> Result<Vec<Record>, ZoneFileError>
        requires { self.scan.line + 1 < 2 ^ 64 }
        ensures value { Gives (λ records. records.items) result (zone_finished self) }
        ensures shaped { IfOk result (λ records. AreShaped records.items) }
    {
        let ZoneReader {
            mut scan,
            mut draft,
        } = self;
        step(alloc, &mut scan, &mut draft, b'\n')?;
        closed(scan.opened)?;
        Ok(draft.into_records())
    }
}
