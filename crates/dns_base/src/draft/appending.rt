//! Records in wire form that are added to a draft.

ghost use Rattle.std.specs.Prelude.{◌≡◌, ◌≤◌, ◌<◌, ◌+◌, length, drop};
ghost use Rattle.dns_base.specs.Built.{IsLast, Pushes};
ghost use Rattle.dns_base.specs.Builds.{with_records};
ghost use Rattle.dns_base.specs.Draft.{counted};
ghost use Rattle.dns_base.specs.Sections.{field};

use crate::draft::{Draft, Section, count_place, put_count};
use crate::error::PushError;
use crate::wire_records::WireRecords;
use dns_message::number_at;

/// Counts that many items more at a place of a message that stands after two octets.
fn count_by(octets: &mut Vec<u8>, at: usize, more: usize)
    requires within { at + 3 < length octets.old.items }
    requires few { field at (drop 2 octets.old.items) + more < 65536 }
    ensures message { drop 2 octets.new.items ≡ counted at (field at (drop 2 octets.old.items) + more) (drop 2 octets.old.items) }
    ensures len { length octets.new.items ≡ length octets.old.items }
{
    let count = number_at(&octets.as_slice()[2..], at) as usize + more;
    put_count(octets, at, count as u16);
}

impl Draft {
    /// Adds records in wire form to the last section, by one append.
    pub(crate) fn push_records(
        &mut self,
        section: Section,
        added: &WireRecords,
    ) -> Result<(), PushError>
        requires { IsLast section self.old.message }
        ensures { Pushes self.old self.new (with_records section self.old added.now) result }
    {
        if self.octets.len() - 2 + added.as_slice().len() > self.limit as usize {
            return Err(PushError::ShortBuf);
        }
        self.octets.extend_from_slice(added.as_slice())?;
        count_by(&mut self.octets, count_place(section), added.len());
        let end = self.octets.len() - 2;
        self.starts = self.starts.behind(section, end);
        Ok(())
    }
}
