//! Records that are added to a section of a reply by their places.

ghost use Rattle.std.specs.Prelude.{◌≡◌, ◌∷◌, [], map};
ghost use Rattle.dns_base.specs.declared.draft.Section.{Section};
ghost use Rattle.dns_base.specs.Built.{Built, Pushes, with_record};
ghost use Rattle.dns_base.specs.Builds.{Becomes, Builds, KeepsLimit, unlimited, with_records};
ghost use Rattle.dns_base.specs.Records.{IsLawful, record_of};
ghost use Rattle.dns_zone.specs.Owned.{AreLawful};
ghost use Rattle.dns_zone.specs.Places.{at_places};
ghost use Rattle.dns_zone.specs.ZoneTurns.{zone_begun};

use dns_base::{
    AdditionalBuilder, AnswerBuilder, AuthorityBuilder, Header, Message, MessageBuilder, PushError,
    Rcode, Record,
};
use std::alloc::Global;

/// A message to a section of which records are added.
pub(crate) trait TakesRecords: Drop {
    /// The section.
    ghost section: { Section };

    /// What is built.
    ghost built: { Self → Built };

    /// Adds a record.
    fn add(&mut self, alloc: Global, resource: &Record) -> Result<(), PushError>
        requires { IsLawful resource.now.rdata }
        ensures { Pushes (built self.old) (built self.new) (with_record section (built self.old) (record_of resource.now)) result };
}

impl TakesRecords for AnswerBuilder {
    ghost section = { Section.Answer };

    ghost built = { λ b. b };

    fn add(&mut self, alloc: Global, resource: &Record) -> Result<(), PushError> {
        self.push(alloc, resource)
    }
}

impl TakesRecords for AuthorityBuilder {
    ghost section = { Section.Authority };

    ghost built = { λ b. b };

    fn add(&mut self, alloc: Global, resource: &Record) -> Result<(), PushError> {
        self.push(alloc, resource)
    }
}

impl TakesRecords for AdditionalBuilder {
    ghost section = { Section.Additional };

    ghost built = { λ b. b };

    fn add(&mut self, alloc: Global, resource: &Record) -> Result<(), PushError> {
        self.push(alloc, resource)
    }
}

/// Adds the record at a place, if there is one.
fn add_place<B: TakesRecords>(
    builder: &mut B,
    alloc: Global,
    records: &[Record],
    place: usize,
) -> Result<(), PushError>
    requires lawful { AreLawful records.now }
    requires short { KeepsLimit (B.built builder.old) }
    ensures { Becomes (B.built builder.new) (with_records B.section (B.built builder.old)
        (map record_of (at_places records.now (place ∷ [])))) result }
{
    match records.get(place) {
        Some(record) => builder.add(alloc, record),
        None => Ok(()),
    }
}

/// Adds the records at places, one after another.
pub(crate) fn add_places<B: TakesRecords>(
    builder: &mut B,
    alloc: Global,
    records: &[Record],
    places: &[usize],
) -> Result<(), PushError>
    requires lawful { AreLawful records.now }
    requires short { KeepsLimit (B.built builder.old) }
    ensures { Becomes (B.built builder.new) (with_records B.section (B.built builder.old)
        (map record_of (at_places records.now places.now))) result }
{
    'each: for place in places {
        add_place(builder, alloc, records, *place)?;
    }
    Ok(())
}

/// Begins the reply to a query, with authority or without.
pub fn begin_reply(
    alloc: Global,
    query: &Message,
    rcode: Rcode,
    aa: bool,
) -> Result<AnswerBuilder, PushError>
    ensures { Builds (unlimited (zone_begun query.now rcode aa)) result }
{
    let message = MessageBuilder::new(alloc)?;
    let mut reply = message.start_answer(alloc, query, rcode)?;
    let header = reply.header();
    reply.set_header(Header { aa, ..header });
    let _octets = reply.as_slice();
    Ok(reply)
}
