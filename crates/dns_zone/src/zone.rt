//! A zone: what a name server answers of a list of records.

ghost use Rattle.std.specs.Prelude.{◌≡◌, ◌∷◌, [], length, map, IfOk};
ghost use Rattle.std.specs.List.{filter};
ghost use Rattle.dns_zone.specs.Owned.{AreLawful, is_of};
ghost use Rattle.dns_zone.specs.Paths.{name_path};
ghost use Rattle.dns_zone.specs.ZoneReply.{negative_soa};
ghost use Rattle.dns_zone.specs.ZoneErrors.{Makes, zone_error};
ghost use Rattle.dns_zone.specs.ZoneTurns.{TurnsTo, zone_turn};

use crate::check::checked;
use crate::error::ZoneError;
use crate::listing::negative_of;
use crate::name_places::NamePlaces;
use crate::path::path_of_name;
use dns_base::Record;
use dns_name::Name;
use dns_route::{SingleService, Turned};
use dns_service::{OutOfMemory, Polled, ReplyError, Request};
use std::alloc::Global;
use std::marker::Model;

/// Answers from a list of records with authority (RFC 1034, section 4.3.2), and is never pending. Contracts see the apex and
/// the records in order. The places of the records are kept by name and type, so that no turn looks at records that it
/// doesn't give.
#[derive(Drop)]
pub struct Zone {
    pub(crate) apex: Name,
    /// The path of the apex.
    pub(crate) path: Vec<u8>,
    pub(crate) records: Vec<Record>,
    pub(crate) names: NamePlaces,
    pub(crate) negative: Record,
}

impl Model for Zone {
    ghost use Rattle.dns_zone.specs.Owned.{ZoneState};
    ghost use Rattle.dns_zone.specs.ZoneIndex.{IsZone};

    ghost Value = { ZoneState };

    ghost view = { λ z. record { apex = z.apex; records = z.records.items } };

    ghost invariant = { λ z. IsZone z.apex z.path.items z.records.items z.names z.negative };
}

impl Zone {
    /// The zone that begins at the apex and has these records. Refused for the first of the causes in the order of
    /// `ZoneError`, whose places are those of the list.
    pub fn new(alloc: Global, apex: Name, records: Vec<Record>) -> Result<Zone, ZoneError>
        requires { AreLawful records.items }
        ensures { Makes (zone_error apex records.items) (record { apex = apex; records = records.items }) result }
    {
        match checked(alloc, &apex, records.as_slice()) {
            Ok(names) => match kept_beside(alloc, &apex, records.as_slice()) {
                Ok((path, negative)) => Ok(Zone {
                    apex,
                    path,
                    records,
                    names,
                    negative,
                }),
                Err(_) => Err(ZoneError::OutOfMemory),
            },
            Err(error) => Err(error),
        }
    }
}

/// The path of the apex, and the one SOA record as it is in a negative answer.
fn kept_beside(
    alloc: Global,
    apex: &Name,
    records: &[Record],
) -> Result<(Vec<u8>, Record), OutOfMemory>
    requires { length (filter (is_of 6) records.now) ≡ 1 }
    ensures path { IfOk result (λ p. p.0.items ≡ name_path apex.now) }
    ensures negative { IfOk result (λ p. map negative_soa (filter (is_of 6) records.now) ≡ p.1 ∷ []) }
{
    let path = path_of_name(alloc, apex)?;
    let negative = negative_of(alloc, records)?;
    Ok((path, negative))
}

impl SingleService for Zone {
    ghost answer = { zone_turn };

    /// The error is FormatError if there is no readable first question, and NotImplemented for an opcode other than QUERY. It is
    /// Refused for a class other than IN and for a name outside the zone. It is InternalError if the reply doesn't fit 65,535
    /// octets. What is built of a reply is the message of the zone's reply.
    fn turn(&self, alloc: Global, request: &Request<()>, _k: u64) -> Result<Turned, OutOfMemory>
        ensures answer { IfOk result (λ p. p ≡ zone_turn self.now request.now _k) }
        ensures built { IfOk result (TurnsTo self.now request.now.octets) }
    {
        match self.answer(alloc, request.message()) {
            Ok(reply) => Ok(Polled::Ready(Ok(reply))),
            Err(ReplyError::Service(error)) => Ok(Polled::Ready(Err(error))),
            Err(ReplyError::OutOfMemory) => Err(OutOfMemory),
        }
    }
}
