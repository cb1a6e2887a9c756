//! A zone as it is served.

ghost use Rattle.std.specs.Prelude.{◌≡◌, ◌↔◌, ◌&&◌, IsTrue, IfOk, None, length, option_map, true};
ghost use Rattle.std.specs.Arc.{arc_value};
ghost use Rattle.dns_name.specs.Canonical.{same_name};
ghost use Rattle.dns_route.specs.Routes.{ends_name};
ghost use Rattle.dns_authority.specs.Authorities.{kept_bunches, may_transfer, zone_item};
ghost use Rattle.dns_authority.specs.ServedZones.{sent_by, sent_of, signing_of, tree_of};
ghost use Rattle.dns_transfer.specs.Transfers.{bunched, transfer, transfer_records};

use crate::laws::same_names_are_folded;
use crate::zone_data::{ZoneData, room_over, served_reply};
use dns_base::{Name, QuestionRef};
use dns_networks::{Network, is_in_any};
use dns_route::matches_are_suffixes;
use dns_service::{OutOfMemory, ReplyStream, Request, ServiceResult};
use dns_transfer::{Bunches, Transfer, message_item};
use std::alloc::Global;
use std::marker::Model;
use std::sync::Arc;

/// A zone, the networks to which it may be transferred, and its records in the bunches of a transfer, if there is such a
/// network.
#[derive(Drop)]
pub(crate) struct ServedZone {
    zone: ZoneData,
    allowed: Vec<Network>,
    bunches: Option<Arc<Bunches>>,
}

impl Model for ServedZone {
    ghost use Rattle.std.specs.Prelude.{◌≡◌, option_map};
    ghost use Rattle.std.specs.Arc.{arc_value};
    ghost use Rattle.dns_authority.specs.Authorities.{ServedState, kept_bunches};
    ghost use Rattle.dns_authority.specs.ServedZones.{sent_by, signing_of, tree_of};

    ghost Value = { ServedState };

    ghost view = { λ s. record { zone = tree_of s.zone; signing = signing_of s.zone; allowed = s.allowed.items } };

    ghost invariant = { λ s. option_map arc_value s.bunches ≡ kept_bunches s.allowed.items (sent_by s.zone) };
}

/// The bunches of a transfer of a zone.
fn shared_bunches(alloc: Global, zone: &ZoneData) -> Result<Arc<Bunches>, OutOfMemory>
    ensures { IfOk result (λ b. arc_value b ≡ bunched (transfer_records (sent_by zone.now))) }
{
    let bunches = zone.bunches(alloc)?;
    let shared = Arc::new(alloc, bunches)?;
    Ok(shared)
}

/// The bunches of a transfer of a zone that may be transferred to some network.
fn kept_bunches(
    alloc: Global,
    zone: &ZoneData,
    allowed: &[Network],
) -> Result<Option<Arc<Bunches>>, OutOfMemory>
    ensures { IfOk result (λ b. option_map arc_value b ≡ kept_bunches allowed.now (sent_by zone.now)) }
{
    match allowed.split_first() {
        Some(_) => {
            let bunches = shared_bunches(alloc, zone)?;
            Ok(Some(bunches))
        }
        None => Ok(None),
    }
}

impl ServedZone {
    /// A zone that may be transferred to these networks.
    pub(crate) fn new(
        alloc: Global,
        zone: ZoneData,
        allowed: Vec<Network>,
    ) -> Result<ServedZone, OutOfMemory>
        ensures { IfOk result (λ s. s ≡ record { zone = tree_of zone; signing = signing_of zone; allowed = allowed.items }) }
    {
        let bunches = kept_bunches(alloc, &zone, allowed.as_slice())?;
        Ok(ServedZone {
            zone,
            allowed,
            bunches,
        })
    }

    /// The name at which it begins.
    fn apex(&self) -> &Name
        ensures { result.now ≡ self.now.zone.apex }
    {
        self.zone.tree().apex()
    }

    /// Whether its apex ends the name of a question.
    pub(crate) fn ends(&self, question: &QuestionRef<'_>) -> bool
        ensures { result ≡ ends_name question.now.qname self.now.zone.apex }
    {
        matches_are_suffixes();
        question.qname().ends_with(&self.apex().for_ref())
    }

    /// Whether its apex is the name of a question.
    pub(crate) fn is_named(&self, question: &QuestionRef<'_>) -> bool
        ensures { result ≡ same_name question.now.qname self.now.zone.apex }
    {
        same_names_are_folded();
        question.qname().name_eq(&self.apex().for_ref())
    }

    /// Whether it is transferred for a request and a question.
    pub(crate) fn allows<Meta>(&self, request: &Request<Meta>, question: &QuestionRef<'_>) -> bool
        ensures { result ≡ (same_name question.now.qname self.now.zone.apex && may_transfer self.now.allowed request.now) }
    {
        self.is_named(question) && self.may_transfer(request)
    }

    /// Whether a request may ask for its transfer.
    fn may_transfer<Meta>(&self, request: &Request<Meta>) -> bool
        ensures { result ≡ may_transfer self.now.allowed request.now }
    {
        request.transport_ctx().is_non_udp()
            && is_in_any(self.allowed.as_slice(), request.client_addr().ip)
    }

    /// How many labels its apex has.
    pub(crate) fn labels(&self) -> usize
        ensures { result ≡ length self.now.zone.apex }
    {
        self.apex().label_count() - 1
    }

    /// Its reply to a question, as an item.
    pub(crate) fn reply<Meta>(
        &self,
        alloc: Global,
        request: &Request<Meta>,
        question: &QuestionRef<'_>,
    ) -> Result<ServiceResult, OutOfMemory>
        requires { IsTrue (ends_name question.now.qname self.now.zone.apex) }
        ensures { IfOk result (λ i. i ≡ zone_item request.now question.now self.now) }
    {
        let room = room_over(request.transport_ctx());
        let built = served_reply(&self.zone, alloc, request.message(), question, room);
        message_item(built, None)
    }

    /// Its transfer, for a request that may ask for it.
    pub(crate) fn transfer<Meta>(&self, request: &Request<Meta>) -> Result<Transfer, OutOfMemory>
        requires { may_transfer self.now.allowed request.now ≡ true }
        ensures { IfOk result (λ t. ⟦<Transfer as ReplyStream>⟧.answer t
            ≡ transfer (sent_of self.now.zone self.now.signing) request.now.octets) }
    {
        match &self.bunches {
            Some(bunches) => {
                let bunches = Arc::try_clone(bunches)?;
                let query = Arc::try_clone(request.message())?;
                Ok(Transfer::new(bunches, query))
            }
            None => unreachable!(),
        }
    }
}
