//! What is served.

ghost use Rattle.std.specs.Prelude.{◌≡◌, IfOk};
ghost use Rattle.std.specs.Arc.{arc_value};

use crate::layers::{KeyRules, Tally};
use dns_authority::Authority;
use dns_config::Identifier;
use dns_middleware::{Notifiable, Settings};
use dns_name::OutOfMemory;
use dns_opt::Nsid;
use dns_secondary_service::Withholding;
use std::alloc::Global;
use std::sync::Arc;

/// What answers over zones: the authority over zones that were read, in a layer for zones without data, in one more for zones
/// that lost their data since.
pub type ZoneService = Withholding<Arc<Withholding<Authority>>>;

/// What is served: the zones, by settings, with the target of NOTIFY, the identifier of the server, what counts the replies, and
/// the keys.
#[derive(Drop)]
pub struct Offer<N> {
    pub(crate) settings: Settings,
    pub(crate) service: Arc<ZoneService>,
    pub(crate) target: Arc<N>,
    pub(crate) nsid: Option<Nsid>,
    pub(crate) tally: Tally,
    pub(crate) rules: KeyRules,
}

/// The identifier that a configuration says.
fn nsid_of(alloc: Global, identifier: &Option<Identifier>) -> Result<Option<Nsid>, OutOfMemory> {
    match identifier {
        Some(identifier) => {
            let octets = Vec::from_slice(alloc, identifier.octets.as_slice())?;
            Ok(Nsid::from_octets(octets).ok())
        }
        None => Ok(None),
    }
}

impl<N: Notifiable> Offer<N> {
    /// An offer of these, which are shared, and of these keys.
    pub fn new(
        alloc: Global,
        settings: &Settings,
        service: &Arc<ZoneService>,
        target: &Arc<N>,
        identifier: &Option<Identifier>,
        tally: Tally,
        rules: KeyRules,
    ) -> Result<Offer<N>, OutOfMemory>
        ensures settings { IfOk result (λ o. o.settings ≡ settings.now) }
        ensures service { IfOk result (λ o. arc_value o.service ≡ arc_value service.now) }
        ensures target { IfOk result (λ o. arc_value o.target ≡ arc_value target.now) }
        ensures rules { IfOk result (λ o. o.rules ≡ rules) }
    {
        let service = Arc::try_clone(service)?;
        let target = Arc::try_clone(target)?;
        let nsid = nsid_of(alloc, identifier)?;
        let settings = settings.try_clone(alloc)?;
        Ok(Offer {
            settings,
            service,
            target,
            nsid,
            tally,
            rules,
        })
    }
}
