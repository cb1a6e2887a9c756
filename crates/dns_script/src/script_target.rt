//! The target of notifications that plays a script.

ghost use Rattle.std.specs.Prelude.{◌≡◌, Result};
ghost use Rattle.dns_layers.specs.declared.notifiable.NotifyError.{NotifyError};
ghost use Rattle.dns_script.specs.Targets.{pending_first, script_verdicts, zone_verdict};

use crate::notify_rule::{NotifyRule, NotifyRules};
use dns_core::{Notifiable, NotifyError, VerdictFuture};
use dns_name::{Class, IpAddr, Name, OutOfMemory, Serial};
use dns_service::Polled;
use std::alloc::Global;

/// Gives the verdicts of a script's notify lines, by the name of the zone.
#[derive(Drop)]
pub struct ScriptTarget {
    rules: NotifyRules,
}

impl ScriptTarget {
    /// The target of these rules.
    pub fn new(rules: NotifyRules) -> Self
        ensures { ⟦<ScriptTarget as Notifiable>⟧.verdict result ≡ script_verdicts rules }
    {
        ScriptTarget { rules }
    }
}

impl Notifiable for ScriptTarget {
    type Future = ScriptVerdict;

    ghost verdict = { λ t. script_verdicts t.rules };

    fn notify_zone_changed(
        &self,
        _alloc: Global,
        _class: Class,
        apex_name: &Name,
        _serial: Option<Serial>,
        _source: IpAddr,
    ) -> Result<ScriptVerdict, OutOfMemory> {
        Ok(verdict_of(self.rules.as_slice(), apex_name))
    }
}

/// The verdict of the first rule for a zone; without one the server isn't authoritative.
fn verdict_of(rules: &[NotifyRule], apex: &Name) -> ScriptVerdict
    ensures { pending_first result.pends result.verdict ≡ zone_verdict rules.now apex.now }
{
    for rule in rules {
        if rule.apex == *apex {
            return ScriptVerdict {
                pends: rule.pends,
                verdict: rule.verdict,
            };
        }
    }
    ScriptVerdict {
        pends: 0,
        verdict: Err(NotifyError::NotAuthForZone),
    }
}

/// A verdict that is pending some times.
#[derive(Clone, Copy)]
pub struct ScriptVerdict {
    pends: usize,
    verdict: Result<(), NotifyError>,
}

impl VerdictFuture for ScriptVerdict {
    ghost verdict = { λ v. pending_first v.pends v.verdict };

    fn poll(&mut self, _alloc: Global) -> Result<Polled<Result<(), NotifyError>>, OutOfMemory> {
        if self.pends > 0 {
            self.pends -= 1;
            return Ok(Polled::Pending);
        }
        Ok(Polled::Ready(self.verdict))
    }
}
