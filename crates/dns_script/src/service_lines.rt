//! The service of a script.

ghost use Rattle.std.specs.Prelude.{◌≡◌};
ghost use Rattle.dns_script.specs.Plan.{rules_of};

use crate::rule::Rules;
use crate::upstream::Upstreams;
use dns_zone::Zone;
use std::alloc::Global;

/// What the service lines of a script say, which are of one kind.
#[derive(Drop)]
pub enum ServiceLines {
    /// Rules, of which the first that fits answers.
    Rules(Rules),
    /// Upstreams, which requests are forwarded to.
    Upstreams(Upstreams),
    /// A zone with its records, which is answered from.
    Zone(Zone),
}

impl ServiceLines {
    /// The rules, if these are the service, and else none.
    pub fn into_rules(self, alloc: Global) -> Rules
        ensures { result ≡ rules_of self }
    {
        match self {
            ServiceLines::Rules(rules) => rules,
            ServiceLines::Upstreams(_) | ServiceLines::Zone(_) => Rules::new(alloc),
        }
    }
}
