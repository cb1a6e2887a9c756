//! The notify lines of a script.

use crate::rule_list::RuleList;
use dns_core::NotifyError;
use dns_name::Name;

/// A line that says which verdict the NOTIFY target gives on a zone.
#[derive(Drop)]
pub struct NotifyRule {
    /// The name of the zone.
    pub apex: Name,
    /// How often the verdict is pending.
    pub pends: usize,
    /// The verdict.
    pub verdict: Result<(), NotifyError>,
}

/// The notify lines of a script, in order.
pub type NotifyRules = RuleList<NotifyRule>;
