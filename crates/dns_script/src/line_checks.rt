//! What is looked at before a line of the service or of the target is read.

ghost use Rattle.std.specs.Prelude.{◌≡◌};
ghost use Rattle.dns_script.specs.Plan.{before_events};

use crate::script::Script;
use dns_trace::{Reason, unless};

/// Such a line stands before the first event.
pub(crate) fn before_events<E: Drop>(script: &Script<E>) -> Result<(), Reason>
    ensures { result ≡ before_events script.now }
{
    unless(Reason::Order, script.events().is_empty())
}
