//! Laws of OPT records in messages.

ghost use Rattle.std.specs.Prelude.{◌≡◌};
ghost use Rattle.dns_base.specs.Msg.{IsMessage, Msg};
ghost use Rattle.dns_base.specs.Wire.{wire};
ghost use Rattle.dns_opt.specs.OptRecords.{opt_of};
ghost use Rattle.dns_opt.specs.Reopened.{opt_among};

use dns_base::{messages_read_back, records_stand};

/// The OPT record that a written message is read to have is the first among its additional records.
pub fn opts_read_back()
    ensures { (m : Msg) → IsMessage m → opt_of (wire m) ≡ opt_among m.additional }
{
    messages_read_back();
    records_stand();
}
