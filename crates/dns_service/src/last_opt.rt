//! An OPT record that is built as a message's last.

ghost use Rattle.std.specs.Prelude.{◌≡◌};
ghost use Rattle.std.specs.Option.{option_copied};
ghost use Rattle.dns_base.specs.Built.{with_additional};
ghost use Rattle.dns_base.specs.Builds.{Builds, KeepsLimit};
ghost use Rattle.dns_replies.specs.OptRecords.{opt_record};
ghost use Rattle.dns_service.specs.LastOpt.{and_opt};

use dns_base::{AdditionalBuilder, PushError};
use dns_replies::OptRecord;
use std::alloc::Global;

/// The message with an OPT record as its last, if one is given.
pub(crate) fn opt_built(
    message: AdditionalBuilder,
    alloc: Global,
    opt: Option<&OptRecord>,
) -> Result<AdditionalBuilder, PushError>
    requires { KeepsLimit message }
    ensures { Builds (record message { message = and_opt message.message (option_copied opt.entry) }) result }
{
    match opt {
        Some(opt) => opt_pushed(message, alloc, opt),
        None => Ok(message),
    }
}

/// The message with an OPT record as its last.
fn opt_pushed(
    message: AdditionalBuilder,
    alloc: Global,
    opt: &OptRecord,
) -> Result<AdditionalBuilder, PushError>
    ensures { Builds (with_additional message (opt_record opt.now)) result }
{
    let mut builder = message;
    opt.append_to(alloc, &mut builder)?;
    Ok(builder)
}
