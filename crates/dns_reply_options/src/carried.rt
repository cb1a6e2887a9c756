//! What both layers do to replies.

ghost use Rattle.std.specs.Prelude.{◌≡◌, ◌≤◌, ℕ, length, OnOk, Option, Some};
ghost use Rattle.dns_base.specs.Msg.{Msg};
ghost use Rattle.dns_base.specs.Wire.{wire};
ghost use Rattle.dns_replies.specs.WithOption.{with_option};
ghost use Rattle.dns_service.specs.Cut.{sized};
ghost use Rattle.dns_service.specs.Transport.{limit};

use dns_base::AdditionalBuilder;
use dns_name::{BuildDataError, OutOfMemory};
use dns_opt::ComposeOptData;
use dns_service::{add_edns_option, cut_fits};
use std::alloc::Global;

/// Adds an option after those of a reply's OPT record, if it has room.
pub(crate) fn put<D: ComposeOptData>(
    alloc: Global,
    reply: &mut AdditionalBuilder,
    option: &D,
) -> Result<(), OutOfMemory>
    requires { reply.old.limit ≡ 65535 }
    ensures { OnOk result (reply.new.message ≡ with_option reply.old.message (D.code_of option.now) (D.octets option.now)) }
{
    match add_edns_option(alloc, reply, option) {
        Err(BuildDataError::OutOfMemory) => Err(OutOfMemory),
        _ => Ok(()),
    }
}

/// A rewritten reply over UDP has no more octets than the hint allows, and 512 if the hint allows less.
pub fn replies_fit()
    ensures { (hint : Option ℕ) (m : Msg) → length (wire (sized (Some (limit hint)) m)) ≤ limit hint }
{
    cut_fits();
}
