//! The rule for the identifier of a server.

ghost use Rattle.std.specs.Prelude.{◌≡◌, OnOk};
ghost use Rattle.dns_name.specs.OptData.{list_data};
ghost use Rattle.dns_base.specs.Wire.{wire};
ghost use Rattle.dns_opt.specs.OptData.{for_code};
ghost use Rattle.dns_opt.specs.OptRecords.{opt_of};
ghost use Rattle.dns_reply_options.specs.Carried.{lacks};
ghost use Rattle.dns_reply_options.specs.Nsids.{nsid_by, with_nsid};

use crate::carried::put;
use dns_base::AdditionalBuilder;
use dns_layers::Rewrite;
use dns_name::OutOfMemory;
use dns_opt::{Nsid, opt_of};
use dns_rewriting::RuleOf;
use dns_service::fit;
use std::alloc::Global;

/// How the replies to a request get the identifier of the server.
#[derive(Drop)]
pub struct NsidPost {
    /// The identifier.
    pub nsid: Nsid,
    /// How many octets a reply may take, if that is limited.
    pub limit: Option<u16>,
}

impl Rewrite for NsidPost {
    ghost rewriting = { λ p. nsid_by p.nsid p.limit };

    /// The limit of the reply is cleared.
    fn rewrite(&self, alloc: Global, reply: &mut AdditionalBuilder) -> Result<(), OutOfMemory> {
        reply.clear_push_limit();
        with_nsid(alloc, &self.nsid, reply)?;
        fit(alloc, self.limit, reply)
    }
}

impl RuleOf<Nsid> for NsidPost {
    ghost rewriting_of = { nsid_by };

    fn rule_of(nsid: Nsid, limit: Option<u16>) -> NsidPost {
        NsidPost { nsid, limit }
    }
}

/// Whether a reply has an OPT record without an identifier.
fn lacks_nsid(reply: &AdditionalBuilder) -> bool
    ensures { result ≡ lacks (for_code 3 list_data) (opt_of (wire reply.now.message)) }
{
    match opt_of(&reply.as_message()) {
        Some(opt) => opt.opt().nsid().is_none(),
        None => false,
    }
}

/// Adds the identifier to a reply whose OPT record has none.
fn with_nsid(alloc: Global, nsid: &Nsid, reply: &mut AdditionalBuilder) -> Result<(), OutOfMemory>
    requires { reply.old.limit ≡ 65535 }
    ensures { OnOk result (reply.new.message ≡ with_nsid nsid.now reply.old.message) }
{
    if lacks_nsid(reply) {
        return put(alloc, reply, nsid);
    }
    Ok(())
}
