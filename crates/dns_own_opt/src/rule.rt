//! The rule for the OPT records of replies.

ghost use Rattle.std.specs.Prelude.{◌≡◌, true, OnOk};
ghost use Rattle.dns_base.specs.Readers.{resources};
ghost use Rattle.dns_opt.specs.OptRecords.{opt_of};
ghost use Rattle.dns_layers.specs.Edns.{has_opt};
ghost use Rattle.dns_own_opt.specs.OwnOpts.{asks_dnssec, own_opt, own_rule, stated};

use dns_base::{AdditionalBuilder, Message, RecordIter, Rtype};
use dns_layers::Rewrite;
use dns_name::{BuildDataError, OutOfMemory};
use dns_opt::{MessageOpt, OptBuilder, OptRecordRef};
use dns_replies::add_edns_options;
use std::alloc::Global;

/// What the OPT records of the replies to a request state.
#[derive(Clone, Copy, Debug)]
pub struct OwnOpt {
    /// The greatest payload that the server takes over UDP, in octets.
    pub size: u16,
    /// DO: whether the request asks for DNSSEC records.
    pub dnssec_ok: bool,
}

/// Whether an OPT record asks for DNSSEC records.
fn asks_dnssec(opt: &Option<OptRecordRef<'_>>) -> bool
    ensures { result ≡ asks_dnssec opt.now }
{
    match opt {
        Some(opt) => opt.dnssec_ok(),
        None => false,
    }
}

impl OwnOpt {
    /// The rule for the replies to a request, by a server of this size.
    pub fn new(size: u16, request: &Message) -> OwnOpt
        ensures { result ≡ own_rule size request.now }
    {
        let opt = request.opt();
        OwnOpt {
            size,
            dnssec_ok: asks_dnssec(&opt),
        }
    }
}

impl Rewrite for OwnOpt {
    ghost rewriting = { own_opt };

    /// The limit of the reply is cleared.
    fn rewrite(&self, alloc: Global, reply: &mut AdditionalBuilder) -> Result<(), OutOfMemory> {
        reply.clear_push_limit();
        if has_opt(reply) {
            return state(alloc, *self, reply);
        }
        Ok(())
    }
}

/// States the size and DO in a reply's OPT record.
fn state(alloc: Global, rule: OwnOpt, reply: &mut AdditionalBuilder) -> Result<(), OutOfMemory>
    requires { reply.old.limit ≡ 65535 }
    ensures { OnOk result (reply.new.message ≡ stated rule.size rule.dnssec_ok reply.old.message) }
{
    let size = rule.size;
    let dnssec_ok = rule.dnssec_ok;
    let built = add_edns_options(alloc, reply, |opt: &mut OptBuilder| {
        opt.set_udp_payload_size(size);
        opt.set_dnssec_ok(dnssec_ok);
        Ok(())
    });
    match built {
        Err(BuildDataError::OutOfMemory) => Err(OutOfMemory),
        _ => Ok(()),
    }
}

/// Whether a message has a record of type OPT.
fn has_opt(message: &AdditionalBuilder) -> bool
    ensures { result ≡ has_opt message.now.message.additional }
{
    any_opt(message.additional_records())
}

/// Whether there is a record of type OPT.
fn any_opt(records: RecordIter<'_>) -> bool
    ensures { result ≡ has_opt (resources records.entry) }
{
    let mut left = records;
    'walk: while let Some(Ok(record)) = left.next() {
        if record.rtype() == Rtype::OPT {
            return true;
        }
    }
    false
}
