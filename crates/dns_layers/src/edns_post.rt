//! What the EDNS layer makes of a reply (RFC 6891, section 7; RFC 7828, section 3).

ghost use Rattle.std.specs.Prelude.{◌≡◌, Some, true, OnOk};
ghost use Rattle.dns_base.specs.Readers.{resources};
ghost use Rattle.dns_layers.specs.Edns.{and_fitting, edns_by, edns_rule, has_opt, in_kind, keepalive_over, units_of, with_keepalive, with_some_opt};

use crate::rewrite::Rewrite;
use dns_base::{AdditionalBuilder, PushError, RecordIter, Rtype};
use dns_name::{BuildDataError, OutOfMemory};
use dns_opt::{IdleTimeout, OptRecord, TcpKeepalive};
use dns_service::{
    Asked, AskedOpt, TransportSpecificContext, add_edns_option, remove_edns_opt_record,
};
use std::alloc::Global;

/// How the replies to a request are given the OPT record that it asks for.
#[derive(Clone, Copy, Debug)]
pub struct EdnsPost {
    /// Whether the request has an OPT record, which each reply answers with one.
    pub request_has_opt: bool,
    /// The keepalive that each reply gets.
    pub keepalive: Option<IdleTimeout>,
}

impl EdnsPost {
    /// The rule for what is asked over a transport.
    pub fn new(asked: &Asked, transport: &TransportSpecificContext) -> EdnsPost
        ensures { result ≡ edns_rule transport.now asked.now }
    {
        EdnsPost {
            request_has_opt: asked.opt.client_size().is_some(),
            keepalive: keepalive_over(transport, &asked.opt),
        }
    }
}

impl Rewrite for EdnsPost {
    ghost rewriting = { edns_by };

    /// The limit of the reply is cleared.
    fn rewrite(&self, alloc: Global, reply: &mut AdditionalBuilder) -> Result<(), OutOfMemory> {
        reply.clear_push_limit();
        in_kind(alloc, self.request_has_opt, reply)?;
        with_keepalive(alloc, self.keepalive, reply)?;
        with_some_opt(alloc, self.request_has_opt, reply)
    }
}

/// Drops a reply's OPT records, if the request has none.
fn in_kind(alloc: Global, has_opt: bool, reply: &mut AdditionalBuilder) -> Result<(), OutOfMemory>
    ensures { OnOk result (reply.new ≡ record reply.old { message = in_kind has_opt reply.old.message }) }
{
    if has_opt {
        return Ok(());
    }
    remove_edns_opt_record(alloc, reply)
}

/// The keepalive that replies to what is asked get.
fn keepalive_over(transport: &TransportSpecificContext, opt: &AskedOpt) -> Option<IdleTimeout>
    ensures { result ≡ keepalive_over transport.now opt.now }
{
    match transport {
        TransportSpecificContext::Udp(_) => None,
        TransportSpecificContext::NonUdp(context) => {
            if opt.has_item() {
                units_of(context.idle_timeout())
            } else {
                None
            }
        }
    }
}

/// A time in ms as a keepalive holds it.
fn units_of(timeout: Option<u64>) -> Option<IdleTimeout>
    ensures { result ≡ units_of timeout }
{
    match IdleTimeout::try_from_millis(timeout?) {
        Ok(units) => Some(units),
        Err(_) => None,
    }
}

/// Adds a keepalive if there is one and it has room.
fn with_keepalive(
    alloc: Global,
    keepalive: Option<IdleTimeout>,
    reply: &mut AdditionalBuilder,
) -> Result<(), OutOfMemory>
    requires { reply.old.limit ≡ 65535 }
    ensures { OnOk result (reply.new ≡ record reply.old { message = with_keepalive keepalive reply.old.message }) }
{
    let Some(timeout) = keepalive else {
        return Ok(());
    };
    put_keepalive(alloc, timeout, reply)
}

/// Adds a keepalive if it has room.
#[inline(never)]
fn put_keepalive(
    alloc: Global,
    timeout: IdleTimeout,
    reply: &mut AdditionalBuilder,
) -> Result<(), OutOfMemory>
    requires { reply.old.limit ≡ 65535 }
    ensures { OnOk result (reply.new ≡ record reply.old { message = with_keepalive (Some timeout) reply.old.message }) }
{
    match add_edns_option(alloc, reply, &TcpKeepalive::new(Some(timeout))) {
        Err(BuildDataError::OutOfMemory) => Err(OutOfMemory),
        _ => Ok(()),
    }
}

/// Adds an empty OPT record in reply to a request that has one, if the reply has none and it has room.
fn with_some_opt(
    alloc: Global,
    request_has_opt: bool,
    reply: &mut AdditionalBuilder,
) -> Result<(), OutOfMemory>
    requires { reply.old.limit ≡ 65535 }
    ensures { OnOk result (reply.new ≡ record reply.old { message = with_some_opt request_has_opt reply.old.message }) }
{
    if !request_has_opt {
        return Ok(());
    }
    and_some_opt(alloc, reply)
}

/// Adds an empty OPT record if the reply has none and it has room.
#[inline(never)]
fn and_some_opt(alloc: Global, reply: &mut AdditionalBuilder) -> Result<(), OutOfMemory>
    requires { reply.old.limit ≡ 65535 }
    ensures { OnOk result (reply.new ≡ record reply.old { message = with_some_opt true reply.old.message }) }
{
    if has_opt(reply) {
        return Ok(());
    }
    and_fitting(alloc, reply)
}

/// Adds an empty OPT record if it has room.
fn and_fitting(alloc: Global, reply: &mut AdditionalBuilder) -> Result<(), OutOfMemory>
    requires { reply.old.limit ≡ 65535 }
    ensures { OnOk result (reply.new ≡ record reply.old { message = and_fitting reply.old.message }) }
{
    match OptRecord::default(alloc).append_to(alloc, reply) {
        Ok(()) => Ok(()),
        Err(PushError::ShortBuf) => Ok(()),
        Err(PushError::OutOfMemory) => Err(OutOfMemory),
    }
}

/// Whether a message has a record of type OPT.
fn has_opt(message: &AdditionalBuilder) -> bool
    ensures { result ≡ has_opt message.now.message.additional }
{
    any_opt(message.additional_records())
}

/// Whether there is a record of type OPT.
fn any_opt(records: RecordIter<'_>) -> bool
    ensures { result ≡ has_opt (resources records.entry) }
{
    let mut left = records;
    'walk: while let Some(Ok(record)) = left.next() {
        if record.rtype() == Rtype::OPT {
            return true;
        }
    }
    false
}
