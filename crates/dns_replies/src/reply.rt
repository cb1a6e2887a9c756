//! Helpers for whoever writes replies.

ghost use Rattle.std.specs.Prelude.{◌≡◌, IfOk};
ghost use Rattle.dns_base.specs.Built.{empty};
ghost use Rattle.dns_opt.specs.Drafts.{Appended};
ghost use Rattle.dns_replies.specs.ErrorReply.{code_draft, error_reply, with_code};

use dns_base::{AdditionalBuilder, Message, MessageBuilder};
use dns_name::{BuildDataError, OptRcode, OutOfMemory};
use dns_opt::{BuildOpt, OptBuilder};
use std::alloc::Global;

/// The empty message, which may take 65,535 octets.
pub fn mk_builder_for_target(alloc: Global) -> Result<MessageBuilder, OutOfMemory>
    ensures { IfOk result (λ b. b ≡ record { message = empty; limit = 65535 }) }
{
    MessageBuilder::new(alloc)
}

/// The error reply to a query. An OPT record holds the code's upper eight bits, if it has room.
#[tactic(auto, using(crate::proofs::ErrorReplies::reply_made))]
pub fn mk_error_response(
    alloc: Global,
    query: &Message,
    rcode: OptRcode,
) -> Result<AdditionalBuilder, OutOfMemory>
    ensures { IfOk result (λ b. b ≡ record { message = error_reply query.now rcode; limit = 65535 }) }
{
    let reply = mk_builder_for_target(alloc)?;
    let reply = reply.start_error(alloc, query, rcode.rcode())?;
    with_code(reply.additional(), alloc, rcode)
}

/// The reply with an OPT record that holds the code, if it has room.
fn with_code(
    reply: AdditionalBuilder,
    alloc: Global,
    rcode: OptRcode,
) -> Result<AdditionalBuilder, OutOfMemory>
    ensures { IfOk result (λ b. b ≡ with_code reply rcode) }
{
    let mut reply = reply;
    match put_code(&mut reply, alloc, rcode) {
        Err(BuildDataError::OutOfMemory) => Err(OutOfMemory),
        _ => Ok(reply),
    }
}

/// Appends an OPT record that holds the code.
fn put_code(
    reply: &mut AdditionalBuilder,
    alloc: Global,
    rcode: OptRcode,
) -> Result<(), BuildDataError>
    ensures { Appended (code_draft reply.old rcode) reply.old reply.new result }
{
    reply.opt(alloc, |opt: &mut OptBuilder| {
        opt.set_rcode(rcode);
        Ok(())
    })
}
