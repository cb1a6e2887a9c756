//! Truncation of a message that has too many octets.

ghost use Rattle.std.specs.Prelude.{◌≡◌, ◌≤◌, ◌<◌, [], ◌∷◌, ℕ, IfOk, OnOk, OnErr, length};
ghost use Rattle.dns_base.specs.Built.{with_additional, with_question};
ghost use Rattle.dns_base.specs.Msg.{IsMessage, Msg};
ghost use Rattle.dns_base.specs.Readers.{readable_items};
ghost use Rattle.dns_base.specs.Records.{record_of, IsLawful};
ghost use Rattle.dns_base.specs.Replies.{with_copied};
ghost use Rattle.dns_base.specs.Wire.{wire};
ghost use Rattle.dns_replies.specs.Cut.{cut, cut_built, shortened, truncated};
ghost use Rattle.dns_replies.specs.CutSteps.{built_fitting, or_else, where_fitting, Added, AddedEither};
ghost use Rattle.dns_replies.specs.OptIn.{minimal, opt_record_in};

use crate::opt_in::{minimal_ttl, opt_record_in};
use dns_base::{
    AdditionalBuilder, MessageBuilder, PushError, QuestionBuilder, QuestionIter, QuestionRef,
    Record,
};
use dns_name::OutOfMemory;
use std::alloc::Global;

/// Truncates a message that has more than that many octets (RFC 6891, section 7). A message that has no more isn't copied.
#[inline(always)]
pub fn cut(alloc: Global, message: &mut AdditionalBuilder, limit: u16) -> Result<(), OutOfMemory>
    ensures ok { OnOk result (message.new ≡ cut_built limit message.old) }
    ensures err { OnErr result (message.new ≡ message.old) }
{
    if message.as_slice().len() <= limit as usize {
        return Ok(());
    }
    cut_longer(alloc, message, limit)
}

/// Truncates a message that has more than that many octets.
#[inline(never)]
fn cut_longer(alloc: Global, message: &mut AdditionalBuilder, limit: u16) -> Result<(), OutOfMemory>
    requires { limit < length (wire message.old.message) }
    ensures ok { OnOk result (message.new ≡ cut_built limit message.old) }
    ensures err { OnErr result (message.new ≡ message.old) }
{
    let mut shorter = shortened(alloc, message, limit)?;
    shorter.set_push_limit(message.push_limit());
    *message = shorter;
    Ok(())
}

/// The first truncated form that fits, else the last.
fn shortened(
    alloc: Global,
    message: &AdditionalBuilder,
    limit: u16,
) -> Result<AdditionalBuilder, OutOfMemory>
    ensures { IfOk result (λ b. b.message ≡ shortened limit message.now.message (opt_record_in message.now.message)) }
{
    match opt_record_in(alloc, message)? {
        Some(opt) => with_own_opt(alloc, message, opt, limit),
        None => without_opt(alloc, message, limit),
    }
}

/// The questions of a message and this OPT record, or as much of them as `limit` octets have room for.
fn with_own_opt(
    alloc: Global,
    message: &AdditionalBuilder,
    opt: Record,
    limit: u16,
) -> Result<AdditionalBuilder, OutOfMemory>
    requires { IsLawful opt.rdata }
    ensures { IfOk result (λ b. b.message ≡ shortened limit message.now.message (Some (record_of opt))) }
{
    with_opt(alloc, message, &opt, limit)
}

/// The questions, or the header alone.
fn without_opt(
    alloc: Global,
    message: &AdditionalBuilder,
    limit: u16,
) -> Result<AdditionalBuilder, OutOfMemory>
    ensures { IfOk result (λ b. b.message ≡ shortened limit message.now.message None) }
{
    match with_questions(alloc, message, limit)? {
        Some(shorter) => Ok(shorter),
        None => Ok(bare(alloc, message)?.question().additional()),
    }
}

/// The questions and the OPT record, the questions and a minimal one, or a minimal one alone.
fn with_opt(
    alloc: Global,
    message: &AdditionalBuilder,
    opt: &Record,
    limit: u16,
) -> Result<AdditionalBuilder, OutOfMemory>
    requires { IsLawful opt.now.rdata }
    ensures { IfOk result (λ b. b.message ≡ shortened limit message.now.message (Some (record_of opt.now))) }
{
    match with_questions_and_opt(alloc, message, opt, limit)? {
        Some(shorter) => Ok(shorter),
        None => alone(alloc, message, opt),
    }
}

/// The questions and the OPT record, or the questions and a minimal one, if they fit.
#[tactic(auto, using(crate::proofs::CutLaws::neither))]
fn with_questions_and_opt(
    alloc: Global,
    message: &AdditionalBuilder,
    opt: &Record,
    limit: u16,
) -> Result<Option<AdditionalBuilder>, OutOfMemory>
    requires { IsLawful opt.now.rdata }
    ensures { let m = message.now.message in IfOk result
        (λ o. o ≡ or_else (built_fitting limit (truncated m m.questions (record_of opt.now ∷ [])))
        (built_fitting limit (truncated m m.questions (minimal (record_of opt.now) ∷ [])))) }
{
    match with_questions(alloc, message, limit)? {
        Some(shorter) => either_built(alloc, shorter, opt),
        None => Ok(None),
    }
}

/// The message with the OPT record, or with a minimal one, if it has room.
fn either_built(
    alloc: Global,
    message: AdditionalBuilder,
    opt: &Record,
) -> Result<Option<AdditionalBuilder>, OutOfMemory>
    requires { IsLawful opt.now.rdata }
    ensures { let r = record_of opt.now in IfOk result
        (λ o. o ≡ or_else (where_fitting (with_additional message r)) (where_fitting (with_additional message (minimal r)))) }
{
    let mut shorter = message;
    if either_added(alloc, &mut shorter, opt)? {
        Ok(Some(shorter))
    } else {
        Ok(None)
    }
}

/// Adds the OPT record, or a minimal one, if it has room, and says whether one had.
fn either_added(
    alloc: Global,
    message: &mut AdditionalBuilder,
    opt: &Record,
) -> Result<bool, OutOfMemory>
    requires { IsLawful opt.now.rdata }
    ensures { let r = record_of opt.now in IfOk result
        (AddedEither message.new (where_fitting (with_additional message.old r))
        (where_fitting (with_additional message.old (minimal r)))) }
{
    if added(alloc, message, opt)? {
        return Ok(true);
    }
    minimal_added(alloc, message, opt)
}

/// A minimal OPT record alone.
fn alone(
    alloc: Global,
    message: &AdditionalBuilder,
    opt: &Record,
) -> Result<AdditionalBuilder, OutOfMemory>
    ensures { IfOk result (λ b. b.message ≡ truncated message.now.message [] (minimal (record_of opt.now) ∷ [])) }
{
    let mut shorter = bare(alloc, message)?.question().additional();
    minimal_added(alloc, &mut shorter, opt)?;
    Ok(shorter)
}

/// Adds a minimal OPT record if it has room, and says whether it had. It is written as it is added.
#[tactic(auto, unfolding(dns_message::specs::Options::options))]
fn minimal_added(
    alloc: Global,
    message: &mut AdditionalBuilder,
    opt: &Record,
) -> Result<bool, OutOfMemory>
    ensures { IfOk result (Added message.old message.new (with_additional message.old (minimal (record_of opt.now)))) }
{
    let size = opt.class.to_int();
    match message.push_opt(alloc, size, minimal_ttl(opt), &[]) {
        Ok(()) => Ok(true),
        Err(PushError::ShortBuf) => Ok(false),
        Err(PushError::OutOfMemory) => Err(OutOfMemory),
    }
}

/// The header with TC and the questions, if they fit.
fn with_questions(
    alloc: Global,
    message: &AdditionalBuilder,
    limit: u16,
) -> Result<Option<AdditionalBuilder>, OutOfMemory>
    ensures { let m = message.now.message in IfOk result (λ o. o ≡ built_fitting limit (truncated m m.questions [])) }
{
    if limit < 12 {
        return Ok(None);
    }
    let mut questions = opened(alloc, message, limit)?;
    if copy_questions(alloc, &mut questions, message.questions())? {
        Ok(Some(questions.additional()))
    } else {
        Ok(None)
    }
}

/// The header with TC, if that many octets are allowed.
fn opened(
    alloc: Global,
    message: &AdditionalBuilder,
    limit: u16,
) -> Result<QuestionBuilder, OutOfMemory>
    ensures { IfOk result (λ b. b ≡ record { message = truncated message.now.message [] []; limit = limit }) }
{
    let mut shorter = bare(alloc, message)?;
    shorter.set_push_limit(limit as usize);
    Ok(shorter.question())
}

/// The header with TC.
fn bare(alloc: Global, message: &AdditionalBuilder) -> Result<MessageBuilder, OutOfMemory>
    ensures { IfOk result (λ b. b ≡ record { message = truncated message.now.message [] []; limit = 65535 }) }
{
    let mut header = message.header();
    header.set_tc(true);
    let mut builder = MessageBuilder::new(alloc)?;
    builder.set_header(header);
    Ok(builder)
}

/// Adds questions up to the first that has no room, and says whether all had.
fn copy_questions(
    alloc: Global,
    target: &mut QuestionBuilder,
    source: QuestionIter<'_>,
) -> Result<bool, OutOfMemory>
    ensures { IfOk result (λ all. with_copied target.old (readable_items source.entry) ≡ (target.new, all)) }
{
    let mut left = source;
    'walk: while let Some(Ok(question)) = left.next() {
        if !question_added(alloc, target, &question)? {
            return Ok(false);
        }
    }
    Ok(true)
}

/// Adds a question if it has room, and says whether it had.
fn question_added(
    alloc: Global,
    target: &mut QuestionBuilder,
    question: &QuestionRef<'_>,
) -> Result<bool, OutOfMemory>
    ensures { IfOk result (Added target.old target.new (with_question target.old question.now)) }
{
    match target.push_composed(alloc, question) {
        Ok(()) => Ok(true),
        Err(PushError::ShortBuf) => Ok(false),
        Err(PushError::OutOfMemory) => Err(OutOfMemory),
    }
}

/// Adds a record if it has room, and says whether it had.
fn added(
    alloc: Global,
    message: &mut AdditionalBuilder,
    resource: &Record,
) -> Result<bool, OutOfMemory>
    requires { IsLawful resource.now.rdata }
    ensures { IfOk result (Added message.old message.new (with_additional message.old (record_of resource.now))) }
{
    match message.push(alloc, resource) {
        Ok(()) => Ok(true),
        Err(PushError::ShortBuf) => Ok(false),
        Err(PushError::OutOfMemory) => Err(OutOfMemory),
    }
}

/// A message that is cut fits, for each limit from 512 (RFC 1035, section 4.2.1), and can be written and read again.
pub fn cut_fits()
    ensures fits { (n : ℕ) (m : Msg) → 512 ≤ n → length (wire (cut n m)) ≤ n }
    ensures lawful { (n : ℕ) (m : Msg) → IsMessage m → IsMessage (cut n m) }
{}
