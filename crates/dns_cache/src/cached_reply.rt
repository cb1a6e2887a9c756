//! Replies that are kept.

ghost use Rattle.std.specs.Prelude.{◌≡◌, ◌≤◌, ◌-◌, ◌∷◌, [], ℕ, List, length, IfOk, IsTrue, Ok, is_ok, true};
ghost use Rattle.std.specs.Option.{option_copied};
ghost use Rattle.dns_base.specs.Header.{IsHeader, header_of};
ghost use Rattle.dns_message.specs.declared.question.Question.{Question};
ghost use Rattle.dns_base.specs.Msg.{HasName, IsMessage};
ghost use Rattle.dns_base.specs.Sections.{message_of, questions_of};
ghost use Rattle.dns_base.specs.Wire.{wire};
ghost use Rattle.dns_opt.specs.Reopened.{less_opts};
ghost use Rattle.dns_service.specs.Copied.{copied};
ghost use Rattle.dns_service.specs.LastOpt.{and_opt};
ghost use Rattle.dns_route.specs.ReplyMessage.{reply_message};
ghost use Rattle.dns_cache.specs.Aged.{aged};
ghost use Rattle.dns_cache.specs.AskedCache.{comes_back, fits_frame, has_code, is_whole, kept_reply, may_keep, where_kept};
ghost use Rattle.dns_cache.specs.Keys.{AsksOnce};
ghost use Rattle.dns_cache.specs.Marks.{IsKept, IsListed, MarksOf, marked_size, opt_size};
ghost use Rattle.dns_cache.specs.Ttls.{least_ttl};

use crate::marks::{Mark, least_of, marks_of, start_before};
use dns_base::{
    AdditionalBuilder, ComposeQuestion, Message, OptRcode, QuestionRef, Rcode, Rtype,
    messages_read_back,
};
use dns_opt::{BuildOpt, OptRecord};
use dns_route::{ComposeReply, ReplyMessage, typed_messages_are_copied};
use dns_service::{OutOfMemory, ReplyError, Request};
use std::alloc::Global;
use std::marker::Model;

/// How many octets of records fit beside each question: 65,535 less a header's 12 and the 259 of the longest question.
const SHORT: usize = 65_264;

/// A reply that is kept. Its message is kept as octets, without its OPT record, which lies beside them.
#[derive(Drop)]
pub(crate) struct CachedReply {
    /// The seconds of its request.
    pub(crate) secs: u64,
    /// The least TTL in s of its records.
    pub(crate) least: u32,
    pub(crate) message: Message,
    /// Where the records begin.
    pub(crate) start: usize,
    pub(crate) marks: Vec<Mark>,
    pub(crate) opt: Option<OptRecord>,
}

impl Model for CachedReply {
    ghost use Rattle.std.specs.Prelude.{◌≡◌};
    ghost use Rattle.dns_base.specs.Sections.{message_of};
    ghost use Rattle.dns_service.specs.LastOpt.{and_opt};
    ghost use Rattle.dns_cache.specs.AskedCache.{KeptReply};
    ghost use Rattle.dns_cache.specs.Marks.{IsKept};
    ghost use Rattle.dns_cache.specs.Ttls.{least_ttl};

    ghost Value = { KeptReply };

    ghost view = { λ k. record { secs = k.secs; message = and_opt (message_of k.message) k.opt } };

    ghost invariant = { λ k. IsKept k.message k.start k.marks.items × (k.least ≡ least_ttl (and_opt (message_of k.message) k.opt)) };
}

/// What is kept of a reply to a request, if anything.
pub(crate) fn kept_reply(
    alloc: Global,
    request: &Request<()>,
    reply: &ReplyMessage,
) -> Result<Option<CachedReply>, OutOfMemory>
    requires { AsksOnce request.now.octets }
    ensures { IfOk result (λ k. k ≡ kept_reply request.now reply.now) }
{
    match reply.additional_builder_stream_target(alloc) {
        Ok(built) => kept_message(alloc, request, reply, built),
        Err(ReplyError::Service(_)) => Ok(None),
        Err(ReplyError::OutOfMemory) => Err(OutOfMemory),
    }
}

/// What is kept of a message that is built of a reply.
fn kept_message(
    alloc: Global,
    request: &Request<()>,
    reply: &ReplyMessage,
    built: AdditionalBuilder,
) -> Result<Option<CachedReply>, OutOfMemory>
    requires asked { AsksOnce request.now.octets }
    requires message { reply_message reply.now ≡ Ok built.message }
    ensures { IfOk result (λ k. k ≡ where_kept request.now built.message) }
{
    if !is_whole(&built) {
        return Ok(None);
    }
    let marks = marks_of(alloc, &reply.message())?;
    kept_marked(alloc, request, reply, built, marks)
}

/// What is kept of a whole reply whose records are marked: nothing if their least TTL is 0.
fn kept_marked(
    alloc: Global,
    request: &Request<()>,
    reply: &ReplyMessage,
    built: AdditionalBuilder,
    marks: Vec<Mark>,
) -> Result<Option<CachedReply>, OutOfMemory>
    requires asked { AsksOnce request.now.octets }
    requires message { reply_message reply.now ≡ Ok built.message }
    requires whole { IsTrue (is_whole built.message) }
    requires marked { MarksOf (copied reply.now.octets) marks.items }
    ensures { IfOk result (λ k. k ≡ where_kept request.now built.message) }
{
    let least = least_of(marks.as_slice());
    if least == 0 {
        return Ok(None);
    }
    let opt = own_opt(alloc, reply.opt())?;
    messages_read_back();
    typed_messages_are_copied();
    Ok(kept_where(
        request,
        CachedReply::of(request.received_secs(), least, bare(built), marks, opt),
    ))
}

/// A kept reply, if its message comes back at age 0.
fn kept_where(request: &Request<()>, kept: CachedReply) -> Option<CachedReply>
    requires asked { AsksOnce request.now.octets }
    requires secs { kept.secs ≡ request.now.received_secs }
    requires message { IsTrue (may_keep kept.message) }
    ensures { result ≡ where_kept request.now kept.message }
{
    if fits_request(&kept, request) {
        return Some(kept);
    }
    None
}

/// Whether the message of a kept reply comes back at age 0.
fn fits_request(kept: &CachedReply, request: &Request<()>) -> bool
    requires { AsksOnce request.now.octets }
    ensures { result ≡ comes_back (aged kept.now.message request.now.octets 0) }
{
    let _octets = request.message().header().octets();
    match request.message().first_question() {
        Some(question) => kept.fits(&question),
        None => false,
    }
}

/// A message as octets, without its OPT records.
fn bare(built: AdditionalBuilder) -> Message
    ensures value { result ≡ wire (less_opts built).message }
    ensures lawful { IsMessage (less_opts built).message }
    ensures short { length result ≤ 65535 }
{
    let mut built = built;
    built.remove_type(Rtype::OPT);
    let _octets = built.as_slice();
    built.into_message()
}

/// A copy of a reply's OPT record, if it has one.
pub(crate) fn own_opt(
    alloc: Global,
    opt: Option<&OptRecord>,
) -> Result<Option<OptRecord>, OutOfMemory>
    ensures { IfOk result (λ o. o ≡ option_copied opt.entry) }
{
    match opt {
        Some(record) => Ok(Some(record.for_slice().to_owned(alloc)?)),
        None => Ok(None),
    }
}

/// Whether a message has a response code that is kept, and isn't truncated.
fn is_whole(built: &AdditionalBuilder) -> bool
    ensures { result ≡ is_whole built.now.message }
{
    !built.header().tc && has_code(built)
}

/// Whether a message's response code is NOERROR or NXDOMAIN.
fn has_code(built: &AdditionalBuilder) -> bool
    ensures { result ≡ has_code built.now.message }
{
    let header = built.header();
    match built.opt_record() {
        Some(record) => {
            let code = record.rcode(header);
            code == OptRcode::NOERROR || code == OptRcode::NXDOMAIN
        }
        None => header.rcode == Rcode::NOERROR || header.rcode == Rcode::NXDOMAIN,
    }
}

impl CachedReply {
    /// A reply that is kept at a moment, of a message without OPT records and its marks.
    fn of(
        secs: u64,
        least: u32,
        message: Message,
        marks: Vec<Mark>,
        opt: Option<OptRecord>,
    ) -> CachedReply
        requires kept { IsKept message (length message - marked_size marks.items) marks.items }
        requires least { least ≡ least_ttl (and_opt (message_of message) opt) }
        ensures { result ≡ record { secs = secs; message = and_opt (message_of message) opt } }
    {
        let start = start_before(marks.as_slice(), message.as_slice().len());
        CachedReply {
            secs,
            least,
            message,
            start,
            marks,
            opt,
        }
    }

    /// How many octets the message takes with a question in place of its own, at any age.
    fn size_with(&self, question: &QuestionRef<'_>) -> usize
        ensures { (request : List ℕ) (age : ℕ) → (questions_of request).0 ≡ question.now ∷ []
            → result ≡ length (wire (aged self.now.message request age)) }
    {
        let records = self.message.as_slice().len() - self.start;
        12 + question.compose_len() + records + opt_size(&self.opt)
    }

    /// Whether its records are so few that the message fits with each question, at any age.
    fn is_short(&self) -> bool
        ensures fits { result ≡ true → (question : Question) (request : List ℕ) (age : ℕ) → HasName question
            → (questions_of request).0 ≡ question ∷ [] → fits_frame (aged self.now.message request age) ≡ true }
        ensures readable { (question : Question) (request : List ℕ) (age : ℕ) → HasName question → (questions_of request).0 ≡ question ∷ []
            → IsHeader (header_of request) → is_ok (copied (wire (aged self.now.message request age))) ≡ true }
    {
        let records = self.message.as_slice().len() - self.start;
        records + opt_size(&self.opt) <= SHORT
    }

    /// Whether the message fits with a question in place of its own, at any age.
    pub(crate) fn fits(&self, question: &QuestionRef<'_>) -> bool
        ensures fits { (request : List ℕ) (age : ℕ) → (questions_of request).0 ≡ question.now ∷ []
            → result ≡ fits_frame (aged self.now.message request age) }
        ensures readable { (request : List ℕ) (age : ℕ) → (questions_of request).0 ≡ question.now ∷ []
            → IsHeader (header_of request) → is_ok (copied (wire (aged self.now.message request age))) ≡ true }
    {
        let _labels = question.qname().labels();
        if self.is_short() {
            return true;
        }
        self.size_with(question) <= 65535
    }
}

/// How many octets an OPT record has, if there is one (RFC 6891, section 6.1.2).
fn opt_size(opt: &Option<OptRecord>) -> usize
    ensures value { result ≡ opt_size opt.now }
    ensures short { result ≤ 65546 }
    ensures listed { IsListed opt.now }
{
    match opt {
        Some(record) => 11 + record.opt().as_slice().len(),
        None => 0,
    }
}
