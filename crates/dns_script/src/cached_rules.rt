//! A cache in front of a script's rules, and the line of each question that it is asked.

ghost use Rattle.std.specs.Prelude.{◌≡◌, ◌++◌, IfOk, OnErr, OnOk, codes, option_map, string_bytes};
ghost use Rattle.hex.specs.Hex.{encode_lower};
ghost use Rattle.dns_cache.specs.AskedCache.{empty_cache};
ghost use Rattle.dns_cache.specs.Calls.{called};
ghost use Rattle.dns_route.specs.ReplyMessage.{reply_message};
ghost use Rattle.dns_script.specs.CachedRules.{IsAtCall, IsBehindCalls, answer_line, asked_state, call_text, error_line, first_ready, reply_line, request_of_ask, rule_turns, turn_text};
ghost use Rattle.dns_script.specs.Spelled.{spelled_error};

use crate::ask::Ask;
use crate::rule::Rules;
use crate::script_turns::ScriptTurns;
use dns_base::AdditionalBuilder;
use dns_cache::Cache;
use dns_name::OutOfMemory;
use dns_route::{ComposeReply, ReplyMessage, Turned};
use dns_service::{Polled, ReplyError, Request, ServiceError};
use std::alloc::Global;
use std::marker::Model;

/// How often a cache is called of one question, if no call is ready.
const MOST_CALLS: u64 = 1000;

/// A cache in front of the rules of a script. Contracts see the rules and what is cached.
#[derive(Drop)]
pub struct CachedRules {
    turns: ScriptTurns,
    cache: Cache,
}

impl Model for CachedRules {
    ghost use Rattle.dns_script.specs.CachedRules.{CachedState};

    ghost Value = { CachedState };

    ghost view = { λ c. record { rules = c.turns.rules; cached = c.cache } };
}

impl CachedRules {
    /// An empty cache of that many replies at most, from 1 to 65,536, in front of these rules.
    pub fn new(alloc: Global, rules: Rules, capacity: u32) -> Result<CachedRules, OutOfMemory>
        ensures { IfOk result (λ c. c ≡ record { rules = rules; cached = empty_cache capacity }) }
    {
        let cache = Cache::new(alloc, capacity as usize)?;
        let turns = ScriptTurns { rules };
        Ok(CachedRules { turns, cache })
    }

    /// Asks a question, from call 0 on until one is ready, and gives the line: `answer HEX`, `error formerr`, `error servfail`,
    /// `error notimp`, `error refused`, or `pending` after 1,000 calls. After memory ran out the rules are as before, and the cache
    /// is as those of the calls leave it that had memory. So the reply may be kept.
    pub fn ask(&mut self, alloc: Global, ask: Ask) -> Result<String, OutOfMemory>
        ensures line { IfOk result (λ t. string_bytes t ≡ (asked_state self.old ask).line) }
        ensures cached { OnOk result (self.new ≡ record self.old { cached = (asked_state self.old ask).behind }) }
        ensures rules { self.new.rules ≡ self.old.rules }
        ensures err { OnErr result (IsBehindCalls (rule_turns self.old.rules) (request_of_ask ask) self.old.cached self.new.cached) }
    {
        let request = ask.into_request(alloc)?;
        ask_request(alloc, &self.turns, &mut self.cache, &request)
    }
}

/// Asks the question of a request.
fn ask_request(
    alloc: Global,
    turns: &ScriptTurns,
    cache: &mut Cache,
    request: &Request<()>,
) -> Result<String, OutOfMemory>
    ensures line { IfOk result (λ t. string_bytes t ≡ (first_ready (rule_turns turns.now.rules) request.now cache.old).line) }
    ensures cached { OnOk result (cache.new ≡ (first_ready (rule_turns turns.now.rules) request.now cache.old).behind) }
    ensures err { OnErr result (IsBehindCalls (rule_turns turns.now.rules) request.now cache.old cache.new) }
{
    for k in 0..MOST_CALLS {
        if let Some(line) = call(alloc, turns, cache, request, k)? {
            return Ok(line);
        }
    }
    pending_line(alloc)
}

/// `pending`.
fn pending_line(alloc: Global) -> Result<String, OutOfMemory>
    ensures { IfOk result (λ t. string_bytes t ≡ codes "pending\n") }
{
    Ok(String::from_str(alloc, "pending\n")?)
}

/// Call k of a request, and its line if it is ready.
fn call(
    alloc: Global,
    turns: &ScriptTurns,
    cache: &mut Cache,
    request: &Request<()>,
    k: u64,
) -> Result<Option<String>, OutOfMemory>
    ensures line { IfOk result (λ t. option_map string_bytes t
        ≡ call_text (called (rule_turns turns.now.rules) cache.old (record { request = request.now; k = k })).cached
        (rule_turns turns.now.rules request.now k)) }
    ensures cached { OnOk result (cache.new ≡ (called (rule_turns turns.now.rules) cache.old
        (record { request = request.now; k = k })).behind) }
    ensures err { OnErr result (IsAtCall (rule_turns turns.now.rules) request.now k cache.old cache.new) }
{
    let turned = cache.ask(alloc, turns, request, k)?;
    turn_text(alloc, turned)
}

/// The line of a call, if it is ready.
fn turn_text(alloc: Global, turned: Turned) -> Result<Option<String>, OutOfMemory>
    ensures { IfOk result (λ t. option_map string_bytes t ≡ turn_text turned) }
{
    match turned {
        Polled::Pending => Ok(None),
        Polled::Ready(Ok(reply)) => Ok(Some(reply_line(alloc, &reply)?)),
        Polled::Ready(Err(error)) => Ok(Some(error_line(alloc, error)?)),
    }
}

/// The line of a reply, by the message that is built of it.
fn reply_line(alloc: Global, reply: &ReplyMessage) -> Result<String, OutOfMemory>
    ensures { IfOk result (λ t. string_bytes t ≡ reply_line (reply_message reply.now)) }
{
    match reply.additional_builder_stream_target(alloc) {
        Ok(built) => answer_line(alloc, &built),
        Err(ReplyError::Service(error)) => error_line(alloc, error),
        Err(ReplyError::OutOfMemory) => Err(OutOfMemory),
    }
}

/// `answer HEX`.
fn answer_line(alloc: Global, built: &AdditionalBuilder) -> Result<String, OutOfMemory>
    ensures { IfOk result (λ t. string_bytes t ≡ answer_line built.now.message) }
{
    let digits = hex::encode(alloc, built.as_slice())?;
    Ok(format!(in alloc; "answer {digits}\n")?)
}

/// `error formerr`, `error servfail`, `error notimp` or `error refused`.
fn error_line(alloc: Global, error: ServiceError) -> Result<String, OutOfMemory>
    ensures { IfOk result (λ t. string_bytes t ≡ error_line error) }
{
    let word = error_text(error);
    Ok(format!(in alloc; "error {word}\n")?)
}

/// The word of an error.
pub(crate) fn error_text(error: ServiceError) -> &'static str
    ensures { result.now ≡ spelled_error error }
{
    match error {
        ServiceError::FormatError => "formerr",
        ServiceError::InternalError => "servfail",
        ServiceError::NotImplemented => "notimp",
        ServiceError::Refused => "refused",
    }
}
