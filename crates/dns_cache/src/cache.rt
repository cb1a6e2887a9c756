//! A bounded cache in front of a single service.

ghost use Rattle.std.specs.Prelude.{◌≡◌, [], length, IfOk, Ok, OnOk, OnErr, Some, is_some, option_and_then, true};
ghost use Rattle.std.specs.Map.{lookup};
ghost use Rattle.std.specs.NonZero.{non_zero_usize_get};
ghost use Rattle.dns_base.specs.Sections.{first_of, questions_of};
ghost use Rattle.dns_service.specs.declared.service.Polled.TheVariants.{Pending};
ghost use Rattle.lru.specs.LruCache.{lru_cache};
ghost use Rattle.dns_cache.specs.AskedCache.{AnswersCached, asked_cache, cached_message, empty_cache, has_entry, kept_answer, with_kept, without_entry, young_message};
ghost use Rattle.dns_cache.specs.Steps.{GivesBuilt, GivesMessage, used_where};
ghost use Rattle.dns_cache.specs.Keys.{AsksByName, AsksOnce, key_of, same_key};

use crate::cached_reply::{CachedReply, kept_reply};
use crate::key::{CacheKey, key_for, key_of};
use dns_base::{AdditionalBuilder, QuestionRef};
use dns_route::{ReplyMessage, Seed, SingleService, Turned};
use dns_service::{OutOfMemory, Polled, Request};
use lru::LruCache;
use std::alloc::Global;
use std::hash::RandomState;
use std::marker::Model;
use std::num::NonZeroUsize;

/// Replies of a single service, kept as long as the least TTL of their records. Each is kept for one question, with the DO bit or
/// without (RFC 2181, section 8; RFC 2308, section 5). Contracts see the entries, the most recently used first, and how many there
/// may be.
#[derive(Drop)]
pub struct Cache {
    entries: LruCache<CacheKey, CachedReply, Seed>,
}

/// No entry, of that many at most. Memory is taken as they come.
fn no_entry(
    alloc: Global,
    capacity: NonZeroUsize,
    seed: Seed,
) -> Result<LruCache<CacheKey, CachedReply, Seed>, OutOfMemory>
    ensures { IfOk result (λ c. c ≡ lru_cache [] (non_zero_usize_get capacity)) }
{
    let mut entries = LruCache::unbounded_with_hasher(alloc, seed)?;
    entries.resize(capacity);
    Ok(entries)
}

impl Model for Cache {
    ghost use Rattle.dns_cache.specs.AskedCache.{Cached};

    ghost Value = { Cached };

    ghost view = { λ c. c.entries };
}

impl Cache {
    /// A cache of that many replies at most, from 1 to 65,536. Memory is taken as replies come. Keys are hashed from a fixed seed:
    /// if the names come from queries of strangers, `new_with_seed` is the call to take.
    pub fn new(alloc: Global, capacity: usize) -> Result<Cache, OutOfMemory>
        ensures { IfOk result (λ c. c ≡ empty_cache capacity) }
    {
        Cache::seeded(alloc, capacity, Seed::fixed())
    }

    /// A cache of that many replies at most, from 1 to 65,536, whose keys are hashed from a random state.
    /// `RandomState::new(&rt)` gives one. Nobody can then pick query names whose hashes collide.
    pub fn new_with_seed(
        alloc: Global,
        capacity: usize,
        seed: RandomState,
    ) -> Result<Cache, OutOfMemory>
        ensures { IfOk result (λ c. c ≡ empty_cache capacity) }
    {
        Cache::seeded(alloc, capacity, Seed::random(seed))
    }

    /// An empty cache whose keys are hashed from the seed. The capacity is clamped to 1 to 65,536.
    fn seeded(alloc: Global, capacity: usize, seed: Seed) -> Result<Cache, OutOfMemory>
        ensures { IfOk result (λ c. c ≡ empty_cache capacity) }
    {
        let Some(capacity) = NonZeroUsize::new(capacity.clamp(1, 65_536)) else {
            unreachable!();
        };
        let entries = no_entry(alloc, capacity, seed)?;
        Ok(Cache { entries })
    }

    /// How many replies are kept, young or not.
    pub fn len(&self) -> usize
        ensures { result ≡ length self.now.entries }
    {
        self.entries.len()
    }

    /// Removes all replies. How many there may be stays.
    pub fn clear(&mut self)
        ensures { self.new ≡ lru_cache [] self.old.cap }
    {
        self.entries.clear();
    }

    /// Removes the reply that is kept for a request's question, with the DO bit or without as the request has it. It says whether
    /// there was one. A refused call leaves the cache.
    pub fn remove(&mut self, alloc: Global, request: &Request<()>) -> Result<bool, OutOfMemory>
        ensures found { IfOk result (λ b. b ≡ has_entry self.old (key_of request.now.octets)) }
        ensures cache { OnOk result (self.new ≡ without_entry self.old (key_of request.now.octets)) }
        ensures err { OnErr result (self.new ≡ self.old) }
    {
        match key_of(alloc, request)? {
            Some(key) => {
                let kept = self.entries.pop(&key);
                Ok(kept.is_some())
            }
            None => Ok(false),
        }
    }

    /// Answers turn k of a request, whose seconds are the time: at turn 0 out of the cache, if a young reply is kept, and else by
    /// the service. The service's reply is kept if it can be. A reply out of the cache has the request's identifier, RD bit and
    /// question, and its TTLs are lowered by its age. A refused call leaves the cache.
    pub fn ask<S: SingleService>(
        &mut self,
        alloc: Global,
        service: &S,
        request: &Request<()>,
        k: u64,
    ) -> Result<Turned, OutOfMemory>
        ensures answer { IfOk result (λ p. AnswersCached
            (asked_cache self.old request.now k (S.answer service.now request.now k)).cached (S.answer service.now request.now k) p) }
        ensures cache { OnOk result (self.new ≡ (asked_cache self.old request.now k (S.answer service.now request.now k)).behind) }
        ensures err { OnErr result (self.new ≡ self.old) }
    {
        match key_of(alloc, request)? {
            Some(key) => self.ask_for(alloc, service, request, k, key),
            None => service.turn(alloc, request, k),
        }
    }

    /// The message that `ask` answers a request with at turn 0 out of the cache, built, or none if it would ask the service. The entry
    /// of the message comes first. A refused call leaves the cache.
    pub fn young(
        &mut self,
        alloc: Global,
        request: &Request<()>,
    ) -> Result<Option<AdditionalBuilder>, OutOfMemory>
        ensures message { IfOk result (λ b. GivesBuilt (asked_cache self.old request.now 0 Pending).cached b) }
        ensures asked { IfOk result (λ b. is_some b ≡ true → AsksByName request.now.octets) }
        ensures cache { OnOk result (self.new ≡ (asked_cache self.old request.now 0 Pending).behind) }
        ensures err { OnErr result (self.new ≡ self.old) }
    {
        match request.message().first_question() {
            Some(question) => self.young_for(alloc, request, &question),
            None => Ok(None),
        }
    }

    /// The message of a young entry for a request's first question, if there is one.
    fn young_for(
        &mut self,
        alloc: Global,
        request: &Request<()>,
        question: &QuestionRef<'_>,
    ) -> Result<Option<AdditionalBuilder>, OutOfMemory>
        requires { first_of (questions_of request.now.octets).0 ≡ Some question.now }
        ensures message { IfOk result (λ b. GivesBuilt (asked_cache self.old request.now 0 Pending).cached b) }
        ensures asked { AsksByName request.now.octets }
        ensures cache { OnOk result (self.new ≡ (asked_cache self.old request.now 0 Pending).behind) }
        ensures err { OnErr result (self.new ≡ self.old) }
    {
        let _labels = question.qname().labels();
        match key_for(alloc, request.message(), question)? {
            Some(key) => self.young_of(alloc, request, question, &key),
            None => Ok(None),
        }
    }

    /// The message of a young entry of a request's key, if there is one.
    fn young_of(
        &mut self,
        alloc: Global,
        request: &Request<()>,
        question: &QuestionRef<'_>,
        key: &CacheKey,
    ) -> Result<Option<AdditionalBuilder>, OutOfMemory>
        requires asked { first_of (questions_of request.now.octets).0 ≡ Some question.now }
        requires key { key_of request.now.octets ≡ Some key.now }
        ensures message { IfOk result (λ b. GivesBuilt (asked_cache self.old request.now 0 Pending).cached b) }
        ensures cache { OnOk result (self.new ≡ (asked_cache self.old request.now 0 Pending).behind) }
        ensures err { OnErr result (self.new ≡ self.old) }
    {
        match self.use_message(alloc, request, question, key) {
            Ok(Some(built)) => Ok(Some(built)),
            Ok(None) => Ok(None),
            Err(error) => Err(error),
        }
    }

    /// The message of a young entry of the key, built. The entry comes first.
    fn use_message(
        &mut self,
        alloc: Global,
        request: &Request<()>,
        question: &QuestionRef<'_>,
        key: &CacheKey,
    ) -> Result<Option<AdditionalBuilder>, OutOfMemory>
        requires asked { first_of (questions_of request.now.octets).0 ≡ Some question.now }
        requires key { key_of request.now.octets ≡ Some key.now }
        ensures message { IfOk result (λ b. GivesBuilt
            (option_and_then (young_message request.now) (lookup (same_key key.now) self.old.entries)) b) }
        ensures used { IfOk result (λ b. (self.new ≡ used_where b key.now self.old)) }
        ensures err { OnErr result (self.new ≡ self.old) }
    {
        let Some(kept) = self.entries.peek(key) else {
            return Ok(None);
        };
        let built = kept.aged_message(alloc, request, question)?;
        if built.is_some() {
            self.entries.promote(key);
        }
        Ok(built)
    }

    /// Poll `k` of a request that has this key: a cached reply at once, or else the service's turn, whose reply may be
    /// cached.
    fn ask_for<S: SingleService>(
        &mut self,
        alloc: Global,
        service: &S,
        request: &Request<()>,
        k: u64,
        key: CacheKey,
    ) -> Result<Turned, OutOfMemory>
        requires { key_of request.now.octets ≡ Some key }
        ensures answer { IfOk result (λ p. AnswersCached
            (asked_cache self.old request.now k (S.answer service.now request.now k)).cached (S.answer service.now request.now k) p) }
        ensures cache { OnOk result (self.new ≡ (asked_cache self.old request.now k (S.answer service.now request.now k)).behind) }
        ensures err { OnErr result (self.new ≡ self.old) }
    {
        match self.first_answer(alloc, request, k, &key) {
            Ok(Some(reply)) => Ok(Polled::Ready(Ok(reply))),
            Ok(None) => self.keep_turn(alloc, request, key, service.turn(alloc, request, k)),
            Err(error) => Err(error),
        }
    }

    /// The reply of a young entry of the key, which comes first; none at a later turn than 0.
    fn first_answer(
        &mut self,
        alloc: Global,
        request: &Request<()>,
        k: u64,
        key: &CacheKey,
    ) -> Result<Option<ReplyMessage>, OutOfMemory>
        requires { key_of request.now.octets ≡ Some key.now }
        ensures reply { IfOk result (λ r. GivesMessage (cached_message self.old request.now k (Some key.now)) r) }
        ensures used { IfOk result (λ r. (self.new ≡ used_where r key.now self.old)) }
        ensures err { OnErr result (self.new ≡ self.old) }
    {
        if k == 0 {
            return self.use_entry(alloc, request, key);
        }
        Ok(None)
    }

    /// The reply of a young entry of the key, which comes first.
    fn use_entry(
        &mut self,
        alloc: Global,
        request: &Request<()>,
        key: &CacheKey,
    ) -> Result<Option<ReplyMessage>, OutOfMemory>
        requires { key_of request.now.octets ≡ Some key.now }
        ensures reply { IfOk result (λ r. GivesMessage
            (option_and_then (young_message request.now) (lookup (same_key key.now) self.old.entries)) r) }
        ensures used { IfOk result (λ r. (self.new ≡ used_where r key.now self.old)) }
        ensures err { OnErr result (self.new ≡ self.old) }
    {
        let Some(kept) = self.entries.peek(key) else {
            return Ok(None);
        };
        let reply = kept.aged(alloc, request)?;
        if reply.is_some() {
            self.entries.promote(key);
        }
        Ok(reply)
    }

    /// What the service answered at a turn, kept if it can be.
    fn keep_turn(
        &mut self,
        alloc: Global,
        request: &Request<()>,
        key: CacheKey,
        turned: Result<Turned, OutOfMemory>,
    ) -> Result<Turned, OutOfMemory>
        requires { key_of request.now.octets ≡ Some key }
        ensures answer { IfOk result (λ p. turned ≡ Ok p) }
        ensures kept { IfOk result (λ p. self.new ≡ with_kept key self.old (kept_answer request.now p)) }
        ensures err { OnErr result (self.new ≡ self.old) }
    {
        match turned {
            Ok(turned) => match self.keep_answer(alloc, request, key, &turned) {
                Ok(()) => Ok(turned),
                Err(error) => Err(error),
            },
            Err(error) => Err(error),
        }
    }

    /// Caches what the service answered under the key, if it may be kept. After an error the cache is as before.
    fn keep_answer(
        &mut self,
        alloc: Global,
        request: &Request<()>,
        key: CacheKey,
        turned: &Turned,
    ) -> Result<(), OutOfMemory>
        requires { key_of request.now.octets ≡ Some key }
        ensures kept { OnOk result (self.new ≡ with_kept key self.old (kept_answer request.now turned.now)) }
        ensures err { OnErr result (self.new ≡ self.old) }
    {
        match kept_turn(alloc, request, turned) {
            Ok(kept) => self.keep(key, kept),
            Err(error) => Err(error),
        }
    }

    /// Puts an entry first, if there is one, in place of one of its key. Past the capacity the last one goes.
    fn keep(&mut self, key: CacheKey, kept: Option<CachedReply>) -> Result<(), OutOfMemory>
        ensures ok { OnOk result (self.new ≡ with_kept key self.old kept) }
        ensures err { OnErr result (self.new ≡ self.old) }
    {
        match kept {
            Some(kept) => self.put(key, kept),
            None => Ok(()),
        }
    }

    /// Puts an entry first, in place of one of its key. Past the capacity the last entry is dropped.
    fn put(&mut self, key: CacheKey, kept: CachedReply) -> Result<(), OutOfMemory>
        ensures ok { OnOk result (self.new ≡ with_kept key self.old (Some kept)) }
        ensures err { OnErr result (self.new ≡ self.old) }
    {
        let _len = self.entries.len();
        self.entries.put(key, kept)?;
        Ok(())
    }
}

/// What is kept of a service's answer, if anything.
fn kept_turn(
    alloc: Global,
    request: &Request<()>,
    turned: &Turned,
) -> Result<Option<CachedReply>, OutOfMemory>
    requires { AsksOnce request.now.octets }
    ensures { IfOk result (λ k. k ≡ kept_answer request.now turned.now) }
{
    match turned {
        Polled::Ready(Ok(reply)) => kept_reply(alloc, request, reply),
        Polled::Ready(Err(_)) => Ok(None),
        Polled::Pending => Ok(None),
    }
}
