//! The accounts of client networks, in a table of bounded size.

ghost use Rattle.std.specs.Prelude.{◌≡◌, ◌≤◌, [], length, IfOk, OnOk, OnErr};
ghost use Rattle.std.specs.Map.{lookup};
ghost use Rattle.std.specs.NonZero.{non_zero_usize_get};
ghost use Rattle.lru.specs.LruCache.{lru_cache};
ghost use Rattle.dns_rate_limit.specs.Accounts.{charged_from, verdict_by};
ghost use Rattle.dns_rate_limit.specs.Tables.{behind};

use crate::account::Account;
use crate::rate::{Rate, Verdict};
use dns_name::OutOfMemory;
use lru::LruCache;
use std::alloc::Global;
use std::hash::{BuildHasher, Hash};
use std::marker::Model;
use std::num::NonZeroUsize;

/// The accounts of clients, each under a key of its own. Past the capacity the account that was charged longest ago leaves.
#[derive(Drop)]
pub struct Limiter<K: Eq + Hash, S: BuildHasher> {
    rate: Rate,
    accounts: LruCache<K, Account, S>,
}

impl<K: Eq + Hash, S: BuildHasher> Model for Limiter<K, S> {
    ghost use Rattle.dns_rate_limit.specs.Tables.{LimiterState};

    ghost Value = { LimiterState K };

    ghost view = { λ l. record { rate = l.rate; accounts = l.accounts } };
}

impl<K: Eq + Hash + Drop, S: BuildHasher + Drop> Limiter<K, S> {
    /// A table of that many accounts at most, whose keys are hashed under this seed. Its memory is taken at once.
    pub fn new(
        alloc: Global,
        rate: Rate,
        capacity: NonZeroUsize,
        seed: S,
    ) -> Result<Limiter<K, S>, OutOfMemory>
        ensures rate { IfOk result (λ l. l.rate ≡ rate) }
        ensures table { IfOk result (λ l. l.accounts ≡ lru_cache [] (non_zero_usize_get capacity)) }
    {
        let accounts = LruCache::with_hasher(alloc, capacity, seed)?;
        Ok(Limiter { rate, accounts })
    }

    /// What is done with a response to a client at a second, which is charged to its account. A call that finds no memory
    /// leaves the table.
    pub fn ask(&mut self, client: K, second: u64) -> Result<Verdict, OutOfMemory>
        ensures verdict { IfOk result (λ v. v ≡ verdict_by self.old.rate
            (charged_from self.old.rate (lookup (K.eq client) self.old.accounts.entries) second)) }
        ensures table { OnOk result (self.new.accounts ≡ behind K.eq self.old.rate self.old.accounts client second) }
        ensures rate { self.new.rate ≡ self.old.rate }
        ensures err { OnErr result (self.new.accounts ≡ self.old.accounts) }
    {
        let account = self.charged(&client, second);
        self.accounts.put(client, account)?;
        Ok(account.verdict(&self.rate))
    }

    /// How many accounts are kept, no more than the capacity.
    pub fn len(&self) -> usize
        ensures value { result ≡ length self.now.accounts.entries }
        ensures bounded { result ≤ self.now.accounts.cap }
    {
        self.accounts.len()
    }

    /// A client's account once it is charged with a response at a second.
    fn charged(&self, client: &K, second: u64) -> Account
        ensures { result ≡ charged_from self.now.rate (lookup (K.eq client.now) self.now.accounts.entries) second }
    {
        match self.accounts.peek(client) {
            Some(account) => account.charged(&self.rate, second),
            None => Account::fresh(second).charged(&self.rate, second),
        }
    }
}
