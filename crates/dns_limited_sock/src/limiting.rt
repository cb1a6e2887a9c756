//! What the sockets of a server share.

ghost use Rattle.std.specs.Prelude.{◌≡◌, true, IfOk};
ghost use Rattle.dns_rate_limit.specs.declared.rate.Verdict.TheVariants.{Whole};
ghost use Rattle.dns_limited_sock.specs.Judging.{IsJudged};

use crate::noted::LimitNote;
use crate::settings::LimitSettings;
use crate::tables::Tables;
use crossbeam_queue::ArrayQueue;
use dns_name::{IpAddr, OutOfMemory};
use dns_rate_limit::{Kind, Verdict, ZoneClient};
use std::alloc::Global;
use std::hash::RandomState;
use std::sync::atomic::{AtomicBool, AtomicU64, Ordering};
use std::sync::{Mutex, Wait};

/// How many notes wait at most.
const MOST_WAITING: usize = 64;

/// What is limited at any number of sockets, what was counted, and the notes that wait to be taken out. Past 2^64 - 1 a count begins
/// anew.
#[derive(Drop)]
pub struct Limiting {
    tables: Mutex<Tables>,
    /// Whether anything is limited.
    is_on: AtomicBool,
    truncated: AtomicU64,
    dropped: AtomicU64,
    waiting: ArrayQueue<LimitNote>,
}

/// How many replies were limited up to a moment.
#[derive(Clone, Copy)]
pub struct LimitNumbers {
    /// Those that were sent truncated.
    pub truncated: u64,
    /// Those that weren't sent.
    pub dropped: u64,
}

impl Limiting {
    /// Nothing is limited.
    pub fn new(alloc: Global) -> Result<Limiting, OutOfMemory> {
        Ok(Limiting {
            tables: Mutex::new(Tables::new(alloc)),
            is_on: AtomicBool::new(false),
            truncated: AtomicU64::new(0),
            dropped: AtomicU64::new(0),
            waiting: ArrayQueue::new(alloc, MOST_WAITING)?,
        })
    }

    /// Goes on to these settings, with empty tables under a seed. Without memory all stays.
    pub fn follow<R: Wait>(
        &self,
        rt: &R,
        alloc: Global,
        settings: Option<LimitSettings>,
        seed: RandomState,
    ) -> Result<(), OutOfMemory> {
        let is_on = settings.is_some();
        let mut tables = self.tables.lock(rt);
        tables.follow(alloc, settings, seed)?;
        self.is_on.store(is_on, Ordering::SeqCst);
        Ok(())
    }

    /// Whether anything is limited.
    pub(crate) fn is_on(&self) -> bool {
        self.is_on.load(Ordering::SeqCst)
    }

    /// The secret under which a server cookie is good.
    pub(crate) fn secret<R: Wait>(&self, rt: &R) -> Option<[u8; 16]> {
        self.tables.lock(rt).secret()
    }

    /// Counts what is limited.
    fn count(&self, verdict: Verdict) {
        let _ = match verdict {
            Verdict::Whole => 0,
            Verdict::Truncated => self.truncated.fetch_add(1, Ordering::SeqCst),
            Verdict::Dropped => self.dropped.fetch_add(1, Ordering::SeqCst),
        };
    }

    /// What the tables say of a reply, and the network of its client, if that is to be noted.
    fn asked<R: Wait>(
        &self,
        rt: &R,
        alloc: Global,
        client: IpAddr,
        kind: &Kind<'_>,
        second: u64,
    ) -> Result<(Verdict, Option<LimitNote>), OutOfMemory>
        ensures { IfOk result (λ r. IsJudged (⟦<IpAddr as PartialEq>⟧.eq) (⟦<ZoneClient as PartialEq>⟧.eq) client kind.now second r.0) }
    {
        let mut tables = self.tables.lock(rt);
        let (verdict, note) = tables.ask(alloc, client, kind, second)?;
        Ok((verdict, note))
    }

    /// What is done with a reply to a client at a second, which is counted. One to a request with a good cookie isn't limited, and one
    /// for which there is no memory isn't either.
    pub fn judge<R: Wait>(
        &self,
        rt: &R,
        alloc: Global,
        client: IpAddr,
        has_cookie: bool,
        kind: &Kind<'_>,
        second: u64,
    ) -> Verdict
        ensures good { has_cookie ≡ true → result ≡ Whole }
        ensures judged { IsJudged (⟦<IpAddr as PartialEq>⟧.eq) (⟦<ZoneClient as PartialEq>⟧.eq) client kind.now second result }
    {
        if has_cookie {
            return Verdict::Whole;
        }
        match self.asked(rt, alloc, client, kind, second) {
            Ok((verdict, note)) => {
                self.count(verdict);
                if let Some(note) = note {
                    let _ = self.waiting.push(rt, note);
                }
                verdict
            }
            Err(_) => Verdict::Whole,
        }
    }

    /// Takes the first note out.
    pub fn next<R: Wait>(&self, rt: &R) -> Option<LimitNote> {
        self.waiting.pop(rt)
    }

    /// What was counted up to now.
    pub fn numbers(&self) -> LimitNumbers {
        LimitNumbers {
            truncated: self.truncated.load(Ordering::SeqCst),
            dropped: self.dropped.load(Ordering::SeqCst),
        }
    }
}
