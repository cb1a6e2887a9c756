//! Limits by kind of response.

ghost use Rattle.std.specs.Prelude.{◌≡◌, IfOk, OnOk, OnErr};
ghost use Rattle.std.specs.NonZero.{non_zero_usize_get};
ghost use Rattle.dns_rate_limit.specs.Limited.{behind_in, behind_judged, charged_with, judged, table_of, verdict_in, verdict_of};

use crate::kind::Kind;
use crate::limiter::Limiter;
use crate::rate::{Rate, Verdict};
use crate::zone_client::ZoneClient;
use dns_name::{IpAddr, OutOfMemory};
use dns_networks::{Network, is_in_any, network_of};
use std::alloc::Global;
use std::hash::{BuildHasher, Hash};
use std::marker::Model;
use std::num::NonZeroUsize;

/// What is limited. A kind of response without a rate isn't.
#[derive(Drop)]
pub struct Settings {
    /// The rate of responses with answer records.
    pub answers: Option<Rate>,
    /// The rate of referrals.
    pub referrals: Option<Rate>,
    /// The rate of negative responses of one zone.
    pub negatives: Option<Rate>,
    /// The rate of errors.
    pub errors: Option<Rate>,
    /// How many bits of an IPv4 address are its network's, as 24.
    pub ipv4_bits: u8,
    /// How many bits of an IPv6 address are its network's, as 56.
    pub ipv6_bits: u8,
    /// Networks that are never limited.
    pub exempt: Vec<Network>,
    /// How many clients the table of each kind holds at most.
    pub capacity: NonZeroUsize,
}

/// Limits what is sent to each client network over UDP, by the kind of each response. Each kind has a table of its own, so
/// no kind is limited by responses of another.
#[derive(Drop)]
pub struct Limits<S: BuildHasher> {
    answers: Option<Limiter<IpAddr, S>>,
    referrals: Option<Limiter<IpAddr, S>>,
    negatives: Option<Limiter<ZoneClient, S>>,
    errors: Option<Limiter<IpAddr, S>>,
    ipv4_bits: u8,
    ipv6_bits: u8,
    exempt: Vec<Network>,
}

impl<S: BuildHasher> Model for Limits<S> {
    ghost use Rattle.dns_rate_limit.specs.Limited.{LimitsState};

    ghost Value = { LimitsState };

    ghost view = { λ l. record {
      answers = l.answers;
      referrals = l.referrals;
      negatives = l.negatives;
      errors = l.errors;
      ipv4_bits = l.ipv4_bits;
      ipv6_bits = l.ipv6_bits;
      exempt = l.exempt.items;
    } };
}

impl<S: BuildHasher + Copy + Drop> Limits<S> {
    /// Empty tables under a seed. Their memory is taken at once.
    pub fn new(alloc: Global, settings: Settings, seed: S) -> Result<Limits<S>, OutOfMemory>
        ensures { let n = non_zero_usize_get settings.capacity in IfOk result (λ l. l ≡ record {
          answers = table_of n settings.answers;
          referrals = table_of n settings.referrals;
          negatives = table_of n settings.negatives;
          errors = table_of n settings.errors;
          ipv4_bits = settings.ipv4_bits;
          ipv6_bits = settings.ipv6_bits;
          exempt = settings.exempt.items;
        }) }
    {
        let Settings {
            answers,
            referrals,
            negatives,
            errors,
            ipv4_bits,
            ipv6_bits,
            exempt,
            capacity,
        } = settings;
        Ok(Limits {
            answers: table(alloc, answers, capacity, seed)?,
            referrals: table(alloc, referrals, capacity, seed)?,
            negatives: table(alloc, negatives, capacity, seed)?,
            errors: table(alloc, errors, capacity, seed)?,
            ipv4_bits,
            ipv6_bits,
            exempt,
        })
    }

    /// What is done with a response to an address at a second, which is counted in the table of its kind. A client that
    /// came by a good server cookie (RFC 7873, section 5.2.3) or from an exempt network isn't limited, and isn't counted. A call
    /// that finds no memory leaves the tables.
    pub fn judge(
        &mut self,
        alloc: Global,
        address: IpAddr,
        has_cookie: bool,
        kind: &Kind<'_>,
        second: u64,
    ) -> Result<Verdict, OutOfMemory>
        ensures verdict { IfOk result (λ v. v ≡ judged (⟦<IpAddr as PartialEq>⟧.eq)
            (⟦<ZoneClient as PartialEq>⟧.eq) self.old address has_cookie kind.now second) }
        ensures tables { OnOk result (self.new ≡ behind_judged (⟦<IpAddr as PartialEq>⟧.eq)
            (⟦<ZoneClient as PartialEq>⟧.eq) self.old address has_cookie kind.now second) }
        ensures err { OnErr result (self.new ≡ self.old) }
    {
        if has_cookie || is_in_any(self.exempt.as_slice(), address) {
            return Ok(Verdict::Whole);
        }
        let network = network_of(address, self.ipv4_bits, self.ipv6_bits);
        self.ask(alloc, network, kind, second)
    }

    /// What is done with a response to a network, which is counted in the table of its kind.
    fn ask(
        &mut self,
        alloc: Global,
        network: IpAddr,
        kind: &Kind<'_>,
        second: u64,
    ) -> Result<Verdict, OutOfMemory>
        ensures verdict { IfOk result (λ v. v ≡ verdict_of (⟦<IpAddr as PartialEq>⟧.eq)
            (⟦<ZoneClient as PartialEq>⟧.eq) self.old network second kind.now) }
        ensures tables { OnOk result (self.new ≡ charged_with (⟦<IpAddr as PartialEq>⟧.eq)
            (⟦<ZoneClient as PartialEq>⟧.eq) self.old network second kind.now) }
        ensures err { OnErr result (self.new ≡ self.old) }
    {
        match kind {
            Kind::Answer => ask_in(&mut self.answers, network, second),
            Kind::Referral => ask_in(&mut self.referrals, network, second),
            Kind::Negative(zone) => {
                let zone = zone.to_owned(alloc)?;
                ask_in(&mut self.negatives, ZoneClient { network, zone }, second)
            }
            Kind::Error => ask_in(&mut self.errors, network, second),
        }
    }
}

/// The table of a kind, if it has a rate.
fn table<K: Eq + Hash + Drop, S: BuildHasher + Copy + Drop>(
    alloc: Global,
    rate: Option<Rate>,
    capacity: NonZeroUsize,
    seed: S,
) -> Result<Option<Limiter<K, S>>, OutOfMemory>
    ensures { IfOk result (λ t. t ≡ table_of (non_zero_usize_get capacity) rate) }
{
    match rate {
        Some(rate) => Ok(Some(Limiter::new(alloc, rate, capacity, seed)?)),
        None => Ok(None),
    }
}

/// What the table of a kind says of a response, which it counts.
fn ask_in<K: Eq + Hash + Drop, S: BuildHasher + Drop>(
    limiter: &mut Option<Limiter<K, S>>,
    client: K,
    second: u64,
) -> Result<Verdict, OutOfMemory>
    ensures verdict { IfOk result (λ v. v ≡ verdict_in K.eq limiter.old client second) }
    ensures table { OnOk result (limiter.new ≡ behind_in K.eq limiter.old client second) }
    ensures err { OnErr result (limiter.new ≡ limiter.old) }
{
    match limiter {
        Some(limiter) => limiter.ask(client, second),
        None => Ok(Verdict::Whole),
    }
}
