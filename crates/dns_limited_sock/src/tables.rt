//! The tables of limits, and what of them is noted.

ghost use Rattle.std.specs.Prelude.{◌≡◌, ◌/◌, None, OnOk, OnErr, IfOk, IfSome, is_some, option_and_then, option_map};
ghost use Rattle.dns_networks.specs.Networks.{network_of};
ghost use Rattle.dns_limited_sock.specs.Judging.{MayNote, limits_of, noted_at, tables_behind, verdict_by};

use crate::noted::{LimitNote, Noted};
use crate::settings::LimitSettings;
use dns_name::{IpAddr, OutOfMemory};
use dns_networks::network_of;
use dns_rate_limit::{Kind, Limits, Verdict, ZoneClient};
use std::alloc::Global;
use std::hash::RandomState;

/// How many seconds a minute has.
const MINUTE: u64 = 60;

/// The prefix lengths of networks.
#[derive(Clone, Copy)]
struct NetworkBits {
    ipv4: u8,
    ipv6: u8,
}

/// The tables of limits, if there are any, the secret of cookies, and the networks that were noted.
#[derive(Drop)]
pub(crate) struct Tables {
    limits: Option<Limits<RandomState>>,
    bits: NetworkBits,
    secret: Option<[u8; 16]>,
    noted: Noted,
}

impl Tables {
    /// Nothing is limited.
    pub(crate) fn new(alloc: Global) -> Tables
        ensures limits { result.limits ≡ None }
        ensures secret { result.secret ≡ None }
    {
        Tables {
            limits: None,
            bits: NetworkBits {
                ipv4: 32,
                ipv6: 128,
            },
            secret: None,
            noted: Noted::new(alloc),
        }
    }

    /// Goes on to tables of these settings, which are empty, under a seed; without settings nothing is limited. Without memory all
    /// stays.
    pub(crate) fn follow(
        &mut self,
        alloc: Global,
        settings: Option<LimitSettings>,
        seed: RandomState,
    ) -> Result<(), OutOfMemory>
        ensures limits { OnOk result (self.new.limits ≡ option_map (λ s. limits_of s.settings) settings) }
        ensures secret { OnOk result (self.new.secret ≡ option_and_then (λ s. s.secret) settings) }
        ensures bits { OnOk result (IfSome settings (λ s. self.new.bits ≡ record {
          ipv4 = s.settings.ipv4_bits;
          ipv6 = s.settings.ipv6_bits;
        })) }
        ensures err { OnErr result (self.new ≡ self.old) }
    {
        match settings {
            Some(LimitSettings { settings, secret }) => {
                let bits = NetworkBits {
                    ipv4: settings.ipv4_bits,
                    ipv6: settings.ipv6_bits,
                };
                self.limits = Some(Limits::new(alloc, settings, seed)?);
                self.bits = bits;
                self.secret = secret;
            }
            None => {
                self.limits = None;
                self.secret = None;
            }
        }
        Ok(())
    }

    /// The secret under which a server cookie is good.
    pub(crate) fn secret(&self) -> Option<[u8; 16]>
        ensures { result ≡ self.now.secret }
    {
        self.secret
    }

    /// What is done with a reply, which the table of its kind counts.
    pub(crate) fn judge(
        &mut self,
        alloc: Global,
        client: IpAddr,
        kind: &Kind<'_>,
        second: u64,
    ) -> Result<Verdict, OutOfMemory>
        ensures verdict { IfOk result (λ v. v ≡ verdict_by (⟦<IpAddr as PartialEq>⟧.eq)
            (⟦<ZoneClient as PartialEq>⟧.eq) self.old.limits client kind.now second) }
        ensures tables { OnOk result (self.new.limits ≡ tables_behind (⟦<IpAddr as PartialEq>⟧.eq)
            (⟦<ZoneClient as PartialEq>⟧.eq) self.old.limits client kind.now second) }
        ensures err { OnErr result (self.new.limits ≡ self.old.limits) }
    {
        match &mut self.limits {
            Some(limits) => limits.judge(alloc, client, false, kind, second),
            None => Ok(Verdict::Whole),
        }
    }

    /// What is done with a reply, which the table of its kind counts. With it comes the network of its client, if that is limited and to
    /// be noted.
    pub(crate) fn ask(
        &mut self,
        alloc: Global,
        client: IpAddr,
        kind: &Kind<'_>,
        second: u64,
    ) -> Result<(Verdict, Option<LimitNote>), OutOfMemory>
        ensures verdict { IfOk result (λ r. r.0 ≡ verdict_by (⟦<IpAddr as PartialEq>⟧.eq)
            (⟦<ZoneClient as PartialEq>⟧.eq) self.old.limits client kind.now second) }
        ensures tables { OnOk result (self.new.limits ≡ tables_behind (⟦<IpAddr as PartialEq>⟧.eq)
            (⟦<ZoneClient as PartialEq>⟧.eq) self.old.limits client kind.now second) }
        ensures err { OnErr result (self.new.limits ≡ self.old.limits) }
    {
        let verdict = self.judge(alloc, client, kind, second)?;
        match verdict {
            Verdict::Whole => Ok((verdict, None)),
            Verdict::Truncated | Verdict::Dropped => Ok((verdict, self.note(client, second))),
        }
    }

    /// The network of a client whose replies are limited, if it is to be noted at a second.
    fn note(&mut self, client: IpAddr, second: u64) -> Option<LimitNote>
        ensures limits { self.new.limits ≡ self.old.limits }
        ensures noted { MayNote (network_of self.old.bits.ipv4 self.old.bits.ipv6 client) (noted_at (second / 60) self.old.noted)
            self.new.noted (is_some result) }
        ensures network { IfSome result (λ n. n.address ≡ network_of self.old.bits.ipv4 self.old.bits.ipv6 client) }
    {
        let NetworkBits { ipv4, ipv6 } = self.bits;
        let address = network_of(client, ipv4, ipv6);
        if !self.noted.is_first(address, second / MINUTE) {
            return None;
        }
        let bits = match address {
            IpAddr::V4(_) => ipv4,
            IpAddr::V6(_) => ipv6,
        };
        Some(LimitNote { address, bits })
    }
}
