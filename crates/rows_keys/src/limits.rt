//! The calls of dns_rate_limit.

use dns_name::IpAddr;
use dns_rate_limit::{Kind, Limiter, Limits, Network, Rate, Settings, Verdict, network_of};
use rows_table::{Calls, Row, RowError, Steps};
use std::alloc::AllocError;
use std::hash::{BuildHasherDefault, FoldHasher};
use std::num::NonZeroUsize;

/// Calls of limits.
pub struct Limiting;

impl Calls for Limiting {
    fn answer(&self, call: &str, row: &mut Row<'_>) -> Result<(), RowError> {
        match call {
            "limit" => limited(row),
            "network" => network(row),
            "contains" => contains(row),
            "limits" => judged(row),
            _ => return Err(RowError::NoSuchCall),
        }
        Ok(())
    }
}

/// A rate: that many a second, seconds longer, and of that many one is truncated.
fn rate(row: &mut Row<'_>) -> Rate {
    Rate {
        per_second: row.number(),
        window: row.number(),
        slip: row.number(),
    }
}

/// A capacity.
fn capacity(row: &mut Row<'_>) -> NonZeroUsize {
    NonZeroUsize::new(row.number()).unwrap_or(NonZeroUsize::MIN)
}

/// The letter of a verdict.
fn letter(verdict: Verdict) -> &'static str {
    match verdict {
        Verdict::Whole => "W",
        Verdict::Truncated => "T",
        Verdict::Dropped => "D",
    }
}

/// What is done with the responses to clients at seconds: each word is CLIENT:SECOND.
fn limited(row: &mut Row<'_>) {
    let rate = rate(row);
    let capacity = capacity(row);
    let seed = BuildHasherDefault::<FoldHasher>::new();
    let Ok(mut limiter) = Limiter::new(row.alloc(), rate, capacity, seed) else {
        return row.fail(RowError::OutOfMemory);
    };
    for word in row.all_words().split(' ') {
        let (client, second) = word.split_once(':').unwrap_or((word, "0"));
        let client = row.number_of::<u32>(client);
        let second = row.number_of::<u64>(second);
        match limiter.ask(client, second) {
            Ok(verdict) => row.close(letter(verdict)),
            Err(_) => row.fail(RowError::OutOfMemory),
        }
    }
}

/// The network of an address.
fn network(row: &mut Row<'_>) {
    let address = row.address();
    let ipv4_bits = row.number();
    let ipv6_bits = row.number();
    row.show(&network_of(address, ipv4_bits, ipv6_bits))
}

/// Whether a network contains an address.
fn contains(row: &mut Row<'_>) {
    let network = Network {
        address: row.address(),
        bits: row.number(),
    };
    let address = row.address();
    row.whether(network.contains(address))
}

/// What limits by kind say of responses. The rate is that of each kind but errors, which have none; networks have 24 and 56
/// bits, and those of 192.0.2.128 to 192.0.2.255 are exempt. Each step is KIND ADDRESS SECOND COOKIE, after a negative one the
/// zone's name.
fn judged(row: &mut Row<'_>) {
    let rate = rate(row);
    let capacity = capacity(row);
    let Ok(exempt) = exempt(row) else {
        return row.fail(RowError::OutOfMemory);
    };
    let settings = Settings {
        answers: Some(rate),
        referrals: Some(rate),
        negatives: Some(rate),
        errors: None,
        ipv4_bits: 24,
        ipv6_bits: 56,
        exempt,
        capacity,
    };
    let seed = BuildHasherDefault::<FoldHasher>::new();
    match Limits::new(row.alloc(), settings, seed) {
        Ok(limits) => row.take_steps(" / ", &mut Judging { limits }),
        Err(_) => row.fail(RowError::OutOfMemory),
    }
}

/// The networks that are exempt.
fn exempt(row: &mut Row<'_>) -> Result<Vec<Network>, AllocError> {
    let mut networks = Vec::new(row.alloc());
    networks.push(Network {
        address: IpAddr::V4([192, 0, 2, 200]),
        bits: 25,
    })?;
    Ok(networks)
}

/// The limits that steps ask.
#[derive(Drop)]
struct Judging {
    limits: Limits<BuildHasherDefault<FoldHasher>>,
}

impl Steps for Judging {
    fn take_step(&mut self, step: &str, row: &mut Row<'_>) {
        let address = row.address();
        let second = row.number();
        let has_cookie = row.word() == "cookie";
        let kind = match step {
            "answer" => Kind::Answer,
            "referral" => Kind::Referral,
            "error" => Kind::Error,
            _ => Kind::Negative(row.name()),
        };
        match self
            .limits
            .judge(row.alloc(), address, has_cookie, &kind, second)
        {
            Ok(verdict) => row.close(letter(verdict)),
            Err(_) => row.fail(RowError::OutOfMemory),
        }
    }
}
