//! The rule by which the reply to one request is rewritten, as numbers.

ghost use Rattle.std.specs.Prelude.{◌≡◌, is_some};
ghost use Rattle.nutscythe_c.specs.Rules.{bit, given, rule_in};

use dns_embed::ReplyRule;
use dns_layers::{EdnsPost, MandatoryPost};
use dns_opt::IdleTimeout;

/// The rule by which the reply to one request is rewritten: numbers alone, which a caller keeps, copies and forgets.
#[repr(C)]
#[derive(Clone, Copy)]
pub struct Rule {
    /// The request's identifier.
    pub id: u16,
    /// The most octets that a reply may take, if `is_limited` isn't 0.
    pub limit: u16,
    /// The keepalive that a reply gets in units of 100 ms, if `has_keepalive` isn't 0.
    pub keepalive: u16,
    /// Whether recursion is desired.
    pub rd: u8,
    /// Whether `limit` holds.
    pub is_limited: u8,
    /// Whether `keepalive` holds.
    pub has_keepalive: u8,
    /// Whether EDNS is on.
    pub speaks_edns: u8,
    /// Whether the request has an OPT record.
    pub has_opt: u8,
    /// Says nothing. It is 0 in a rule that a call gives.
    pub spare: u8,
}

/// 1 or 0.
fn bit(is_set: bool) -> u8
    ensures { result ≡ bit is_set }
{
    if is_set { 1 } else { 0 }
}

/// A number if a flag isn't 0.
fn given(flag: u8, number: u16) -> Option<u16>
    ensures { result ≡ given flag number }
{
    if flag == 0 { None } else { Some(number) }
}

/// A keepalive if a flag isn't 0.
fn keepalive_of(flag: u8, units: u16) -> Option<IdleTimeout>
    ensures { result ≡ given flag units }
{
    if flag == 0 {
        None
    } else {
        Some(IdleTimeout::from(units))
    }
}

/// The units of a keepalive, and 0 of none.
fn units_of(keepalive: Option<IdleTimeout>) -> u16
    ensures { given (bit (is_some keepalive)) result ≡ keepalive }
{
    match keepalive {
        Some(timeout) => u16::from(timeout),
        None => 0,
    }
}

impl Rule {
    /// The numbers of a rule.
    pub(crate) fn of(rule: &ReplyRule) -> Rule
        ensures rule { rule_in result ≡ rule.now }
        ensures spare { result.spare ≡ 0 }
    {
        let limit = rule.mandatory.limit;
        let keepalive = rule.edns.keepalive;
        Rule {
            id: rule.mandatory.id,
            limit: limit.unwrap_or(0),
            keepalive: units_of(keepalive),
            rd: bit(rule.mandatory.rd),
            is_limited: bit(limit.is_some()),
            has_keepalive: bit(keepalive.is_some()),
            speaks_edns: bit(rule.speaks_edns),
            has_opt: bit(rule.edns.request_has_opt),
            spare: 0,
        }
    }

    /// The rule of numbers.
    pub(crate) fn rule(&self) -> ReplyRule
        ensures { result ≡ rule_in self.now }
    {
        ReplyRule {
            speaks_edns: self.speaks_edns != 0,
            edns: EdnsPost {
                request_has_opt: self.has_opt != 0,
                keepalive: keepalive_of(self.has_keepalive, self.keepalive),
            },
            mandatory: MandatoryPost {
                id: self.id,
                rd: self.rd != 0,
                limit: given(self.is_limited, self.limit),
            },
        }
    }
}
