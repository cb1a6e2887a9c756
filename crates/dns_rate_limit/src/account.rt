//! Accounts of clients.

ghost use Rattle.std.specs.Prelude.{◌≡◌, ◌≤◌, ◌*◌, ◌+◌};
ghost use Rattle.dns_rate_limit.specs.Accounts.{charged, fresh, passed_by, unpaid_at, verdict_by};

use crate::rate::{Rate, Verdict};

/// The account of a client: each response counts one, and each second takes off as many as the rate says. What is left is
/// unpaid.
#[derive(Clone, Copy)]
pub struct Account {
    /// The second of the last response.
    second: u64,
    /// How many responses are left.
    unpaid: u32,
    /// How many of the limited responses were dropped since one was sent truncated.
    passed: u8,
}

impl Account {
    /// The account of a client that was sent nothing.
    pub fn fresh(second: u64) -> Account
        ensures { result ≡ fresh second }
    {
        Account {
            second,
            unpaid: 0,
            passed: 0,
        }
    }

    /// The account with one response more, at a second. A second earlier than the account's counts as the account's.
    pub fn charged(self, rate: &Rate, second: u64) -> Account
        ensures { result ≡ charged rate.now self second }
    {
        let unpaid = self.charged_unpaid(rate, second);
        Account {
            second: self.second.max(second),
            unpaid,
            passed: passed_by(rate, unpaid, self.passed),
        }
    }

    /// What is done with the response that the account was charged with.
    pub fn verdict(&self, rate: &Rate) -> Verdict
        ensures { result ≡ verdict_by rate.now self.now }
    {
        if self.unpaid <= u32::from(rate.per_second) {
            return Verdict::Whole;
        }
        if self.passed == 0 && rate.slip > 0 {
            return Verdict::Truncated;
        }
        Verdict::Dropped
    }

    /// How many responses are unpaid with one more at a second.
    fn charged_unpaid(self, rate: &Rate, second: u64) -> u32
        ensures { result ≡ (charged rate.now self second).unpaid }
    {
        let paid = u64::from(rate.per_second).saturating_mul(second.saturating_sub(self.second));
        let unpaid = u64::from(self.unpaid).saturating_sub(paid) + 1;
        unpaid.min(most_of(rate)) as u32
    }
}

/// How many responses may be unpaid.
fn most_of(rate: &Rate) -> u64
    ensures value { result ≡ rate.now.per_second * (rate.now.window + 1) + 1 }
    ensures most { result ≤ 4294901761 }
{
    u64::from(rate.per_second) * (u64::from(rate.window) + 1) + 1
}

/// How many of the limited responses were dropped since one was sent truncated.
fn passed_by(rate: &Rate, unpaid: u32, passed: u8) -> u8
    ensures { result ≡ passed_by rate.now unpaid passed }
{
    if unpaid <= u32::from(rate.per_second) {
        return passed;
    }
    if u16::from(passed) + 1 < u16::from(rate.slip) {
        return passed + 1;
    }
    0
}
