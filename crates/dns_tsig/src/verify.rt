//! Whether a message verifies.

ghost use Rattle.std.specs.Prelude.{◌≡◌, ◌<◌, ◌^◌, ℕ, List, ◌++◌, length, MatchResult, None, Some, true};
ghost use Rattle.dns_hmac.specs.declared.algorithm.Algorithm.{Algorithm};
ghost use Rattle.dns_hmac.specs.Keyed.{Keyed};
ghost use Rattle.dns_hmac.specs.Macs.{octets_of};
ghost use Rattle.dns_tsig.specs.Digested.{variables};
ghost use Rattle.dns_tsig.specs.Keys.{is_named};
ghost use Rattle.dns_tsig.specs.Verdicts.{is_front, is_size, is_timely, message_refusal, refusal_behind, time_refusal};

use crate::digest::{feed_error, feed_signed, feed_timers};
use crate::error::TsigError;
use crate::found::Signed;
use crate::key::Key;
use crate::tsig::TsigRef;
use dns_hmac::{Algorithm, Hmac, Mac, same_octets};

impl<'a> Signed<'a> {
    /// Whether the message verifies under a key at a time in seconds since 1970. `prior` is the request's MAC if the
    /// message is a reply, and empty if it is a request. A MAC of fewer octets than `least` is refused as BADTRUNC.
    pub fn verify(&self, key: &Key, least: usize, now: u64, prior: &[u8]) -> Result<(), TsigError>
        requires time { now < 2 ^ 48 }
        requires prior { length prior.now < 2 ^ 16 }
        ensures { MatchResult result (λ _. message_refusal key.now least now prior.now self.now ≡ None)
            (λ e. message_refusal key.now least now prior.now self.now ≡ Some e) }
    {
        if !key.is_named(self.tsig()) {
            return Err(TsigError::BadKey);
        }
        let mut code = key.begin(prior);
        feed_signed(&mut code, self);
        feed_variables(&mut code, key, self.tsig());
        judge(key, least, now, code, self.tsig())
    }
}

/// Adds the variables of a TSIG that names the key.
pub(crate) fn feed_variables(code: &mut Hmac, key: &Key, tsig: &TsigRef<'_>)
    requires { is_named key.now tsig.now ≡ true }
    ensures { (a : Algorithm) (k text : List ℕ) → Keyed a k text code.old → Keyed a k (text ++ variables tsig.now) code.new }
{
    code.update(key.names());
    feed_timers(code, tsig.time(), tsig.fudge());
    feed_error(code, tsig.error(), tsig.other());
}

/// Whether a text is taken under a key whose TSIG this is.
pub(crate) fn judge(
    key: &Key,
    least: usize,
    now: u64,
    code: Hmac,
    tsig: &TsigRef<'_>,
) -> Result<(), TsigError>
    requires { now < 2 ^ 48 }
    ensures { (text : List ℕ) → Keyed key.now.algorithm key.now.secret text code
        → MatchResult result (λ _. refusal_behind key.now least now text tsig.now ≡ None)
        (λ e. refusal_behind key.now least now text tsig.now ≡ Some e) }
{
    if !is_size(key.algorithm(), tsig.mac().len()) {
        return Err(TsigError::FormErr);
    }
    if !is_front(tsig.mac(), &code.finalize()) {
        return Err(TsigError::BadSig);
    }
    judge_time(least, now, tsig)
}

/// Whether a MAC may have that many octets (RFC 8945, section 5.2.2.1).
fn is_size(algorithm: Algorithm, size: usize) -> bool
    ensures { result ≡ is_size algorithm size }
{
    let whole = algorithm.digest_len();
    let least = (whole / 2).max(10);
    least <= size && size <= whole
}

/// Whether octets are a front of a MAC. All of them are looked at.
fn is_front(octets: &[u8], mac: &Mac) -> bool
    ensures { result ≡ is_front octets.now (octets_of mac.now) }
{
    let whole = mac.as_slice();
    if octets.len() > whole.len() {
        return false;
    }
    same_octets(octets, &whole[..octets.len()])
}

/// Whether the time and the size of a MAC are taken.
fn judge_time(least: usize, now: u64, tsig: &TsigRef<'_>) -> Result<(), TsigError>
    requires { now < 2 ^ 48 }
    ensures { MatchResult result (λ _. time_refusal least now tsig.now ≡ None) (λ e. time_refusal least now tsig.now ≡ Some e) }
{
    if !is_timely(now, tsig) {
        return Err(TsigError::BadTime);
    }
    if tsig.mac().len() < least {
        return Err(TsigError::BadTrunc);
    }
    Ok(())
}

/// Whether a time lies within the fudge (RFC 8945, section 5.2.3).
fn is_timely(now: u64, tsig: &TsigRef<'_>) -> bool
    requires { now < 2 ^ 48 }
    ensures { result ≡ is_timely now tsig.now }
{
    let fudge = u64::from(tsig.fudge());
    tsig.time() <= now + fudge && now <= tsig.time() + fudge
}
