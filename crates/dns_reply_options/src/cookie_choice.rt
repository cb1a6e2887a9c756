//! Which cookie the replies to a request carry.

ghost use Rattle.std.specs.Prelude.{◌≡◌, ◌%◌, ◌^◌};
ghost use Rattle.dns_cookie.specs.Cookies.{after_last_hour, standard_of};
ghost use Rattle.dns_reply_options.specs.ServerCookies.{cookie_for, is_recent, lasting, reply_cookie};

use dns_cookie::{Cookie, StandardServerCookie};
use dns_layers::{CookieVerdict, cookie_verdict_of};
use dns_name::{IpAddr, Serial};
use dns_service::Request;

/// How many seconds an hour has.
const HOUR: u32 = 3_600;

/// How many seconds half an hour has, after which a server cookie is replaced (RFC 9018, section 4.3).
const HALF_HOUR: u32 = 1_800;

/// How many seconds a timestamp lies after the moment one hour before now, modulo 2^32.
fn after_last_hour(timestamp: Serial, now: Serial) -> u32
    ensures { result ≡ after_last_hour timestamp.0 now.0 }
{
    timestamp.add(HOUR).into_int().wrapping_sub(now.into_int())
}

/// The standard server cookie in a cookie.
fn standard_of(cookie: &Cookie) -> Option<StandardServerCookie>
    ensures { result ≡ standard_of cookie.now.server }
{
    match cookie.server() {
        Some(server) => server.try_to_standard(),
        None => None,
    }
}

/// Whether a cookie has a server cookie of version 1 that is no more than half an hour old.
fn is_recent(cookie: &Cookie, now: Serial) -> bool
    ensures { result ≡ is_recent now.0 cookie.now }
{
    match standard_of(cookie) {
        Some(standard) => {
            standard.version() == 1 && after_last_hour(standard.timestamp(), now) >= HALF_HOUR
        }
        None => false,
    }
}

/// A good cookie while it is recent, and else a new one of its client part.
fn lasting(secret: &[u8; 16], now: Serial, address: IpAddr, cookie: Cookie) -> Cookie
    ensures { result ≡ lasting secret.now now.0 address cookie }
{
    if is_recent(&cookie, now) {
        return cookie;
    }
    cookie.create_response(now, address, secret)
}

/// The cookie of the replies to a request whose cookie is taken so.
fn reply_cookie(
    secret: &[u8; 16],
    now: Serial,
    address: IpAddr,
    verdict: CookieVerdict,
) -> Option<Cookie>
    ensures { result ≡ reply_cookie secret.now now.0 address verdict }
{
    match verdict {
        CookieVerdict::Absent => None,
        CookieVerdict::Malformed => None,
        CookieVerdict::Bare(cookie) => Some(cookie.create_response(now, address, secret)),
        CookieVerdict::Wrong(cookie) => Some(cookie.create_response(now, address, secret)),
        CookieVerdict::Good(cookie) => Some(lasting(secret, now, address, cookie)),
    }
}

/// The seconds of a request, modulo 2^32.
fn now_of<Meta>(request: &Request<Meta>) -> Serial
    ensures { result.0 ≡ request.now.received_secs % 2 ^ 32 }
{
    Serial((request.received_secs() % 4294967296) as u32)
}

/// The cookie of the replies to a request, if there is a secret.
pub(crate) fn cookie_for<Meta>(secret: &Option<[u8; 16]>, request: &Request<Meta>) -> Option<Cookie>
    ensures { result ≡ cookie_for secret.now request.now }
{
    match secret {
        Some(secret) => {
            let verdict = cookie_verdict_of(secret, request);
            reply_cookie(secret, now_of(request), request.client_addr().ip, verdict)
        }
        None => None,
    }
}
