//! The server cookie of replies (RFC 7873, section 5.2; RFC 9018, section 4.3).

ghost use Rattle.std.specs.Prelude.{◌≡◌};
ghost use Rattle.dns_reply_options.specs.ServerCookies.{cookie_for, is_recent, lasting};

use dns_cookie::Cookie;
use dns_layers::{CookieVerdict, cookie_verdict_of};
use dns_name::{IpAddr, Serial};
use dns_service::Request;

/// How many seconds an hour has.
const HOUR: u32 = 3_600;

/// How many seconds half an hour has, after which a server cookie is replaced.
const HALF_HOUR: u32 = 1_800;

/// Whether a cookie has a server cookie of version 1 that is no more than half an hour old.
fn is_recent(cookie: &Cookie, now: Serial) -> bool
    ensures { result ≡ is_recent now.0 cookie.now }
{
    let Some(server) = cookie.server() else {
        return false;
    };
    match server.try_to_standard() {
        Some(standard) => {
            let timestamp = standard.timestamp().add(HOUR).into_int();
            standard.version() == 1 && timestamp.wrapping_sub(now.into_int()) >= HALF_HOUR
        }
        None => false,
    }
}

/// A good cookie while it is recent, and else a new one of its client part.
fn lasting(secret: &[u8; 16], now: Serial, address: IpAddr, cookie: Cookie) -> Cookie
    ensures { result ≡ lasting secret.now now.0 address cookie }
{
    if is_recent(&cookie, now) {
        return cookie;
    }
    cookie.create_response(now, address, secret)
}

/// The cookie of the replies to a request, if there is a secret and the request has a cookie that can be read.
pub(crate) fn cookie_for(secret: &Option<[u8; 16]>, request: &Request<()>) -> Option<Cookie>
    ensures { result ≡ cookie_for secret.now request.now }
{
    let Some(secret) = secret else {
        return None;
    };
    let now = Serial((request.received_secs() % 4294967296) as u32);
    let address = request.client_addr().ip;
    match cookie_verdict_of(secret, request) {
        CookieVerdict::Absent => None,
        CookieVerdict::Malformed => None,
        CookieVerdict::Bare(cookie) => Some(cookie.create_response(now, address, secret)),
        CookieVerdict::Wrong(cookie) => Some(cookie.create_response(now, address, secret)),
        CookieVerdict::Good(cookie) => Some(lasting(secret, now, address, cookie)),
    }
}
