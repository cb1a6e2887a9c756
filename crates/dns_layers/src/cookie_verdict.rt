//! How a request's cookie is taken, and which requests the cookie layer answers by itself (RFC 7873, section 5.2).

ghost use Rattle.std.specs.Prelude.{◌≡◌, ◌%◌, ◌^◌, ◌&&◌, ◌||◌, take, nat_le, if◌then◌else◌};
ghost use Rattle.std.specs.List.{list_any};
ghost use Rattle.dns_service.specs.declared.message.Request.{Request};
ghost use Rattle.dns_service.specs.Asked.{asked_of};
ghost use Rattle.dns_layers.specs.Cookies.{cookie_answer, denied_over, is_good, own_answer, same_address, sent_verdict, verdict_by};

use dns_cookie::{Cookie, timestamp_ok};
use dns_name::{IpAddr, OptRcode, Rcode, Serial};
use dns_service::{Asked, AskedCookie, Request, TransportSpecificContext};

/// How a request's cookie is taken.
#[derive(Clone, Copy, Debug)]
pub enum CookieVerdict {
    /// The request has no cookie.
    Absent,
    /// The request's cookie can't be read.
    Malformed,
    /// The request has a client cookie alone.
    Bare(Cookie),
    /// The server made it for this client, and lately.
    Good(Cookie),
    /// The request's server cookie isn't one that this server made for this client lately.
    Wrong(Cookie),
}

/// An answer of the cookie layer's own.
#[derive(Clone, Copy, Debug)]
pub enum CookieAnswer {
    /// The header alone, truncated or not.
    HeaderAlone { rcode: Rcode, tc: bool },
    /// An answer with a new cookie, made of the client part of this one.
    Fresh { rcode: OptRcode, cookie: Cookie },
}

/// The seconds of a request, modulo 2^32.
pub(crate) fn now_of<Meta>(request: &Request<Meta>) -> Serial
    ensures { result.0 ≡ request.now.received_secs % 2 ^ 32 }
{
    Serial((request.received_secs() % 4294967296) as u32)
}

/// How the first cookie of a request is taken.
pub(crate) fn verdict_by(
    secret: &[u8; 16],
    address: IpAddr,
    now: Serial,
    cookie: AskedCookie,
) -> CookieVerdict
    ensures { result ≡ verdict_by secret.now address now.0 cookie }
{
    match cookie {
        AskedCookie::NoCookie => CookieVerdict::Absent,
        AskedCookie::Unreadable => CookieVerdict::Malformed,
        AskedCookie::Sent(cookie) => match cookie.server() {
            None => CookieVerdict::Bare(cookie),
            Some(_) => {
                if is_good(secret, address, now, &cookie) {
                    CookieVerdict::Good(cookie)
                } else {
                    CookieVerdict::Wrong(cookie)
                }
            }
        },
    }
}

/// Whether a server takes a cookie as its own.
fn is_good(secret: &[u8; 16], address: IpAddr, now: Serial, cookie: &Cookie) -> bool
    ensures { result ≡ is_good secret.now address now.0 cookie.now }
{
    cookie.check_server_hash(address, secret, |timestamp| timestamp_ok(timestamp, now))
}

/// What the layer answers by itself. It depends on how the cookie is taken, and whether the request has no question. It depends on
/// whether it is a datagram from a denied address.
fn own_answer(verdict: CookieVerdict, unasked: bool, denied: bool) -> Option<CookieAnswer>
    ensures { result ≡ own_answer verdict unasked denied }
{
    match verdict {
        CookieVerdict::Absent => {
            if denied {
                Some(CookieAnswer::HeaderAlone {
                    rcode: Rcode::REFUSED,
                    tc: true,
                })
            } else {
                None
            }
        }
        CookieVerdict::Malformed => Some(CookieAnswer::HeaderAlone {
            rcode: Rcode::FORMERR,
            tc: false,
        }),
        CookieVerdict::Good(cookie) => fresh_where(unasked, OptRcode::NOERROR, cookie),
        CookieVerdict::Bare(cookie) => {
            if unasked {
                fresh_where(true, OptRcode::NOERROR, cookie)
            } else {
                fresh_where(denied, OptRcode::BADCOOKIE, cookie)
            }
        }
        CookieVerdict::Wrong(cookie) => {
            fresh_where(unasked || denied, OptRcode::BADCOOKIE, cookie)
        }
    }
}

/// An answer with a new cookie if it is wanted.
fn fresh_where(wanted: bool, rcode: OptRcode, cookie: Cookie) -> Option<CookieAnswer>
    ensures { result ≡ (if wanted then Some (CookieAnswer.Fresh rcode cookie) else None) }
{
    if wanted {
        Some(CookieAnswer::Fresh { rcode, cookie })
    } else {
        None
    }
}

/// Whether an address is among some.
fn is_among(addresses: &[IpAddr], address: IpAddr) -> bool
    ensures { result ≡ list_any (same_address address) addresses.now }
{
    addresses.contains(&address)
}

/// Whether a request is a datagram from an address that is denied.
fn denied_over(transport: &TransportSpecificContext, denied: &[IpAddr], address: IpAddr) -> bool
    ensures { result ≡ denied_over transport.now denied.now address }
{
    match transport {
        TransportSpecificContext::Udp(_) => is_among(denied, address),
        TransportSpecificContext::NonUdp(_) => false,
    }
}

/// The layer's own answer to a request with a readable cookie, if any. Without a question, denied addresses don't
/// matter. If there is one, only a denied address may get an answer, so that for others no hash is computed.
#[tactic(auto, using(crate::proofs::CookieLaws::unasked_alone, crate::proofs::CookieLaws::passes_undenied))]
fn sent_answer(
    secret: &[u8; 16],
    denied: &[IpAddr],
    transport: &TransportSpecificContext,
    address: IpAddr,
    now: Serial,
    cookie: Cookie,
    unasked: bool,
) -> Option<CookieAnswer>
    ensures { result ≡ own_answer (sent_verdict cookie cookie.server (is_good secret.now address now.0 cookie)) unasked
        (denied_over transport.now denied.now address) }
{
    if unasked {
        let verdict = verdict_by(secret, address, now, AskedCookie::Sent(cookie));
        return own_answer(verdict, unasked, false);
    }
    let is_denied = denied_over(transport, denied, address);
    if is_denied {
        let verdict = verdict_by(secret, address, now, AskedCookie::Sent(cookie));
        return own_answer(verdict, unasked, is_denied);
    }
    None
}

/// What the layer answers by itself, by the first cookie of a request. The hash of the cookie and the addresses that are denied
/// are looked at only if the answer depends on them.
fn answer_by(
    secret: &[u8; 16],
    denied: &[IpAddr],
    transport: &TransportSpecificContext,
    address: IpAddr,
    now: Serial,
    cookie: AskedCookie,
    unasked: bool,
) -> Option<CookieAnswer>
    ensures { result ≡ own_answer (verdict_by secret.now address now.0 cookie) unasked (denied_over transport.now denied.now address) }
{
    match cookie {
        AskedCookie::NoCookie => {
            let denied = denied_over(transport, denied, address);
            own_answer(CookieVerdict::Absent, unasked, denied)
        }
        AskedCookie::Unreadable => own_answer(CookieVerdict::Malformed, unasked, false),
        AskedCookie::Sent(cookie) => {
            sent_answer(secret, denied, transport, address, now, cookie, unasked)
        }
    }
}

/// What the layer answers a request by itself, if this was read of the request.
pub(crate) fn cookie_answer<Meta>(
    secret: &[u8; 16],
    denied: &[IpAddr],
    request: &Request<Meta>,
    asked: &Asked,
) -> Option<CookieAnswer>
    requires { asked.now ≡ asked_of request.now.octets }
    ensures { result ≡ cookie_answer secret.now denied.now request.now }
{
    answer_by(
        secret,
        denied,
        request.transport_ctx(),
        request.client_addr().ip,
        now_of(request),
        asked.opt.cookie(),
        asked.qdcount == 0,
    )
}
