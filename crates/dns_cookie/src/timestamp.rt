//! Timestamps of server cookies (RFC 9018, section 4.3).

ghost use Rattle.std.specs.Prelude.{◌≡◌, ◌↔◌, IsTrue};
ghost use Rattle.dns_cookie.specs.Cookies.{IsTimely};

use dns_name::Serial;

/// Whether a server takes a cookie of this timestamp: it is at most one hour old and at most five
/// minutes ahead of `now`, both in seconds modulo 2^32.
pub fn timestamp_ok(timestamp: Serial, now: Serial) -> bool
    ensures { IsTrue result ↔ IsTimely timestamp.0 now.0 }
{
    let after_last_hour = timestamp.add(3600).into_int().wrapping_sub(now.into_int());
    after_last_hour <= 3900
}
