//! Laws over several calls.

ghost use Rattle.std.specs.Prelude.{◌≡◌, ◌↔◌, ◌<◌, ◌^◌, IsTrue, Bool, List, ℕ};
ghost use Rattle.std.specs.Cmp.Lexicographic.{slice_cmp};
ghost use Rattle.std.specs.Ordering.{nat_cmp};
ghost use Rattle.dns_cookie.specs.ClientCookie.{client_octets};
ghost use Rattle.dns_cookie.specs.declared.client_cookie.ClientCookie.{ClientCookie as Client};
ghost use Rattle.dns_cookie.specs.Cookies.{Checks, Cookie as Parts, IsGood, IsTimely, cookie_cmp, response};
ghost use Rattle.dns_name.specs.declared.address.IpAddr.{IpAddr as Address};

use crate::client_cookie::ClientCookie;
use crate::cookie::Cookie;
use crate::server_cookie::ServerCookie;
use crate::standard_server_cookie::StandardServerCookie;
use crate::timestamp::timestamp_ok;
use dns_name::{IpAddr, Serial};

/// With `timestamp_ok` a check is true exactly if the server part is a standard server cookie that
/// is timely at `now` and whose hash agrees.
pub fn check_at(cookie: &Cookie, client_ip: IpAddr, secret: &[u8; 16], now: Serial) -> bool
    ensures { IsTrue result ↔ IsGood secret.now client_ip now.0 cookie.now }
{
    cookie.check_server_hash(client_ip, secret, |timestamp| timestamp_ok(timestamp, now))
}

/// The cookie of a response is checked for the same address under the same secret. It checks true exactly if the closure accepts
/// its timestamp, and is good exactly as long as that is timely.
pub fn responses_check<F: FnOnce(Serial) -> bool>()
    ensures check { (f : F) (secret : List ℕ) (c : Parts) (timestamp : ℕ) (address : Address) (result : Bool) → timestamp < 2 ^ 32
        → Checks (F.post f) secret address (response secret c timestamp address) result ↔ F.post f (record { 0 = timestamp }) result }
    ensures good { (secret : List ℕ) (c : Parts) (timestamp now : ℕ) (address : Address) → timestamp < 2 ^ 32
        → IsGood secret address now (response secret c timestamp address) ↔ IsTimely timestamp now }
{}

/// Cookies are ordered by their octets.
pub fn order_is_that_of_octets()
    ensures client { (a b : Client) → ⟦<ClientCookie as Ord>⟧.cmp a b ≡ slice_cmp nat_cmp (client_octets a) (client_octets b) }
    ensures server { (a b : List ℕ) → ⟦<ServerCookie as Ord>⟧.cmp a b ≡ slice_cmp nat_cmp a b }
    ensures standard { (a b : List ℕ) → ⟦<StandardServerCookie as Ord>⟧.cmp a b ≡ slice_cmp nat_cmp a b }
    ensures cookie { (a b : Parts) → ⟦<Cookie as Ord>⟧.cmp a b ≡ cookie_cmp a b }
{}
