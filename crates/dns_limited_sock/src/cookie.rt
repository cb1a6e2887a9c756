//! The cookie of a request.

ghost use Rattle.std.specs.Prelude.{◌↔◌, IsTrue};
ghost use Rattle.dns_limited_sock.specs.GoodCookies.{HasGoodCookie};

use dns_base::{MessageRef, Serial};
use dns_cookie::check_at;
use dns_name::IpAddr;
use dns_opt::opt_of;

/// Whether the first cookie of a request is one that a server with this secret takes as its own at a second.
pub fn has_good_cookie(
    request: &MessageRef<'_>,
    secret: &[u8; 16],
    address: IpAddr,
    second: u64,
) -> bool
    ensures { IsTrue result ↔ HasGoodCookie request.now secret.now address second }
{
    let Some(record) = opt_of(request) else {
        return false;
    };
    match record.opt().cookie() {
        Some(cookie) => {
            let now = Serial((second % 4_294_967_296) as u32);
            check_at(&cookie, address, secret, now)
        }
        None => false,
    }
}
