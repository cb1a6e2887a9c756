//! Hashes and checks of server cookies.

ghost use Rattle.std.specs.Prelude.{◌≤◌};

use dns_cookie::{ClientCookie, Cookie, ServerCookie, siphash24, timestamp_ok};
use dns_name::{IpAddr, Serial};

/// The key of RFC 9018, appendix A.1.
const SECRET: [u8; 16] = *b"\xe5\xe9\x73\xe5\xa6\xb2\xa4\x3f\x48\xe7\xdc\x84\x9e\x37\xbf\xcf";

/// The last of that many hashes of that many octets, before each of which the hash before it is written over the first eight.
pub(crate) fn hash_chain(len: usize, count: u64) -> u64
    requires least { 8 ≤ len }
    requires most { len ≤ 64 }
{
    let mut octets = [0u8; 64];
    let mut hash = 0u64;
    for _i in 0..count {
        octets[..8].copy_from_slice(&hash.to_le_bytes());
        hash = siphash24(&SECRET, &octets[..len]);
    }
    hash
}

/// The cookie of RFC 9018, appendix A.1, or that of appendix A.3.
pub(crate) fn cookie(is_third: bool) -> Cookie {
    let (client, server) = if is_third {
        (
            b"\xfc\x93\xfc\x62\x80\x7d\xdb\x86",
            b"\x01\xab\xcd\xef\x5c\xf7\x8f\x71\xa3\x14\x22\x7b\x66\x79\xeb\xf5",
        )
    } else {
        (
            b"\x24\x64\xc4\xab\xcf\x10\xc9\x57",
            b"\x01\x00\x00\x00\x5c\xf7\x9f\x11\x1f\x81\x30\xc3\xee\xe2\x94\x80",
        )
    };
    Cookie::new(
        ClientCookie::from_octets(*client),
        Some(ServerCookie::from_octets(server)),
    )
}

/// How many of that many checks of two cookies in turn agree, which is all of them.
pub(crate) fn checks(count: u64) -> u64 {
    let comings = [
        (
            cookie(false),
            IpAddr::V4([198, 51, 100, 100]),
            Serial(1559731985),
        ),
        (
            cookie(true),
            IpAddr::V4([203, 0, 113, 203]),
            Serial(1559727985),
        ),
    ];
    let mut agreed = 0u64;
    for i in 0..count {
        let (cookie, address, now) = comings[(i % 2) as usize];
        let holds = cookie.check_server_hash(address, &SECRET, |stamp| timestamp_ok(stamp, now));
        agreed = agreed.wrapping_add(u64::from(holds));
    }
    agreed
}
