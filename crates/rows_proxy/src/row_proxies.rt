//! Proxies of rows.

use dns_cache::Cache;
use dns_fronts::{CachedFront, Network, ServerFront};
use dns_name::{Addrs, IpAddr, SocketAddr};
use dns_proxy::{Proxy, UpstreamConfig};
use dns_service::{DgramConfig, Settings};
use rows_table::{Row, RowError};

/// The upstream that is asked: 192.0.2.53, port 53, three times, each 1,000 ms after the one before.
pub(crate) const UPSTREAM: UpstreamConfig = UpstreamConfig {
    addr: SocketAddr {
        ip: IpAddr::V4([192, 0, 2, 53]),
        port: 53,
    },
    tries: 3,
    timeout: 1000,
};

/// The sender of each client's datagram.
pub(crate) const CLIENT: SocketAddr = SocketAddr {
    ip: IpAddr::V4([192, 0, 2, 1]),
    port: 5353,
};

/// A proxy by some settings and networks that need a cookie, of as many queries and replies in the cache as the next words say.
pub(crate) fn next_proxy(
    row: &mut Row<'_>,
    settings: Settings,
    required: Vec<Network>,
) -> Result<Proxy<ServerFront<CachedFront>>, RowError> {
    let bound: usize = row.number();
    let capacity: usize = row.number();
    match Cache::new(row.alloc(), capacity) {
        Ok(cache) => {
            let front = ServerFront::new(settings, required, cache);
            Ok(Proxy::new(row.alloc(), front, DgramConfig::new(), bound))
        }
        Err(_) => Err(RowError::OutOfMemory),
    }
}

/// Settings with cookies of the secret of the next word.
pub(crate) fn next_secret(row: &mut Row<'_>) -> Settings {
    let mut settings = Settings::new(row.alloc());
    settings.cookies = Some(row.array());
    settings
}

/// A network of the address and the bits of the next words.
pub(crate) fn next_network(row: &mut Row<'_>) -> Vec<Network> {
    let mut required = Vec::new(row.alloc());
    let address = row.address();
    let bits: u8 = row.number();
    row.keep(required.push(Network { address, bits }));
    required
}

/// Settings with cookies of the secret of the next word, by which the client's address has to have one.
pub(crate) fn next_cookies(row: &mut Row<'_>) -> Settings {
    let mut settings = next_secret(row);
    let mut denied = Vec::new(row.alloc());
    row.keep(denied.push(CLIENT.ip));
    settings.denied = Addrs::from_vec(denied);
    settings
}
