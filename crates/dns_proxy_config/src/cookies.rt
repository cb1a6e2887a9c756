//! Cookies of a proxy.

ghost use Rattle.std.specs.Prelude.{◌≡◌, [], option_map};
ghost use Rattle.dns_proxy_config.specs.Proxies.{required_of, server_cookies};

use dns_config::{AddressList, Cookies, Prefix, Secret};
use serde::Deserialize;
use std::alloc::Global;

/// Cookies (RFC 7873): the secret of the server's, and who needs a good one over UDP.
#[derive(Drop, Deserialize)]
#[serde(deny_unknown_fields)]
pub(crate) struct CookieKeys {
    secret: Secret,
    /// Addresses that need one.
    deny: Option<AddressList>,
    /// Networks that need one.
    #[serde(default)]
    require: Vec<Prefix>,
}

/// The cookies that a name server has too, and the networks that need one.
pub(crate) fn cookies_of(alloc: Global, keys: Option<CookieKeys>) -> (Option<Cookies>, Vec<Prefix>)
    ensures cookies { result.0 ≡ option_map server_cookies keys }
    ensures required { result.1.items ≡ required_of keys }
{
    match keys {
        Some(
            CookieKeys {
                secret,
                deny,
                require,
            },
        ) => (Some(Cookies { secret, deny }), require),
        None => (None, Vec::new(alloc)),
    }
}
