//! The settings of a server.

ghost use Rattle.std.specs.Prelude.{◌≡◌, true, None, [], IfOk};
ghost use Rattle.dns_events.specs.Config.{default_dgram, default_stream};

use crate::config::{DgramConfig, StreamConfig};
use dns_name::{Addrs, OutOfMemory};
use std::alloc::Global;
use std::fmt;

/// The settings of a server. The secret of server cookies has 16 octets (RFC 9018, section 4), which Debug doesn't show.
#[derive(Drop)]
pub struct Settings {
    /// Whether faulty queries are refused.
    pub strict: bool,
    /// Whether EDNS is on (RFC 6891).
    pub edns: bool,
    /// The secret of server cookies, if they are on (RFC 7873).
    pub cookies: Option<[u8; 16]>,
    /// The addresses that are denied service without a cookie.
    pub denied: Addrs,
    pub dgram: DgramConfig,
    pub stream: StreamConfig,
}

impl Settings {
    /// Strict, with EDNS and without cookies, nobody denied, and the default configurations.
    pub fn new(alloc: Global) -> Settings
        ensures { result ≡ record {
          strict = true;
          edns = true;
          cookies = None;
          denied = [];
          dgram = default_dgram;
          stream = default_stream;
        } }
    {
        Settings {
            strict: true,
            edns: true,
            cookies: None,
            denied: Addrs::from_vec(Vec::new(alloc)),
            dgram: DgramConfig::new(),
            stream: StreamConfig::new(),
        }
    }

    /// A copy in memory of its own, secret and denied addresses included.
    pub fn try_clone(&self, alloc: Global) -> Result<Settings, OutOfMemory>
        ensures { IfOk result (λ s. s ≡ self.now) }
    {
        let denied = Vec::from_slice(alloc, self.denied.as_slice())?;
        Ok(Settings {
            strict: self.strict,
            edns: self.edns,
            cookies: self.cookies,
            denied: Addrs::from_vec(denied),
            dgram: self.dgram,
            stream: self.stream,
        })
    }
}

impl fmt::Debug for Settings {
    fn fmt<W: fmt::Write>(&self, f: &mut fmt::Formatter<W>) -> fmt::Result {
        let cookies = self.cookies.is_some();
        f.debug_struct("Settings")
            .field("strict", &self.strict)
            .field("edns", &self.edns)
            .field("cookies", &cookies)
            .field("denied", &self.denied)
            .field("dgram", &self.dgram)
            .field("stream", &self.stream)
            .finish()
    }
}
