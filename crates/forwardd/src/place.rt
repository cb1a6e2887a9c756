//! Queries that are asked of upstreams.

ghost use Rattle.std.specs.Prelude.{◌≡◌, None};

use crate::client::Client;
use dns_upstreams::UpstreamConfig;

/// What was drawn at random for a query: the identifier under which it is asked, and which of the servers is asked.
#[derive(Clone, Copy)]
pub(crate) struct Drawn {
    pub(crate) id: u16,
    pub(crate) number: u64,
}

/// A query: its client, the server that it is asked of, what was drawn for it, and the port from which it is asked, if any.
#[derive(Clone, Copy)]
pub(crate) struct Place {
    pub(crate) client: Client,
    pub(crate) server: UpstreamConfig,
    pub(crate) drawn: Drawn,
    pub(crate) port: Option<usize>,
}

impl Place {
    /// A query that is asked from no port yet.
    pub(crate) fn new(client: Client, server: UpstreamConfig, drawn: Drawn) -> Place
        ensures { result ≡ record { client = client; server = server; drawn = drawn; port = None } }
    {
        Place {
            client,
            server,
            drawn,
            port: None,
        }
    }
}
