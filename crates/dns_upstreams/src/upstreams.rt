//! The upstreams of a forwarding proxy.

ghost use Rattle.std.specs.Prelude.{◌≡◌, ◌∷◌, ◌++◌, [], IfOk, OnErr, OnOk};
ghost use Rattle.std.specs.Option.{option_copied};
ghost use Rattle.dns_base.specs.Sections.{first_of, questions_of};
ghost use Rattle.dns_upstreams.specs.Upstreams.{asked_server, servers_for};

use crate::servers::Servers;
use dns_lookup::UpstreamConfig;
use dns_message::MessageRef;
use dns_name::{Name, OutOfMemory};
use dns_routes::{Routes, Seed};
use std::alloc::Global;

/// Servers under names, of which the deepest that ends a question's counts, up to ASCII case, and of one name those that were added
/// last; and the servers of the root, which are asked for all other names.
#[derive(Drop)]
pub struct Upstreams {
    root: Servers,
    routes: Routes<Servers>,
}

impl Upstreams {
    /// The servers of the root alone. Names are hashed from the seed.
    pub fn new(alloc: Global, seed: Seed, root: Servers) -> Upstreams
        ensures { result ≡ record { root = root; routes = [] } }
    {
        Upstreams {
            root,
            routes: Routes::new(alloc, seed),
        }
    }

    /// Adds the servers of a name after the others. A refused call leaves them.
    pub fn add(&mut self, alloc: Global, name: Name, servers: Servers) -> Result<(), OutOfMemory>
        ensures ok { OnOk result (self.new ≡ record self.old { routes = self.old.routes ++ (name, servers) ∷ [] }) }
        ensures err { OnErr result (self.new ≡ self.old) }
    {
        self.routes.add(alloc, name, servers)
    }

    /// The servers for a message: those of the deepest name that ends its first question's, or else of the root.
    fn servers_for(&self, alloc: Global, message: &MessageRef<'_>) -> Result<&Servers, OutOfMemory>
        ensures { IfOk result (λ s. s.now ≡ servers_for self.now.root self.now.routes (first_of (questions_of message.now).0)) }
    {
        match message.first_question() {
            Some(question) => match self.routes.for_name(alloc, &question.qname())? {
                Some(servers) => Ok(servers),
                None => Ok(&self.root),
            },
            None => Ok(&self.root),
        }
    }

    /// The server that is asked for a datagram, of its servers that of a number. None if it is no query: a response, to which
    /// nothing is ever sent, or too short for a header.
    pub fn asked_server(
        &self,
        alloc: Global,
        datagram: &[u8],
        number: u64,
    ) -> Result<Option<UpstreamConfig>, OutOfMemory>
        ensures { IfOk result (λ s. s ≡ asked_server self.now.root self.now.routes number datagram.now) }
    {
        let Ok(message) = MessageRef::from_slice(datagram) else {
            return Ok(None);
        };
        if message.header().qr {
            return Ok(None);
        }
        let servers = self.servers_for(alloc, &message)?;
        Ok(Some(servers.at(number)))
    }
}
