//! The servers of an upstream.

ghost use Rattle.std.specs.Prelude.{◌≡◌, ◌∷◌, ◌++◌, [], Some, OnOk, OnErr};
ghost use Rattle.dns_upstreams.specs.Upstreams.{server_at};

use dns_lookup::UpstreamConfig;
use dns_name::OutOfMemory;
use std::alloc::Global;
use std::marker::Model;

/// The servers of an upstream, of which there is at least one. Contracts see them in the order in which they were added.
#[derive(Drop)]
pub struct Servers {
    first: UpstreamConfig,
    others: Vec<UpstreamConfig>,
}

impl Model for Servers {
    ghost use Rattle.std.specs.Prelude.{List, ◌∷◌};
    ghost use Rattle.dns_lookup.specs.declared.lookup_event.UpstreamConfig.{UpstreamConfig};

    ghost Value = { List UpstreamConfig };

    ghost view = { λ s. s.first ∷ s.others.items };
}

impl Servers {
    /// One server.
    pub fn new(alloc: Global, first: UpstreamConfig) -> Servers
        ensures { result ≡ first ∷ [] }
    {
        Servers {
            first,
            others: Vec::new(alloc),
        }
    }

    /// Adds a server after the others. A refused call leaves them.
    pub fn add(&mut self, server: UpstreamConfig) -> Result<(), OutOfMemory>
        ensures ok { OnOk result (self.new ≡ self.old ++ server ∷ []) }
        ensures err { OnErr result (self.new ≡ self.old) }
    {
        self.others.push(server)?;
        Ok(())
    }

    /// The server of a number, if they are counted again and again from the first. Who draws the number at random asks each as
    /// often as the others.
    pub fn at(&self, number: u64) -> UpstreamConfig
        ensures { Some result ≡ server_at number self.now }
    {
        let count = self.others.len() as u64 + 1;
        let index = (number % count) as usize;
        if index == 0 {
            return self.first;
        }
        self.others[index - 1]
    }
}
