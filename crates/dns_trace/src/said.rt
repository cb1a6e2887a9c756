//! What lines of settings said.

ghost use Rattle.std.specs.Prelude.{◌≡◌, ◌++◌, ◌∷◌, [], Some, OnErr, OnOk};
ghost use Rattle.dns_trace.specs.Said.{nothing_said, settings_said};

use crate::budget_line::{Budget, with_budget};
use crate::trace_settings::TraceSettings;
use dns_events::{DgramConfig, Settings, StreamConfig};
use dns_name::{Addrs, IpAddr, OutOfMemory};
use std::alloc::Global;
use std::marker::Model;

/// Each value that a line said, and the addresses that are denied.
#[derive(Drop)]
pub struct SaidSettings {
    strict: Option<bool>,
    edns: Option<bool>,
    secret: Option<[u8; 16]>,
    denied: Vec<IpAddr>,
    dgram: Option<DgramConfig>,
    stream: Option<StreamConfig>,
    budget: Option<Budget>,
}

impl Model for SaidSettings {
    ghost use Rattle.dns_trace.specs.Said.{Said};

    ghost Value = { Said };

    ghost view = { λ s. record {
      strict = s.strict;
      edns = s.edns;
      secret = s.secret;
      denied = s.denied.items;
      dgram = s.dgram;
      stream = s.stream;
      budget = s.budget;
    } };
}

impl SaidSettings {
    /// Settings of which no line said anything.
    pub fn new(alloc: Global) -> SaidSettings
        ensures { result ≡ nothing_said }
    {
        SaidSettings {
            strict: None,
            edns: None,
            secret: None,
            denied: Vec::new(alloc),
            dgram: None,
            stream: None,
            budget: None,
        }
    }

    /// Says whether faulty queries are refused.
    pub fn set_strict(&mut self, strict: bool)
        ensures { self.new ≡ record self.old { strict = Some strict } }
    {
        self.strict = Some(strict);
    }

    /// Says whether EDNS is on.
    pub fn set_edns(&mut self, edns: bool)
        ensures { self.new ≡ record self.old { edns = Some edns } }
    {
        self.edns = Some(edns);
    }

    /// Says that cookies are on, under this secret.
    pub fn set_secret(&mut self, secret: [u8; 16])
        ensures { self.new ≡ record self.old { secret = Some secret } }
    {
        self.secret = Some(secret);
    }

    /// One address more that is denied. After memory ran out what was said is as before.
    pub fn deny(&mut self, address: IpAddr) -> Result<(), OutOfMemory>
        ensures ok { OnOk result (self.new ≡ record self.old { denied = self.old.denied ++ address ∷ [] }) }
        ensures err { OnErr result (self.new ≡ self.old) }
    {
        self.denied.push(address)?;
        Ok(())
    }

    /// The configuration of the datagram server.
    pub fn set_dgram(&mut self, dgram: DgramConfig)
        ensures { self.new ≡ record self.old { dgram = Some dgram } }
    {
        self.dgram = Some(dgram);
    }

    /// The configuration of the stream server.
    pub fn set_stream(&mut self, stream: StreamConfig)
        ensures { self.new ≡ record self.old { stream = Some stream } }
    {
        self.stream = Some(stream);
    }

    /// The budget of each connection.
    pub fn set_budget(&mut self, budget: Budget)
        ensures { self.new ≡ record self.old { budget = Some budget } }
    {
        self.budget = Some(budget);
    }

    /// Whether faulty queries are refused, if it is said.
    pub fn strict(&self) -> Option<bool>
        ensures { result ≡ self.now.strict }
    {
        self.strict
    }

    /// Whether EDNS is on, if it is said.
    pub fn edns(&self) -> Option<bool>
        ensures { result ≡ self.now.edns }
    {
        self.edns
    }

    /// The secret of cookies, if they are on.
    pub fn secret(&self) -> Option<[u8; 16]>
        ensures { result ≡ self.now.secret }
    {
        self.secret
    }

    /// The configuration of the datagram server, if it is set.
    pub fn dgram(&self) -> Option<DgramConfig>
        ensures { result ≡ self.now.dgram }
    {
        self.dgram
    }

    /// The configuration of the stream server, if it is set.
    pub fn stream(&self) -> Option<StreamConfig>
        ensures { result ≡ self.now.stream }
    {
        self.stream
    }

    /// The budget of each connection, if it is said.
    pub fn budget(&self) -> Option<Budget>
        ensures { result ≡ self.now.budget }
    {
        self.budget
    }

    /// The settings: strict, with EDNS and the default configurations if nothing else is said.
    pub fn into_settings(self) -> TraceSettings
        ensures { result ≡ settings_said self }
    {
        let SaidSettings {
            strict,
            edns,
            secret,
            denied,
            dgram,
            stream,
            budget,
        } = self;
        Settings {
            strict: strict.unwrap_or(true),
            edns: edns.unwrap_or(true),
            cookies: secret,
            denied: Addrs::from_vec(denied),
            dgram: dgram.unwrap_or(DgramConfig::new()),
            stream: with_budget(budget, stream.unwrap_or(StreamConfig::new())),
        }
    }
}
