//! The configurations of the servers. Each setter limits its value to a range.
ghost use Rattle.std.specs.Prelude.{◌≡◌, ◌≤◌};
ghost use Rattle.dns_events.specs.Config.{in_range, limited_size, limited_budget, IsBetween, IsResponseSize, IsBudget, Dgram, Connection, Stream, IsDgram, IsConnection, IsStream, default_dgram, default_connection, default_stream};

use std::marker::Model;

/// The configuration of a datagram server.
#[derive(Clone, Copy, Debug, PartialEq, Eq)]
pub struct DgramConfig {
    max_response_size: Option<u16>,
    write_timeout: u64,
}

impl Model for DgramConfig {
    ghost Value = { Dgram };

    ghost view = { λ c. record { max_response_size = c.max_response_size; write_timeout = c.write_timeout } };

    ghost invariant = { λ c. IsResponseSize c.max_response_size × IsBetween 1 60000 c.write_timeout };

    ghost inverse = { λ d. record { max_response_size = d.max_response_size; write_timeout = d.write_timeout } };
}

impl DgramConfig {
    /// Responses of at most 1,232 octets, and 5 s for a write.
    pub fn new() -> Self
        ensures { result ≡ default_dgram }
    {
        DgramConfig {
            max_response_size: Some(1232),
            write_timeout: 5_000,
        }
    }

    /// The largest response in octets, from 512 to 4,096, or none but the client's (RFC 6891 6.2.3).
    pub fn set_max_response_size(&mut self, size: Option<u16>)
        ensures { self.new ≡ record self.old { max_response_size = limited_size size } }
    {
        self.max_response_size = size.map(|size| size.clamp(512, 4096));
    }

    /// The largest response in octets, if one is set.
    pub fn max_response_size(&self) -> Option<u16>
        ensures value { result ≡ self.now.max_response_size }
        ensures range { IsResponseSize result }
        ensures limits { IsDgram self.now }
    {
        self.max_response_size
    }

    /// How long a write may take, from 1 ms to 60,000 ms.
    pub fn set_write_timeout(&mut self, millis: u64)
        ensures { self.new ≡ record self.old { write_timeout = in_range 1 60000 millis } }
    {
        self.write_timeout = millis.clamp(1, 60_000);
    }

    /// How long a write may take, in milliseconds.
    pub fn write_timeout(&self) -> u64
        ensures value { result ≡ self.now.write_timeout }
        ensures range { IsBetween 1 60000 result }
        ensures limits { IsDgram self.now }
    {
        self.write_timeout
    }
}

impl Default for DgramConfig {
    ghost is_default = { λ d. d ≡ default_dgram };

    fn default() -> Self {
        DgramConfig::new()
    }
}

/// The configuration of one connection.
#[derive(Clone, Copy, Debug, PartialEq, Eq)]
pub struct ConnectionConfig {
    idle_timeout: u64,
    response_write_timeout: u64,
    max_queued_responses: usize,
    response_budget: Option<u32>,
    budget_window: u64,
}

impl Model for ConnectionConfig {
    ghost Value = { Connection };

    ghost view = { λ c. record {
      idle_timeout = c.idle_timeout;
      response_write_timeout = c.response_write_timeout;
      max_queued_responses = c.max_queued_responses;
      response_budget = c.response_budget;
      budget_window = c.budget_window;
    } };

    ghost invariant = { λ c. IsBetween 200 2592000000 c.idle_timeout × IsBetween 1 3600000 c.response_write_timeout
        × IsBetween 1 1024 c.max_queued_responses × IsBudget c.response_budget × IsBetween 1 3600000 c.budget_window };

    ghost inverse = { λ c. record {
      idle_timeout = c.idle_timeout;
      response_write_timeout = c.response_write_timeout;
      max_queued_responses = c.max_queued_responses;
      response_budget = c.response_budget;
      budget_window = c.budget_window;
    } };
}

impl ConnectionConfig {
    /// 30 s idle, 30 s for a write, ten responses that wait, and any number of them in a window of 1 s.
    pub fn new() -> Self
        ensures { result ≡ default_connection }
    {
        ConnectionConfig {
            idle_timeout: 30_000,
            response_write_timeout: 30_000,
            max_queued_responses: 10,
            response_budget: None,
            budget_window: 1_000,
        }
    }

    /// How long the connection may be idle, from 200 ms to 2,592,000,000 ms (RFC 7766 6.2.3).
    pub fn set_idle_timeout(&mut self, millis: u64)
        ensures { self.new ≡ record self.old { idle_timeout = in_range 200 2592000000 millis } }
    {
        self.idle_timeout = millis.clamp(200, 2_592_000_000);
    }

    /// How long the connection may be idle, in milliseconds.
    pub fn idle_timeout(&self) -> u64
        ensures value { result ≡ self.now.idle_timeout }
        ensures range { IsBetween 200 2592000000 result }
        ensures limits { IsConnection self.now }
    {
        self.idle_timeout
    }

    /// How long the write of a response may take, from 1 ms to 3,600,000 ms.
    pub fn set_response_write_timeout(&mut self, millis: u64)
        ensures { self.new ≡ record self.old { response_write_timeout = in_range 1 3600000 millis } }
    {
        self.response_write_timeout = millis.clamp(1, 3_600_000);
    }

    /// How long the write of a response may take, in milliseconds.
    pub fn response_write_timeout(&self) -> u64
        ensures value { result ≡ self.now.response_write_timeout }
        ensures range { IsBetween 1 3600000 result }
        ensures limits { IsConnection self.now }
    {
        self.response_write_timeout
    }

    /// How many responses may wait to be written, from 1 to 1,024.
    pub fn set_max_queued_responses(&mut self, count: usize)
        ensures { self.new ≡ record self.old { max_queued_responses = in_range 1 1024 count } }
    {
        self.max_queued_responses = count.clamp(1, 1024);
    }

    /// How many responses may wait to be written.
    pub fn max_queued_responses(&self) -> usize
        ensures value { result ≡ self.now.max_queued_responses }
        ensures range { IsBetween 1 1024 result }
        ensures limits { IsConnection self.now }
    {
        self.max_queued_responses
    }

    /// How many responses may be queued in one window of time, from 1 to 1,000,000, or any number.
    pub fn set_response_budget(&mut self, count: Option<u32>)
        ensures { self.new ≡ record self.old { response_budget = limited_budget count } }
    {
        self.response_budget = count.map(|count| count.clamp(1, 1_000_000));
    }

    /// How many responses may be queued in one window of time, if that is limited.
    pub fn response_budget(&self) -> Option<u32>
        ensures value { result ≡ self.now.response_budget }
        ensures range { IsBudget result }
        ensures limits { IsConnection self.now }
    {
        self.response_budget
    }

    /// How long a window of the budget is, from 1 ms to 3,600,000 ms.
    pub fn set_budget_window(&mut self, millis: u64)
        ensures { self.new ≡ record self.old { budget_window = in_range 1 3600000 millis } }
    {
        self.budget_window = millis.clamp(1, 3_600_000);
    }

    /// How long a window of the budget is, in milliseconds.
    pub fn budget_window(&self) -> u64
        ensures value { result ≡ self.now.budget_window }
        ensures range { IsBetween 1 3600000 result }
        ensures limits { IsConnection self.now }
    {
        self.budget_window
    }
}

impl Default for ConnectionConfig {
    ghost is_default = { λ c. c ≡ default_connection };

    fn default() -> Self {
        ConnectionConfig::new()
    }
}

/// The configuration of a stream server.
#[derive(Clone, Copy, Debug, PartialEq, Eq)]
pub struct StreamConfig {
    accept_connections_at_max: bool,
    max_concurrent_connections: usize,
    connection_config: ConnectionConfig,
}

impl Model for StreamConfig {
    ghost Value = { Stream };

    ghost view = { λ s. record {
      accept_connections_at_max = s.accept_connections_at_max;
      max_concurrent_connections = s.max_concurrent_connections;
      connection_config = s.connection_config;
    } };

    ghost invariant = { λ s. IsBetween 1 100000 s.max_concurrent_connections × IsConnection s.connection_config };

    ghost inverse = { λ s. record {
      accept_connections_at_max = s.accept_connections_at_max;
      max_concurrent_connections = s.max_concurrent_connections;
      connection_config = s.connection_config;
    } };
}

impl StreamConfig {
    /// At most 100 connections, others are accepted and turned away, and the default for each connection.
    pub fn new() -> Self
        ensures { result ≡ default_stream }
    {
        let connection_config = ConnectionConfig::new();
        let _within_limits = connection_config.idle_timeout();
        StreamConfig {
            accept_connections_at_max: true,
            max_concurrent_connections: 100,
            connection_config,
        }
    }

    /// Whether connections beyond the limit are accepted, to be turned away at once.
    pub fn set_accept_connections_at_max(&mut self, accepts: bool)
        ensures { self.new ≡ record self.old { accept_connections_at_max = accepts } }
    {
        self.accept_connections_at_max = accepts;
    }

    /// Whether connections beyond the limit are accepted, to be turned away at once.
    pub fn accept_connections_at_max(&self) -> bool
        ensures value { result ≡ self.now.accept_connections_at_max }
        ensures limits { IsStream self.now }
    {
        self.accept_connections_at_max
    }

    /// How many connections there may be at once, from 1 to 100,000.
    pub fn set_max_concurrent_connections(&mut self, count: usize)
        ensures { self.new ≡ record self.old { max_concurrent_connections = in_range 1 100000 count } }
    {
        self.max_concurrent_connections = count.clamp(1, 100_000);
    }

    /// How many connections there may be at once.
    pub fn max_concurrent_connections(&self) -> usize
        ensures value { result ≡ self.now.max_concurrent_connections }
        ensures range { IsBetween 1 100000 result }
        ensures limits { IsStream self.now }
    {
        self.max_concurrent_connections
    }

    /// What each new connection gets.
    pub fn set_connection_config(&mut self, connection_config: ConnectionConfig)
        ensures { self.new ≡ record self.old { connection_config = connection_config } }
    {
        let _within_limits = connection_config.idle_timeout();
        self.connection_config = connection_config;
    }

    /// What each new connection gets.
    pub fn connection_config(&self) -> ConnectionConfig
        ensures value { result ≡ self.now.connection_config }
        ensures limits { IsStream self.now }
    {
        self.connection_config
    }
}

impl Default for StreamConfig {
    ghost is_default = { λ s. s ≡ default_stream };

    fn default() -> Self {
        StreamConfig::new()
    }
}
