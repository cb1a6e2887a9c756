//! How servers are configured, by numbers.

ghost use Rattle.std.specs.Prelude.{◌≡◌};
ghost use Rattle.nutscythe_c.specs.declared.status.Status.{Status as TheStatus};
ghost use Rattle.nutscythe_c.specs.Calls.{number};
ghost use Rattle.nutscythe_c.specs.Objects.{OfFirst, OfOne};
ghost use Rattle.nutscythe_c.specs.Rules.{given};
ghost use Rattle.nutscythe_c.specs.Servers.{HasServers, SetsServers, are_timeouts, connection_of, dgram_of, is_between, is_budget, is_zero_or_between, stream_of};

use crate::handle::Handle;
use crate::handle_value::HandleValue;
use crate::status::Status;
use dns_service::{ConnectionConfig, DgramConfig, Settings, StreamConfig};
use std::alloc::Global;

/// How servers are configured. Times are in ms, and sizes in octets.
#[repr(C)]
#[derive(Clone, Copy)]
pub struct Servers {
    /// How long the write of a datagram may take: 1 to 60,000.
    pub dgram_write_timeout: u64,
    /// How long a connection may be idle: 200 to 2,592,000,000.
    pub idle_timeout: u64,
    /// How long the write of a frame may take: 1 to 3,600,000.
    pub write_timeout: u64,
    /// How long a window of the response budget is: 1 to 3,600,000.
    pub budget_window: u64,
    /// How many connections may hold a slot: 1 to 100,000.
    pub max_connections: u32,
    /// How many replies a connection may queue in one window: 1 to 1,000,000, or 0 without a budget.
    pub response_budget: u32,
    /// The most octets of a reply in a datagram: 512 to 4,096, or 0 if the client alone limits them.
    pub max_response_size: u16,
    /// How many replies may wait on a connection: 1 to 1,024.
    pub max_queued_responses: u16,
    /// Whether a connection that finds no slot is accepted, and closed at once.
    pub accepts_at_max: u8,
}

/// Whether a number is of a range.
fn is_between(low: u64, high: u64, number: u64) -> bool
    ensures { result ≡ is_between low high number }
{
    low <= number && number <= high
}

/// Whether a number is 0 or of a range.
fn is_zero_or_between(low: u64, high: u64, number: u64) -> bool
    ensures { result ≡ is_zero_or_between low high number }
{
    number == 0 || is_between(low, high, number)
}

/// The most octets of a reply in a datagram, if it isn't 0.
fn size_limit(number: u16) -> Option<u16>
    ensures { result ≡ given number number }
{
    if number == 0 { None } else { Some(number) }
}

/// The budget of a number, if it isn't 0.
fn budget_limit(number: u32) -> Option<u32>
    ensures { result ≡ given number number }
{
    if number == 0 { None } else { Some(number) }
}

/// The datagram server, if each of its numbers is in range.
#[tactic(auto, using(crate::proofs::Ranges::stays, crate::proofs::Ranges::size_stays))]
fn dgram_of(servers: &Servers) -> Option<DgramConfig>
    ensures { result ≡ dgram_of servers.now }
{
    let size = servers.max_response_size;
    let write = servers.dgram_write_timeout;
    if !is_zero_or_between(512, 4096, size as u64) || !is_between(1, 60_000, write) {
        return None;
    }
    let mut dgram = DgramConfig::new();
    dgram.set_max_response_size(size_limit(size));
    dgram.set_write_timeout(write);
    Some(dgram)
}

/// Whether both timeouts of a connection are in range.
fn are_timeouts(servers: &Servers) -> bool
    ensures { result ≡ are_timeouts servers.now }
{
    is_between(200, 2_592_000_000, servers.idle_timeout)
        && is_between(1, 3_600_000, servers.write_timeout)
}

/// Whether the budget of a connection and its window are in range.
fn is_budget(servers: &Servers) -> bool
    ensures { result ≡ is_budget servers.now }
{
    is_zero_or_between(1, 1_000_000, servers.response_budget as u64)
        && is_between(1, 3_600_000, servers.budget_window)
}

/// Each connection, if each of its numbers is in range.
#[tactic(auto, using(crate::proofs::Ranges::stays, crate::proofs::Ranges::budget_stays))]
fn connection_of(servers: &Servers) -> Option<ConnectionConfig>
    ensures { result ≡ connection_of servers.now }
{
    let queue = servers.max_queued_responses;
    if !are_timeouts(servers) || !is_between(1, 1024, queue as u64) || !is_budget(servers) {
        return None;
    }
    let mut connection = ConnectionConfig::new();
    connection.set_idle_timeout(servers.idle_timeout);
    connection.set_response_write_timeout(servers.write_timeout);
    connection.set_max_queued_responses(queue as usize);
    connection.set_response_budget(budget_limit(servers.response_budget));
    connection.set_budget_window(servers.budget_window);
    Some(connection)
}

/// The stream server, if each of its numbers is in range.
#[tactic(auto, using(crate::proofs::Ranges::stays))]
fn stream_of(servers: &Servers) -> Option<StreamConfig>
    ensures { result ≡ stream_of servers.now }
{
    let connection = connection_of(servers)?;
    let most = servers.max_connections;
    if !is_between(1, 100_000, most as u64) {
        return None;
    }
    let mut stream = StreamConfig::new();
    stream.set_accept_connections_at_max(servers.accepts_at_max != 0);
    stream.set_max_concurrent_connections(most as usize);
    stream.set_connection_config(connection);
    Some(stream)
}

/// Sets how servers are configured. Settings stay if a number is out of its range.
#[unsafe(no_mangle)]
pub extern "C" fn nutscythe_raw_settings_servers(
    alloc: Global,
    settings: &mut [Handle],
    servers: &[Servers],
) -> u32
    ensures { (t : TheStatus) × (result ≡ number t)
        × OfOne servers.now (λ n. OfFirst settings.old settings.new (λ h i. SetsServers n h.kept i.kept t)
        (t ≡ TheStatus.NullPointer)) (t ≡ TheStatus.NullPointer × settings.new ≡ settings.old) }
{
    servers_at(alloc, settings, servers) as u32
}

/// Sets how servers are configured, by its status.
fn servers_at(alloc: Global, settings: &mut [Handle], servers: &[Servers]) -> Status
    ensures { OfOne servers.now (λ n. OfFirst settings.old settings.new (λ h i. SetsServers n h.kept i.kept result)
        (result ≡ Status.NullPointer)) (result ≡ Status.NullPointer × settings.new ≡ settings.old) }
{
    let [servers, ..] = servers else {
        return Status::NullPointer;
    };
    let [settings, ..] = settings else {
        return Status::NullPointer;
    };
    servers_in(alloc, settings, servers)
}

/// Sets how the servers of what a handle holds are configured.
fn servers_in(alloc: Global, settings: &mut Handle, servers: &Servers) -> Status
    ensures { SetsServers servers.now settings.old.kept settings.new.kept result }
{
    let Some(mut kept) = settings.take(alloc) else {
        return Status::NoHandle;
    };
    let status = match &mut *kept {
        HandleValue::Settings(made) => set_servers(made, dgram_of(servers), stream_of(servers)),
        _ => Status::NoHandle,
    };
    settings.put(kept);
    status
}

/// Gives settings both configurations, if there are both.
fn set_servers(
    made: &mut Settings,
    dgram: Option<DgramConfig>,
    stream: Option<StreamConfig>,
) -> Status
    ensures { HasServers dgram stream made.old made.new result }
{
    let (Some(dgram), Some(stream)) = (dgram, stream) else {
        return Status::OutOfRange;
    };
    made.dgram = dgram;
    made.stream = stream;
    Status::Done
}
