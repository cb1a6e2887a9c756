//! What a program reads from and writes to, over the standard library and over sockets. It exports the traits (dns_io)
//! and their forms in memory (dns_memory).
//!
//! | Trait | Over the machine | In memory | Never fails |
//! |---|---|---|---|
//! | `Source`, `Sink` | `Reading`, `Writing` | `MemorySource`, `MemorySink` | `SteadySource`, `SteadySink` |
//! | `Link` | `MioLink` | `MemoryLink` | `SteadyLink` |
//! | `AsyncDgramSock` | `MioSock` | `MemorySock` | `SteadySock` |
//! | `AsyncAccept` | `MioAccept` | `MemoryAccept` | `SteadyAccept` |
//! | `Clock` | `HostClock` | `MemoryClock` | |
//! | `Spawner` | `ThreadSpawner` | `MemorySpawner` | |
//!
//! # What is proved
//!
//! - If contracts know what an object holds, its content moved exactly by the answer that a call gave. Objects over the
//!   machine don't say what they hold.
//! - The count of faults rises with a failed call and with no other, of every form.
//! - An IPv4 address within IPv6 is read as the IPv4 address, and sent to as the socket needs it.
//! - What is unsafe are system calls alone, in accepting.rt and shared_udp.rt. A number of which a descriptor is made
//!   isn't negative there.
//!
//! # What a body could still get away with
//!
//! What sockets and the clock really give, and when; that a wait waits; that a thread runs. Tests on loopback show one
//! case of each. A body could read fewer octets a call than there are, or accept a connection and close it.
#![tactic(auto)]

mod accepting;
mod host_clock;
mod mio_accept;
mod mio_addr;
mod mio_link;
mod mio_sock;
mod shared_udp;
mod spin_policy;
mod standard;
mod waiting;

pub use dns_io::{
    AcceptAnswer, AsyncAccept, AsyncDgramSock, Clock, DgramRecv, DgramSend, LIMIT, Link, LinkRead,
    LinkWrite, Packet, ReadError, Sink, SinkWrite, Source, SourceRead, Spawner, Start, Started,
    Work, WriteFault, read_all, start_work, write_all,
};
pub use dns_memory::{
    CallFate, ListedCalls, MemoryAccept, MemoryClock, MemoryLink, MemorySink, MemorySock,
    MemorySource, MemorySpawner, SteadyAccept, SteadyLink, SteadySink, SteadySock, SteadySource,
    ThreadSpawner,
};
pub use host_clock::HostClock;
pub use mio_accept::MioAccept;
pub use mio_link::MioLink;
pub use mio_sock::MioSock;
pub use standard::{Reading, Writing};
