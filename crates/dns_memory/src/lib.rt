//! Sources, sinks, links, sockets, clocks and spawners in memory, for proofs and tests. It exports dns_io.
//!
//! - Forms named `Memory..` fail or answer Again at listed calls. `ListedCalls` counts calls from 0 and says which of
//!   them fail or answer Again (`CallFate`).
//! - Forms named `Steady..` never fail: `SteadySource`, `SteadySink`, `SteadyLink`, `SteadySock`, `SteadyAccept`.
//! - `MemoryClock` gives the readings of a list, and then the last one forever.
//! - `MemorySpawner` starts each work in a thread, except the listed starts, and tells the addresses. `ThreadSpawner`
//!   starts each work in a thread and tells nothing.
//!
//! ```text
//! MemorySock::new(incoming, lists) -> serve_datagrams -> sock.sent()
//! MemoryLink::new(input, output, most, lists) -> serve_connection -> link.written()
//! ```
//!
//! # What is proved
//!
//! - Each call does exactly what its lists say: a listed call fails, and no other one does except for lack of memory.
//! - What came in and what is left, joined, is what was handed to `new`. What was taken stands after what was there.
//! - These forms tell: contracts know what they hold. A steady form that finds no memory goes on, and contracts no
//!   longer know what it holds.
//! - A wait changes nothing.
//!
//! # What a body could still get away with
//!
//! Which calls a caller makes; how much memory a form takes.
#![tactic(auto)]

mod kept_threads;
mod listed_calls;
mod memory;
mod memory_accept;
mod memory_clock;
mod memory_link;
mod memory_sock;
mod memory_spawner;
mod octet_replay;
mod packet_replay;
mod steady;
mod steady_accept;
mod steady_link;
mod steady_sock;
mod thread_spawner;

pub use dns_io::{
    AcceptAnswer, AsyncAccept, AsyncDgramSock, Clock, DgramRecv, DgramSend, LIMIT, Link, LinkRead,
    LinkWrite, Packet, ReadError, Sink, SinkWrite, Source, SourceRead, Spawner, Start, Started,
    Work, WriteFault, read_all, start_work, write_all,
};
pub use listed_calls::{CallFate, ListedCalls};
pub use memory::{MemorySink, MemorySource};
pub use memory_accept::MemoryAccept;
pub use memory_clock::MemoryClock;
pub use memory_link::MemoryLink;
pub use memory_sock::MemorySock;
pub use memory_spawner::MemorySpawner;
pub use steady::{SteadySink, SteadySource};
pub use steady_accept::SteadyAccept;
pub use steady_link::SteadyLink;
pub use steady_sock::SteadySock;
pub use thread_spawner::ThreadSpawner;
