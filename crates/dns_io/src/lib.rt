//! Traits for what a server reads from and writes to: sources and sinks, links and sockets, clocks and threads.
//!
//! - `Source` and `Sink` are read and written in order: files, terminals, vectors. `read_all` reads a source to its
//!   end, at most 67,108,864 octets (`LIMIT`) in pieces of 65,536. `write_all` writes a whole piece.
//! - `Link` is a connection to one peer, and `AsyncAccept` is where links come from.
//! - `AsyncDgramSock` receives and sends a `Packet`, a datagram with an address.
//! - `Clock` gives readings of moments in ms and of seconds.
//! - `Spawner` starts a `Work` in a thread and joins it; `start_work` makes a `Started`.
//!
//! Reads, writes, sends, receives and accepts don't wait; `wait`, `readable` and joins do. An implementation over
//! memory stands in dns_memory, one over the machine in dns_outside.
//!
//! # What is proved
//!
//! Each trait has two kinds of clauses, which every implementation owes:
//!
//! - if contracts know what the object holds (`tells`): what a call moved, such as the octets of a read, in order;
//! - always: no result passes its buffer, counts of faults never fall, and one rises exactly with a failed call.
//!
//! So `read_all` gives all octets and leaves none, or says why not; `write_all` writes the whole piece, or a prefix
//! of it.
//!
//! # What a body could still get away with
//!
//! That a wait waits, and how long. That a call ever succeeds: Again or Failed is always allowed. What a thread
//! gives, which may be `None`.
#![tactic(auto)]

mod accept;
mod clock;
mod link;
mod sink;
mod sock;
mod source;
mod spawner;
mod work;

pub use accept::{AcceptAnswer, AsyncAccept};
pub use clock::Clock;
pub use link::{Link, LinkRead, LinkWrite};
pub use sink::{Sink, SinkWrite, WriteFault, write_all};
pub use sock::{AsyncDgramSock, DgramRecv, DgramSend, Packet};
pub use source::{LIMIT, ReadError, Source, SourceRead, read_all};
pub use spawner::{Spawner, Start};
pub use work::{Started, Work, start_work};
