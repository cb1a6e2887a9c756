//! Witnesses: a link, a socket, a clock, an accept object and a spawner, each over any other one.
//!
//! - `Witness` is over a `Link`, `WitnessSock` over a socket, and `WitnessClock` over a clock. `WitnessAccept` is
//!   over an accept object, and each link that it gives is a witness too. `WitnessSpawner` is over a spawner.
//! - `JoiningSpawner` is over a spawner too. It keeps the threads that are started for works, joins them itself, and
//!   knows what each gave.
//! - `new` takes the object beneath, and `into_inner` of a witness gives it back.
//! - `is_tied` says for contracts how a witness stands to the object beneath.
//!
//! Each call calls the one beneath. What these calls answered is kept as ghost data, which takes no memory and no
//! time. So a witness tells, of the machine's sockets too, whatever the object beneath tells.
//!
//! ```text
//! MioLink -> Witness::new -> serve_connection: octets written = frames of the model
//! ```
//!
//! # What is proved
//!
//! - A witness tells what its calls said: the octets that reads gave and writes took, and datagrams received and
//!   sent. Readings given, callers that came, and the addresses of works are told too, all in order.
//! - If the object beneath tells, that is what went through it since it was taken (`is_tied`).
//! - Counts of faults are those of the object beneath.
//! - Threads that a `JoiningSpawner` keeps and those that it joined are always as many as were started. After
//!   `join_kept` as many were joined as were started (`AllJoined`).
//!
//! # What a body could still get away with
//!
//! What the operating system does with octets that a write took. That is outside of every contract here. That a join
//! gives what the thread gave, and not nothing, as of a work that was given up.
#![tactic(auto)]

mod arrivals;
mod joined_threads;
mod joining_spawner;
mod readings;
mod sock_calls;
mod starts;
mod traffic;
mod witness;
mod witness_accept;
mod witness_clock;
mod witness_sock;
mod witness_spawner;
mod works;

pub use joining_spawner::JoiningSpawner;
pub use witness::Witness;
pub use witness_accept::WitnessAccept;
pub use witness_clock::WitnessClock;
pub use witness_sock::WitnessSock;
pub use witness_spawner::WitnessSpawner;
