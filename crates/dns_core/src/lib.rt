//! All clients of a server: what they are sent for a list of events. It exports dns_session.
//!
//! - `serve_events` serves a list of events by a service in its layers, and gives the outputs.
//! - `Server` is the same stepped event by event.
//! - `serve_steps` and `SplitServer` serve steps, in which each client hears of the server's changes only when it
//!   looks.
//!
//! ```text
//! events -> serve_events -> out of the events: what each client that hears an event is sent, by rising number
//! ```
//!
//! # What is proved
//!
//! - The outputs are exactly `out` of the settings and events, for all services, settings and lists of events.
//!   Nothing is missing, added or out of order. The one error is that memory ran out.
//! - What a client is sent is `sent` of the events that it hears (`clients_are_sent_their_own`). So other clients
//!   change nothing (`others_change_nothing`).
//! - Each reply answers a message that the client sent, with its identifier, QR and size
//!   (`replies_answer_what_was_asked`).
//! - The replies to one request stand in the order of its polls, each at most once; each was sent, waits, is held or
//!   was dropped (`replies_keep_their_order`).
//! - Queues keep their bound (`queues_keep_their_bound`), and windows their budget (`budgets_are_kept`).
//! - Pieces may be cut anywhere (`cut_pieces_change_nothing`), and more events send more (`more_events_send_more`).
//! - Many events change nothing: those of strangers, of closed connections, of finished requests, under used numbers,
//!   and most after a shutdown.
//! - For steps each of these holds of a client's own events and the changes that it saw
//!   (`interleavings_change_nothing`, `clients_hear_each_change_once`). If all look at once both models agree
//!   (`looks_without_delay_change_nothing`).
//!
//! # What a body could still get away with
//!
//! How often a service is called is a row: once for each request, and its future is polled once for each turn.
#![tactic(auto)]

mod laws;
mod server;
mod split;
mod split_laws;

pub use dns_admission::{Admission, BookState, Look};
pub use dns_middleware::{Notifiable, NotifyError, Settings, VerdictFuture, wrap};
pub use dns_service::{Event, EventKind, Octets, Output, Step, Why};
pub use dns_session::{ClientCore, ConnectionInvoker, Framer, IdleTimer, PolledRequest};
pub use laws::{
    budgets_are_kept, clients_are_sent_their_own, closed_connections_change_nothing,
    cut_pieces_change_nothing, empty_pieces_change_nothing, finished_requests_change_nothing,
    idle_events_leave_a_slate, late_events_change_nothing, more_events_send_more,
    others_change_nothing, queues_keep_their_bound, reconfigures_count_as_their_last,
    replies_answer_what_was_asked, replies_keep_their_order, second_releases_change_nothing,
    strangers_change_nothing, used_numbers_change_nothing,
};
pub use server::{Server, serve_events};
pub use split::{SplitServer, serve_steps};
pub use split_laws::{
    clients_are_sent_what_they_heard, clients_hear_each_change_once, idle_looks_change_nothing,
    idle_steps_change_nothing, interleavings_change_nothing, late_steps_change_nothing,
    looks_without_delay_change_nothing, more_steps_send_more, pieces_of_steps_may_be_cut,
    replies_of_steps_answer_what_was_asked, replies_of_steps_keep_their_order, slots_are_counted,
    steps_of_closed_connections_change_nothing, steps_of_strangers_change_nothing,
    steps_of_used_numbers_change_nothing,
};
