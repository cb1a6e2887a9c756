//! The parts of a server for callers from C: settings, what is to be done about a message, how a reply is rewritten, and
//! connections. The header `embed/nutscythe.h` says it in C; each call of the header is an inline function over one call here.
//!
//! - `nutscythe_raw_settings_new`, `_read`, `_servers`, `_cookies`, `_deny` and `_copy` make settings.
//! - `nutscythe_raw_decide` and `nutscythe_raw_datagram` say what is to be done about a message, before any service is asked.
//! - `nutscythe_raw_rewrite` and `nutscythe_raw_refuse` give the reply that is sent for a request that a service was asked.
//! - `nutscythe_raw_reply_begin`, `_add`, `_option` and `_write` build a reply, which is rewritten without being read again.
//! - `nutscythe_raw_message_read` and `_next` read a message item by item.
//! - `nutscythe_raw_connection_open`, `_feed`, `_next`, `_offer`, `_give`, `_front`, `_written`, `_deadline`, `_tick` and `_close`
//!   serve a stream, with the transactions of its requests.
//! - `nutscythe_raw_book_open` and `_call` keep the slots for connections, and `nutscythe_raw_configure` lets a connection or a book
//!   take other configurations.
//! - `nutscythe_raw_free` lets go of what a handle holds.
//!
//! Whatever outlives a call stands in a `Handle`, one word that C moves and never copies. Every other value is a number, a
//! struct of numbers, or octets with their number. Each object crosses as a slice of none or one, so that a null pointer
//! gives a status (`NullPointer`) and leaves all as it was. A call takes what a handle holds out of it, works on that in safe
//! code, and puts it back. No call waits, ends the process or keeps a pointer that it was given.
//!
//! # What is proved
//!
//! - No call has a `requires`. What a caller must keep is what the types say: pointers that lead to as many objects as are said.
//!   Nothing that a call writes overlaps what else it is given. A handle is as a call left it, or zeros.
//! - A call gives exactly one of the statuses that it names, and each says what became of the buffer, the lengths and the
//!   handles. A call that is refused leaves them.
//! - What a call answers is what dns_embed says of its values.
//!
//! # What a body could still get away with
//!
//! Running out of memory at any call that takes some, and a block that is never freed.
#![tactic(auto)]

mod books;
mod closing;
mod connections;
mod datagrams;
mod handle;
mod handle_value;
mod idle_timer;
mod layers;
mod loose;
mod origin;
mod readings;
mod replies;
mod rule;
mod servers;
mod settings;
mod status;
mod transactions;
mod uses;

pub use handle::Handle;
pub use handle_value::HandleValue;
pub use origin::Origin;
pub use rule::Rule;
pub use servers::Servers;
pub use settings::LineRefusal;
pub use status::Status;
pub use uses::Use;
