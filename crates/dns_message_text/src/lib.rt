//! The text of messages for people who read logs, laid out as dig does (RFC 1035, section 4.1).
//!
//! - `write_message` appends the text of a message: its header, and its sections, each below its title.
//! - `message_text` gives it for Display.
//!
//! Records are written as dns_record_text writes them, so a line of an answer can be put into a zone file. An OPT record
//! stands in the additional section as any other, with its data in the generic form of RFC 3597. What can't be read of
//! a message is named in its place, with the reason; what stands before it is written.
//!
//! ```text
//! ;; ->>HEADER<<- opcode: QUERY, status: NOERROR, id: 4660
//! ;; flags: qr aa rd; QUERY: 1, ANSWER: 1, AUTHORITY: 0, ADDITIONAL: 0
//!
//! ;; QUESTION SECTION:
//! ;www.example.com. IN A
//!
//! ;; ANSWER SECTION:
//! www.example.com. 300 IN A 192.0.2.1
//! ```
//!
//! # What is proved
//!
//! - What is appended is exactly the text of the definition `message_text`, for every message. A call is refused
//!   without memory alone.
//! - Each record of a section that is readable stands there with the line that `write_record` gives it.
//!
//! # What a body could still get away with
//!
//! How much memory a line takes while it is written. dig's own spacing isn't kept: words stand one space apart.
#![tactic(auto)]

mod messages;

pub use messages::{message_text, write_message};
