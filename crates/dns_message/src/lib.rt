//! Messages, their sections and their records, as they are read. dns_base exports this crate, so users name that one.
//!
//! - `Message` owns a message's octets, and `MessageRef` borrows them. Both refuse fewer than 12 octets and nothing
//!   else.
//! - `question`, `answer`, `authority` and `additional` give iterators; `sections` gives all four in one pass.
//! - `QuestionRef` and `RecordRef` borrow; `to_question` and `to_record` copy, with names uncompressed.
//! - `RecordData` is typed data by the shape of its type (RFC 1035, section 3.3; RFC 3596; RFC 2782; RFC 6672; RFC
//!   6891).
//! - `Header` is a plain value with a field for each flag.
//!
//! ```text
//! Message::from_octets -> sections -> RecordRef -> to_record -> Record
//! ```
//!
//! # What is proved
//!
//! - Each iterator gives exactly the readable items of its section, then one refusal and the end (`records_stand`). A
//!   section is refused exactly if an earlier one is unreadable.
//! - `to_record` gives exactly what the data is by the shape of its type, or its refusal: ShortInput if octets are
//!   missing, Form(Shape) if they are left over, or that of a name.
//! - A message that was written reads back as itself, header, questions and records, and no octet is left
//!   (`messages_read_back`). Records of typed data read back one for one, in every message that can be written
//!   (`typed_records_read_back`, `typed_data_reads_back`).
//! - `==` of questions, data and records is an equivalence. Records are equal without their TTL (RFC 2136, section
//!   1.1.1).
//! - What is composed is appended, or the target is left as it was.
//!
//! # What a body could still get away with
//!
//! How often octets are passed over. By reading the code, `answer`, `authority` and `additional` pass over the sections
//! before theirs each time, and `sections` once for all.
#![tactic(auto)]

mod compose_record;
mod data_laws;
mod fixed;
mod header;
mod laws;
mod message;
mod option_list;
mod plain;
mod question;
mod rdata;
mod rdata_clone;
mod rdata_eq;
mod rdata_fmt;
mod rdata_read;
mod read;
mod record;
mod write;
mod zone;

pub use compose_record::{ComposeRecord, RecordFields};
pub use data_laws::{data_has_names, typed_data_reads_back, typed_records_read_back};
pub use header::{Header, HeaderCounts, number_at};
pub use laws::{messages_read_back, records_stand};
pub use message::{Message, MessageRef, Sections};
pub use option_list::{first_option, is_option_list};
pub use plain::plain_questions;
pub use question::{ComposeQuestion, Question, QuestionIter, QuestionRef, question_in};
pub use rdata::RecordData;
pub use record::{Record, RecordIter, RecordRef, record_in};
