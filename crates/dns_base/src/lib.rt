//! Messages that are built. It exports dns_message, so a user names this crate for reading too.
//!
//! A builder has a type for each section: `MessageBuilder`, `QuestionBuilder`, `AnswerBuilder`, `AuthorityBuilder`
//! and `AdditionalBuilder`. Each goes on to the next by a call of that name, and `push` appends to the section that
//! it is at.
//!
//! ```text
//! MessageBuilder::new -> question -> push .. -> answer -> push .. -> additional -> finish -> octets
//! MessageBuilder::start_answer(query) -> AnswerBuilder, with the query's identifier, RD and questions
//! ```
//!
//! - `finish` gives a `StreamTarget`: as a datagram, or after its length of two octets. Neither is copied.
//! - `start_error` never lacks room: it keeps the questions that fit, with SERVFAIL.
//! - `remove_type`, `replace_type`, `push_opt` and `replace_opt` change the additional records in place.
//! - `CopiedRecord` and `assemble` copy records of a message into another one. `WireRecords` keeps records as
//!   written.
//!
//! # What is proved
//!
//! - To contracts a builder is a message and a limit, and that message can be written. So it reads back as itself.
//! - `push` adds the item. It is refused ShortBuf exactly if the message would pass the limit, and then leaves what
//!   was built, header included (`Pushes`). A refused call never leaves half of an item.
//! - `start_answer` gives exactly `answer_to` of the query, and `assemble` exactly the message of its parts
//!   (`Builds`).
//! - `questions` and `additional_records` of a builder give what was built.
//!
//! # What a body could still get away with
//!
//! How often octets are moved. By reading the code, an answer's questions are copied in one append if they stand in
//! the query as they are written. No call of a builder reads what stands before its section.
#![tactic(auto)]

mod builder;
mod compose_record;
mod copied_record;
mod draft;
mod error;
mod readers;
mod replace;
mod stream;
mod wire_records;

pub use builder::{
    AdditionalBuilder, AnswerBuilder, AuthorityBuilder, Builder, MessageBuilder, QuestionBuilder,
    RecordStage, Stage, assemble,
};
pub use copied_record::CopiedRecord;
pub use dns_message::{
    ComposeQuestion, ComposeRecord, Header, HeaderCounts, Message, MessageRef, Question,
    QuestionIter, QuestionRef, Record, RecordData, RecordFields, RecordIter, RecordRef, Sections,
    data_has_names, first_option, is_option_list, messages_read_back, number_at, question_in,
    record_in, records_stand, typed_data_reads_back, typed_records_read_back,
};
pub use dns_name::{
    Addrs, BuildDataError, Class, Classes, Code, ComposeOptData, ExtendedErrorCode,
    ExtendedErrorCodes, FormReason, FromTextError, HeaderCode, HoldsName, HoldsOctets, IpAddr,
    Labels, LongOptData, Name, NameRef, OctetStore, Octets, Opcode, Opcodes, OptData, OptRcode,
    OptionCode, OptionCodes, OutOfMemory, ParseError, ParseOptData, ParsedName, Parser, Rcode,
    Rcodes, ReadBack, Registered, Registry, Rtype, Rtypes, SecurityAlgorithm, Serial, SocketAddr,
    Ttl, codes_read_back, names_are_ordered, names_are_the_grammar, names_read_back, push_lower,
};
pub use draft::Section;
pub use error::PushError;
pub use stream::StreamTarget;
pub use wire_records::WireRecords;
