//! Messages, laid out as dig does.

ghost use Rattle.std.specs.Prelude.{◌≡◌, ◌++◌, ◌∷◌, IfOk, OnOk, Ok, Err, decimal};
ghost use Rattle.std.specs.List.{flat_map};
ghost use Rattle.dns_message.specs.Sections.{counts_of, sections_of};
ghost use Rattle.dns_message_text.specs.MessageText.{codes_text, counts_text, flag, flags_text, four_sections, header_text, labelled, message_text, opcode_word, question_item, question_text, questions_text, rcode_word, read_text, record_item, records_text, sections_text, title_text, type_name, unreadable};

use dns_message::{
    Header, HeaderCounts, MessageRef, QuestionIter, QuestionRef, RecordIter, RecordRef, Sections,
};
use dns_name::{Opcode, OutOfMemory, ParseError, Rcode, Rtype};
use dns_record_text::{PresentationText, push, push_class, push_name, push_number, write_record};
use std::alloc::Global;

/// Appends an opcode.
#[tactic(auto, unfolding(crate::specs::MessageText::opcode_word))]
fn push_opcode(alloc: Global, target: &mut Vec<u8>, opcode: Opcode) -> Result<(), OutOfMemory>
    ensures { OnOk result (target.new.items ≡ target.old.items ++ opcode_word opcode) }
{
    let text = format!(in alloc; "{opcode}")?;
    push(target, text.as_bytes())
}

/// Appends a response code.
#[tactic(auto, unfolding(crate::specs::MessageText::rcode_word))]
fn push_rcode(alloc: Global, target: &mut Vec<u8>, rcode: Rcode) -> Result<(), OutOfMemory>
    ensures { OnOk result (target.new.items ≡ target.old.items ++ rcode_word rcode) }
{
    let text = format!(in alloc; "{rcode}")?;
    push(target, text.as_bytes())
}

/// Appends the name of a type.
#[tactic(auto, unfolding(crate::specs::MessageText::type_name))]
fn push_type(alloc: Global, target: &mut Vec<u8>, rtype: Rtype) -> Result<(), OutOfMemory>
    ensures { OnOk result (target.new.items ≡ target.old.items ++ type_name rtype) }
{
    let text = format!(in alloc; "{rtype}")?;
    push(target, text.as_bytes())
}

/// Appends a word after what it is.
#[tactic(auto, unfolding(crate::specs::MessageText::labelled), using(crate::proofs::Appended::regrouped))]
fn push_labelled(target: &mut Vec<u8>, label: &[u8], word: &[u8]) -> Result<(), OutOfMemory>
    ensures { OnOk result (target.new.items ≡ target.old.items ++ labelled label.now word.now) }
{
    push(target, label)?;
    push(target, word)
}

/// Appends an opcode after what it is.
#[tactic(auto, unfolding(crate::specs::MessageText::labelled), using(crate::proofs::Appended::regrouped))]
fn push_labelled_opcode(
    alloc: Global,
    target: &mut Vec<u8>,
    label: &[u8],
    opcode: Opcode,
) -> Result<(), OutOfMemory>
    ensures { OnOk result (target.new.items ≡ target.old.items ++ labelled label.now (opcode_word opcode)) }
{
    push(target, label)?;
    push_opcode(alloc, target, opcode)
}

/// Appends a response code after what it is.
#[tactic(auto, unfolding(crate::specs::MessageText::labelled), using(crate::proofs::Appended::regrouped))]
fn push_labelled_rcode(
    alloc: Global,
    target: &mut Vec<u8>,
    label: &[u8],
    rcode: Rcode,
) -> Result<(), OutOfMemory>
    ensures { OnOk result (target.new.items ≡ target.old.items ++ labelled label.now (rcode_word rcode)) }
{
    push(target, label)?;
    push_rcode(alloc, target, rcode)
}

/// Appends a number after what it is.
#[tactic(auto, unfolding(crate::specs::MessageText::labelled), using(crate::proofs::Appended::regrouped))]
fn push_labelled_number(target: &mut Vec<u8>, label: &[u8], number: u16) -> Result<(), OutOfMemory>
    ensures { OnOk result (target.new.items ≡ target.old.items ++ labelled label.now (decimal number)) }
{
    push(target, label)?;
    push_number(target, number as u64)
}

/// Appends what can't be read, and why.
#[tactic(auto, unfolding(crate::specs::MessageText::unreadable), using(crate::proofs::Appended::regrouped))]
fn push_unreadable(
    alloc: Global,
    target: &mut Vec<u8>,
    error: ParseError,
) -> Result<(), OutOfMemory>
    ensures { OnOk result (target.new.items ≡ target.old.items ++ unreadable error) }
{
    let text = format!(in alloc; "{error}")?;
    push_labelled(target, b";; unreadable: ", text.as_bytes())?;
    push(target, b"\n")
}

/// Appends the line of the codes and the identifier.
#[tactic(auto, using(crate::proofs::Appended::regrouped))]
fn push_codes(alloc: Global, target: &mut Vec<u8>, header: &Header) -> Result<(), OutOfMemory>
    ensures { OnOk result (target.new.items ≡ target.old.items ++ codes_text header.now) }
{
    push_labelled_opcode(alloc, target, b";; ->>HEADER<<- opcode: ", header.opcode)?;
    push_labelled_rcode(alloc, target, b", status: ", header.rcode)?;
    push_labelled_number(target, b", id: ", header.id)?;
    push(target, b"\n")
}

/// Appends the name of a flag that is set, after a space.
#[tactic(auto, using(crate::proofs::Appended::regrouped))]
fn push_flag(target: &mut Vec<u8>, is_set: bool, name: &[u8]) -> Result<(), OutOfMemory>
    ensures { OnOk result (target.new.items ≡ target.old.items ++ flag is_set name.now) }
{
    if !is_set {
        return Ok(());
    }
    push(target, b" ")?;
    push(target, name)
}

/// Appends the flags.
#[tactic(auto, using(crate::proofs::Appended::regrouped))]
fn push_flags(target: &mut Vec<u8>, header: &Header) -> Result<(), OutOfMemory>
    ensures { OnOk result (target.new.items ≡ target.old.items ++ flags_text header.now) }
{
    push_flag(target, header.qr, b"qr")?;
    push_flag(target, header.aa, b"aa")?;
    push_flag(target, header.tc, b"tc")?;
    push_flag(target, header.rd, b"rd")?;
    push_flag(target, header.ra, b"ra")?;
    push_flag(target, header.ad, b"ad")?;
    push_flag(target, header.cd, b"cd")
}

/// Appends the numbers of items.
#[tactic(auto, using(crate::proofs::Appended::regrouped))]
fn push_counts(target: &mut Vec<u8>, counts: &HeaderCounts) -> Result<(), OutOfMemory>
    ensures { OnOk result (target.new.items ≡ target.old.items ++ counts_text counts.now) }
{
    push_labelled_number(target, b"; QUERY: ", counts.qdcount)?;
    push_labelled_number(target, b", ANSWER: ", counts.ancount)?;
    push_labelled_number(target, b", AUTHORITY: ", counts.nscount)?;
    push_labelled_number(target, b", ADDITIONAL: ", counts.arcount)?;
    push(target, b"\n")
}

/// Appends the header.
#[tactic(auto, unfolding(crate::specs::MessageText::header_text), using(crate::proofs::Appended::regrouped))]
fn push_header(
    alloc: Global,
    target: &mut Vec<u8>,
    header: &Header,
    counts: &HeaderCounts,
) -> Result<(), OutOfMemory>
    ensures { OnOk result (target.new.items ≡ target.old.items ++ header_text header.now counts.now) }
{
    push_codes(alloc, target, header)?;
    push(target, b";; flags:")?;
    push_flags(target, header)?;
    push_counts(target, counts)
}

/// Appends a question's line.
#[tactic(auto, using(crate::proofs::Appended::regrouped))]
fn push_question(
    alloc: Global,
    target: &mut Vec<u8>,
    question: &QuestionRef<'_>,
) -> Result<(), OutOfMemory>
    ensures { OnOk result (target.new.items ≡ target.old.items ++ question_text question.now) }
{
    let name = question.qname().to_name(alloc)?;
    push(target, b";")?;
    push_name(target, &name)?;
    push_class(alloc, target, question.qclass())?;
    push(target, b" ")?;
    push_type(alloc, target, question.qtype())?;
    push(target, b"\n")
}

/// Appends a question, or why it isn't readable.
fn push_question_item(
    alloc: Global,
    target: &mut Vec<u8>,
    item: Result<QuestionRef<'_>, ParseError>,
) -> Result<(), OutOfMemory>
    ensures { OnOk result (target.new.items ≡ target.old.items ++ question_item item.entry) }
{
    match item {
        Ok(question) => push_question(alloc, target, &question),
        Err(error) => push_unreadable(alloc, target, error),
    }
}

/// Appends a record's line, or why it isn't readable.
fn push_record(
    alloc: Global,
    target: &mut Vec<u8>,
    source: &RecordRef<'_>,
) -> Result<(), OutOfMemory>
    ensures { OnOk result (target.new.items ≡ target.old.items ++ record_item (Ok source.now)) }
{
    match source.to_record(alloc) {
        Ok(resource) => write_record(alloc, target, &resource),
        Err(ParseError::OutOfMemory) => Err(OutOfMemory),
        Err(error) => push_unreadable(alloc, target, error),
    }
}

/// Appends an item of a section.
fn push_record_item(
    alloc: Global,
    target: &mut Vec<u8>,
    item: Result<RecordRef<'_>, ParseError>,
) -> Result<(), OutOfMemory>
    ensures { OnOk result (target.new.items ≡ target.old.items ++ record_item item.entry) }
{
    match item {
        Ok(source) => push_record(alloc, target, &source),
        Err(error) => push_unreadable(alloc, target, error),
    }
}

/// Appends the title of a section that states an item.
#[tactic(auto, using(crate::proofs::Appended::regrouped))]
fn push_title(target: &mut Vec<u8>, count: u16, title: &[u8]) -> Result<(), OutOfMemory>
    ensures { OnOk result (target.new.items ≡ target.old.items ++ title_text count title.now) }
{
    if count == 0 {
        return Ok(());
    }
    push(target, b"\n;; ")?;
    push(target, title)?;
    push(target, b" SECTION:\n")
}

/// Appends the items of questions.
fn push_question_items(
    alloc: Global,
    target: &mut Vec<u8>,
    mut questions: QuestionIter<'_>,
) -> Result<(), OutOfMemory>
    ensures { OnOk result (target.new.items ≡ target.old.items ++ flat_map question_item questions.entry) }
{
    'questions: while let Some(item) = questions.next() {
        push_question_item(alloc, target, item)?;
    }
    Ok(())
}

/// Appends the items of records.
fn push_record_items(
    alloc: Global,
    target: &mut Vec<u8>,
    mut records: RecordIter<'_>,
) -> Result<(), OutOfMemory>
    ensures { OnOk result (target.new.items ≡ target.old.items ++ flat_map record_item records.entry) }
{
    'records: while let Some(item) = records.next() {
        push_record_item(alloc, target, item)?;
    }
    Ok(())
}

/// Appends the questions below their title.
#[tactic(auto, unfolding(crate::specs::MessageText::questions_text), using(crate::proofs::Appended::regrouped))]
fn push_questions(
    alloc: Global,
    target: &mut Vec<u8>,
    count: u16,
    questions: QuestionIter<'_>,
) -> Result<(), OutOfMemory>
    ensures { OnOk result (target.new.items ≡ target.old.items ++ questions_text count questions.entry) }
{
    push_title(target, count, b"QUESTION")?;
    push_question_items(alloc, target, questions)
}

/// Appends records below their title.
#[tactic(auto, unfolding(crate::specs::MessageText::records_text), using(crate::proofs::Appended::regrouped))]
fn push_records(
    alloc: Global,
    target: &mut Vec<u8>,
    count: u16,
    title: &[u8],
    records: RecordIter<'_>,
) -> Result<(), OutOfMemory>
    ensures { OnOk result (target.new.items ≡ target.old.items ++ records_text count title.now records.entry) }
{
    push_title(target, count, title)?;
    push_record_items(alloc, target, records)
}

/// Appends the four sections.
#[tactic(auto, using(crate::proofs::Appended::regrouped))]
fn push_sections(
    alloc: Global,
    target: &mut Vec<u8>,
    counts: &HeaderCounts,
    sections: Sections<'_>,
) -> Result<(), OutOfMemory>
    ensures { OnOk result (target.new.items ≡ target.old.items ++ four_sections counts.now sections.entry) }
{
    let (questions, answers, authority, additional) = sections;
    push_questions(alloc, target, counts.qdcount, questions)?;
    push_records(alloc, target, counts.ancount, b"ANSWER", answers)?;
    push_records(alloc, target, counts.nscount, b"AUTHORITY", authority)?;
    push_records(alloc, target, counts.arcount, b"ADDITIONAL", additional)
}

/// Appends the sections of a message, or why its last section isn't reached.
#[tactic(auto, unfolding(crate::specs::MessageText::sections_text))]
fn push_body(
    alloc: Global,
    target: &mut Vec<u8>,
    message: &MessageRef<'_>,
) -> Result<(), OutOfMemory>
    ensures { OnOk result (target.new.items ≡ target.old.items ++ sections_text (counts_of message.now) (sections_of message.now)) }
{
    match message.sections() {
        Ok(sections) => push_sections(alloc, target, &message.header_counts(), sections),
        Err(error) => push_unreadable(alloc, target, error),
    }
}

/// Appends the text of a message for a reader of logs, laid out as dig does: its header, and its sections, each below
/// its title.
#[tactic(auto, using(crate::proofs::Appended::regrouped))]
pub fn write_message(
    alloc: Global,
    target: &mut Vec<u8>,
    message: &MessageRef<'_>,
) -> Result<(), OutOfMemory>
    ensures { OnOk result (target.new.items ≡ target.old.items ++ message_text message.now) }
{
    push_header(alloc, target, &message.header(), &message.header_counts())?;
    push_body(alloc, target, message)
}

/// The text of a message for Display, as `write_message` writes it.
pub fn message_text(
    alloc: Global,
    message: &MessageRef<'_>,
) -> Result<PresentationText, OutOfMemory>
    ensures { IfOk result (λ t. t ≡ message_text message.now) }
{
    let mut octets = Vec::new(alloc);
    write_message(alloc, &mut octets, message)?;
    Ok(PresentationText::new(octets))
}
