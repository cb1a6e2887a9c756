//! Laws of records' typed data.

ghost use Rattle.std.specs.Prelude.{◌≡◌, ◌+◌, ◌++◌, ℕ, List, Ok, length};
ghost use Rattle.dns_name.specs.Labels.{IsName};
ghost use Rattle.dns_message.specs.declared.rdata.RecordData.{RecordData};
ghost use Rattle.dns_message.specs.Msg.{IsMessage, Msg};
ghost use Rattle.dns_message.specs.Records.{data_octets, data_type};
ghost use Rattle.dns_message.specs.Sections.{answers_of, authority_of, questions_of, reached, standing_answers, standing_authority, standing_additional};
ghost use Rattle.dns_message.specs.Standing.{data_at};
ghost use Rattle.dns_message.specs.TypedData.{HasNames, IsTyped, ReadsBack};
ghost use Rattle.dns_message.specs.Wire.{wire};

use crate::rdata::RecordData;
use dns_name::Name;

/// Records that are written from typed data come back from each section as the same records, one for one.
pub fn typed_records_read_back()
    ensures answers { (m : Msg) → IsMessage m → ReadsBack m.answers (reached (questions_of (wire m)).1 (standing_answers (wire m))) }
    ensures authority { (m : Msg) → IsMessage m → ReadsBack m.authority (reached (answers_of (wire m)).1 (standing_authority (wire m))) }
    ensures additional { (m : Msg) → IsMessage m
        → ReadsBack m.additional (reached (authority_of (wire m)).1 (standing_additional (wire m))) }
{}

/// Typed data that stands in octets is read back there, whatever stands before and after it.
pub fn typed_data_reads_back()
    ensures { (d : RecordData) (before behind : List ℕ) → IsTyped d
        → data_at (data_type d) (before ++ (data_octets d ++ behind)) (length before + length (data_octets d)) (length before) ≡ Ok d }
{}

/// The names in data are names, so that lawful data is read back.
pub fn data_has_names(rdata: &RecordData)
    ensures { HasNames rdata.now }
{
    match rdata {
        RecordData::Named { name, .. } => is_name(name),
        RecordData::Soa { mname, rname, .. } => are_names(mname, rname),
        RecordData::Minfo { first, second } => are_names(first, second),
        RecordData::Mx { exchange, .. } => is_name(exchange),
        RecordData::Srv { target, .. } => is_name(target),
        _ => {}
    }
}

fn is_name(name: &Name)
    ensures { IsName name.now }
{
    let _octets = name.as_slice();
}

fn are_names(one: &Name, other: &Name)
    ensures one { IsName one.now }
    ensures other { IsName other.now }
{
    is_name(one);
    is_name(other);
}
