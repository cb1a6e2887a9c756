//! Types and data.

ghost use Rattle.std.specs.Prelude.{◌≡◌, ◌++◌, ◌∷◌, OnOk, codes, decimal, map};
ghost use Rattle.std.specs.Net.Addr.{segments_of};
ghost use Rattle.std.specs.Net.Text.{ipv4_text, ipv6_text};
ghost use Rattle.dns_record_text.specs.RecordText.{absolute_text, bare_word, behind_spaces, hex_digits, name_type, name_word, number_word, numbered_type, octet_words, type_word, value_words};

use crate::names::push_name_word;
use crate::octets::{push, push_number, push_number_word, push_numbers, push_word};
use crate::text_strings::push_text;
use dns_message::RecordData;
use dns_name::{Name, OutOfMemory};
use std::alloc::Global;
use std::net::Ipv6Addr;

/// Appends an IPv4 address after a space.
#[tactic(auto, using(crate::proofs::Appended::regrouped))]
fn push_quad_word(target: &mut Vec<u8>, octets: [u8; 4]) -> Result<(), OutOfMemory>
    ensures { OnOk result (target.new.items ≡ target.old.items ++ (32 ∷ ipv4_text octets)) }
{
    let [a, b, c, d] = octets;
    push_number_word(target, a as u64)?;
    push(target, b".")?;
    push_number(target, b as u64)?;
    push(target, b".")?;
    push_number(target, c as u64)?;
    push(target, b".")?;
    push_number(target, d as u64)
}

/// Appends an IPv6 address after a space.
fn push_long_word(alloc: Global, target: &mut Vec<u8>, octets: [u8; 16]) -> Result<(), OutOfMemory>
    ensures { OnOk result (target.new.items ≡ target.old.items ++ (32 ∷ ipv6_text (segments_of octets))) }
{
    let address = Ipv6Addr::from_octets(octets);
    let text = format!(in alloc; "{address}")?;
    push_word(target, text.as_bytes())
}

/// Appends a type by its number.
fn push_numbered_type(target: &mut Vec<u8>, rtype: u16) -> Result<(), OutOfMemory>
    ensures { OnOk result (target.new.items ≡ target.old.items ++ (32 ∷ numbered_type rtype)) }
{
    push(target, b" TYPE")?;
    push_number(target, rtype as u64)
}

/// Appends a type whose data is one name.
fn push_name_type(target: &mut Vec<u8>, rtype: u16) -> Result<(), OutOfMemory>
    ensures { OnOk result (target.new.items ≡ target.old.items ++ (32 ∷ name_type rtype)) }
{
    match rtype {
        2 => push(target, b" NS"),
        5 => push(target, b" CNAME"),
        12 => push(target, b" PTR"),
        39 => push(target, b" DNAME"),
        _ => push_numbered_type(target, rtype),
    }
}

/// Appends hexadecimal digits after a space, if there is an octet.
fn push_hex(alloc: Global, target: &mut Vec<u8>, octets: &[u8]) -> Result<(), OutOfMemory>
    ensures { OnOk result (target.new.items ≡ target.old.items ++ behind_spaces (hex_digits octets.now)) }
{
    if octets.is_empty() {
        return Ok(());
    }
    let text = hex::encode(alloc, octets)?;
    push_word(target, text.as_bytes())
}

/// Appends data as octets after their length.
#[tactic(auto, using(crate::proofs::Appended::regrouped))]
pub(crate) fn push_octet_words(
    alloc: Global,
    target: &mut Vec<u8>,
    octets: &[u8],
) -> Result<(), OutOfMemory>
    ensures { OnOk result (target.new.items ≡ target.old.items ++ behind_spaces (octet_words octets.now)) }
{
    push(target, b" \\#")?;
    push_number_word(target, octets.len() as u64)?;
    push_hex(alloc, target, octets)
}

/// Appends a type by its number, and data as octets after their length.
#[tactic(auto, using(crate::proofs::Appended::regrouped))]
fn push_octets(
    alloc: Global,
    target: &mut Vec<u8>,
    rtype: u16,
    octets: &[u8],
) -> Result<(), OutOfMemory>
    ensures { OnOk result (target.new.items ≡ target.old.items
        ++ behind_spaces (bare_word (numbered_type rtype) ∷ octet_words octets.now)) }
{
    push_numbered_type(target, rtype)?;
    push_octet_words(alloc, target, octets)
}

/// Appends the data of a zone's start.
#[tactic(auto, using(crate::proofs::Appended::regrouped))]
fn push_zone_start(
    target: &mut Vec<u8>,
    mname: &Name,
    rname: &Name,
    numbers: [u32; 5],
) -> Result<(), OutOfMemory>
    ensures { OnOk result (target.new.items ≡ target.old.items
        ++ behind_spaces (bare_word (codes "SOA") ∷ name_word mname.now ∷ name_word rname.now ∷ map number_word numbers)) }
{
    push(target, b" SOA")?;
    push_name_word(target, mname)?;
    push_name_word(target, rname)?;
    push_numbers(target, &numbers)
}

/// Appends a type, numbers and a name.
#[tactic(auto, using(crate::proofs::Appended::regrouped))]
fn push_numbered_name(
    target: &mut Vec<u8>,
    mnemonic: &[u8],
    numbers: &[u32],
    name: &Name,
) -> Result<(), OutOfMemory>
    ensures { OnOk result (target.new.items ≡ target.old.items
        ++ (32 ∷ (mnemonic.now ++ (behind_spaces (map number_word numbers.now) ++ (32 ∷ absolute_text name.now))))) }
{
    push_word(target, mnemonic)?;
    push_numbers(target, numbers)?;
    push_name_word(target, name)
}

/// Appends a type of no shape of its own, and its data.
#[tactic(auto, using(crate::proofs::Appended::regrouped))]
fn push_unknown(
    alloc: Global,
    target: &mut Vec<u8>,
    rtype: u16,
    octets: &[u8],
) -> Result<(), OutOfMemory>
    ensures { OnOk result (target.new.items ≡ target.old.items
        ++ behind_spaces (bare_word (type_word (RecordData.Unknown rtype octets.now))
        ∷ value_words (RecordData.Unknown rtype octets.now))) }
{
    if rtype != 16 {
        return push_octets(alloc, target, rtype, octets);
    }
    push(target, b" TXT")?;
    push_text(alloc, target, octets)
}

/// Appends the type and the data of a record.
#[tactic(auto, using(crate::proofs::Appended::regrouped))]
pub(crate) fn push_data(
    alloc: Global,
    target: &mut Vec<u8>,
    rdata: &RecordData,
) -> Result<(), OutOfMemory>
    ensures { OnOk result (target.new.items ≡ target.old.items ++ behind_spaces (bare_word (type_word rdata.now) ∷ value_words rdata.now)) }
{
    match rdata {
        RecordData::A(octets) => {
            push(target, b" A")?;
            push_quad_word(target, *octets)
        }
        RecordData::Aaaa(octets) => {
            push(target, b" AAAA")?;
            push_long_word(alloc, target, *octets)
        }
        RecordData::Named { rtype, name } => {
            push_name_type(target, rtype.to_int())?;
            push_name_word(target, name)
        }
        RecordData::Soa {
            mname,
            rname,
            serial,
            refresh,
            retry,
            expire,
            minimum,
        } => {
            let numbers = [
                serial.0,
                refresh.as_secs(),
                retry.as_secs(),
                expire.as_secs(),
                minimum.as_secs(),
            ];
            push_zone_start(target, mname, rname, numbers)
        }
        RecordData::Minfo { first, second } => {
            push(target, b" MINFO")?;
            push_name_word(target, first)?;
            push_name_word(target, second)
        }
        RecordData::Mx {
            preference,
            exchange,
        } => push_numbered_name(target, b"MX", &[*preference as u32], exchange),
        RecordData::Srv {
            priority,
            weight,
            port,
            target: host,
        } => {
            let numbers = [*priority as u32, *weight as u32, *port as u32];
            push_numbered_name(target, b"SRV", &numbers, host)
        }
        RecordData::Opt(octets) => push_octets(alloc, target, 41, octets.as_slice()),
        RecordData::Unknown { rtype, octets } => {
            push_unknown(alloc, target, rtype.to_int(), octets.as_slice())
        }
    }
}
