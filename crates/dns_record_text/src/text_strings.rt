//! Strings in quotes.

ghost use Rattle.std.specs.Prelude.{◌≡◌, ◌-◌, ◌++◌, ◌∷◌, [], IfOk, OnOk, nat_eq, if◌then◌else◌};
ghost use Rattle.dns_record_text.specs.RecordText.{behind_spaces, end_strings, quoted_octet, stands_in_quotes, string_octet_text, string_words, strings_on, text_words};

use crate::octets::push;
use crate::rdata::push_octet_words;
use dns_name::OutOfMemory;
use std::alloc::Global;

/// Whether an octet stands for itself in quotes.
fn stands_in_quotes(octet: u8) -> bool
    ensures { result ≡ stands_in_quotes octet }
{
    matches!(octet, b' '..=b'~') && !matches!(octet, b'"' | b'\\')
}

/// Appends the text of an octet in quotes.
fn push_quoted_octet(target: &mut Vec<u8>, octet: u8) -> Result<(), OutOfMemory>
    ensures { OnOk result (target.new.items ≡ target.old.items ++ quoted_octet octet) }
{
    if stands_in_quotes(octet) {
        return push(target, &[octet]);
    }
    push(
        target,
        &[
            b'\\',
            b'0' + octet / 100,
            b'0' + octet / 10 % 10,
            b'0' + octet % 10,
        ],
    )
}

/// How many octets are left of a string after an octet: of one with that many left, or the length of another.
fn left_behind(left: u8, octet: u8) -> u8
    ensures { result ≡ (if nat_eq left 0 then octet else left - 1) }
{
    if left == 0 {
        return octet;
    }
    left - 1
}

/// Whether octets end strings, of which the first has that many octets left.
fn end_strings(length: u8, octets: &[u8]) -> bool
    ensures { result ≡ end_strings length octets.now }
{
    let mut left = length;
    for octet in octets {
        left = left_behind(left, *octet);
    }
    left == 0
}

/// Appends an octet of strings: of one with that many octets left, or the length of another. Gives how many are left.
fn push_string_octet(target: &mut Vec<u8>, left: u8, octet: u8) -> Result<u8, OutOfMemory>
    ensures left { IfOk result (λ n. n ≡ (if nat_eq left 0 then octet else left - 1)) }
    ensures value { OnOk result (target.new.items ≡ target.old.items ++ string_octet_text left octet) }
{
    if left == 0 {
        push(target, b"\" \"")?;
        return Ok(octet);
    }
    push_quoted_octet(target, octet)?;
    Ok(left - 1)
}

/// Appends the text of strings, of which the first has that many octets left.
fn push_strings_on(target: &mut Vec<u8>, length: u8, octets: &[u8]) -> Result<(), OutOfMemory>
    ensures { OnOk result (target.new.items ≡ target.old.items ++ strings_on length octets.now) }
{
    let mut left = length;
    for octet in octets {
        left = push_string_octet(target, left, *octet)?;
    }
    push(target, b"\"")
}

/// Appends strings, each after a space, of which the first has this length.
#[tactic(auto, using(crate::proofs::Appended::text_spaced, crate::proofs::Appended::regrouped))]
fn push_strings(target: &mut Vec<u8>, length: u8, octets: &[u8]) -> Result<(), OutOfMemory>
    ensures { OnOk result (target.new.items ≡ target.old.items ++ behind_spaces (string_words length [] octets.now)) }
{
    push(target, b" \"")?;
    push_strings_on(target, length, octets)
}

/// Appends strings, each after a space, or other octets as octets.
pub(crate) fn push_text(
    alloc: Global,
    target: &mut Vec<u8>,
    octets: &[u8],
) -> Result<(), OutOfMemory>
    ensures { OnOk result (target.new.items ≡ target.old.items ++ behind_spaces (text_words octets.now)) }
{
    let [length, behind @ ..] = octets else {
        return push_octet_words(alloc, target, octets);
    };
    if end_strings(*length, behind) {
        return push_strings(target, *length, behind);
    }
    push_octet_words(alloc, target, octets)
}
