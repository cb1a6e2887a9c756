//! Octets, numbers and words that are appended.

ghost use Rattle.std.specs.Prelude.{◌≡◌, ◌++◌, ◌∷◌, OnOk, decimal, map};
ghost use Rattle.dns_record_text.specs.RecordText.{behind_spaces, number_word};

use dns_name::OutOfMemory;
use itoa::Buffer;

/// Appends octets.
pub fn push(target: &mut Vec<u8>, octets: &[u8]) -> Result<(), OutOfMemory>
    ensures { OnOk result (target.new.items ≡ target.old.items ++ octets.now) }
{
    target.extend_from_slice(octets)?;
    Ok(())
}

/// Appends a number in decimal.
pub fn push_number(target: &mut Vec<u8>, number: u64) -> Result<(), OutOfMemory>
    ensures { OnOk result (target.new.items ≡ target.old.items ++ decimal number) }
{
    let mut buffer = Buffer::new();
    push(target, buffer.format(number).as_bytes())
}

/// Appends a word after a space.
pub(crate) fn push_word(target: &mut Vec<u8>, word: &[u8]) -> Result<(), OutOfMemory>
    ensures { OnOk result (target.new.items ≡ target.old.items ++ (32 ∷ word.now)) }
{
    push(target, b" ")?;
    push(target, word)
}

/// Appends a number after a space.
pub(crate) fn push_number_word(target: &mut Vec<u8>, number: u64) -> Result<(), OutOfMemory>
    ensures { OnOk result (target.new.items ≡ target.old.items ++ (32 ∷ decimal number)) }
{
    push(target, b" ")?;
    push_number(target, number)
}

/// Appends numbers, each after a space.
pub(crate) fn push_numbers(target: &mut Vec<u8>, numbers: &[u32]) -> Result<(), OutOfMemory>
    ensures { OnOk result (target.new.items ≡ target.old.items ++ behind_spaces (map number_word numbers.now)) }
{
    for number in numbers {
        push_number_word(target, *number as u64)?;
    }
    Ok(())
}
