//! Absolute names.

ghost use Rattle.std.specs.Prelude.{◌≡◌, ◌++◌, ◌∷◌, OnOk};
ghost use Rattle.dns_record_text.specs.RecordText.{absolute_text, escaped_label, escaped_labels, escaped_octet, stands};

use crate::octets::push;
use dns_name::{Labels, Name, OutOfMemory};

/// Whether an octet stands for itself.
fn stands(octet: u8) -> bool
    ensures { result ≡ stands octet }
{
    matches!(octet, b'0'..=b'9' | b'A'..=b'Z' | b'a'..=b'z' | b'-' | b'_' | b'*')
}

/// Appends the text of an octet of a label.
fn push_octet(target: &mut Vec<u8>, octet: u8) -> Result<(), OutOfMemory>
    ensures { OnOk result (target.new.items ≡ target.old.items ++ escaped_octet octet) }
{
    if stands(octet) {
        return push(target, &[octet]);
    }
    push(
        target,
        &[
            b'\\',
            b'0' + octet / 100,
            b'0' + octet / 10 % 10,
            b'0' + octet % 10,
        ],
    )
}

/// Appends the text of a label.
fn push_label(target: &mut Vec<u8>, label: &[u8]) -> Result<(), OutOfMemory>
    ensures { OnOk result (target.new.items ≡ target.old.items ++ escaped_label label.now) }
{
    for octet in label {
        push_octet(target, *octet)?;
    }
    Ok(())
}

/// Appends labels, each with a dot after it.
fn push_labels(target: &mut Vec<u8>, mut labels: Labels<'_>) -> Result<(), OutOfMemory>
    ensures { OnOk result (target.new.items ≡ target.old.items ++ escaped_labels labels.entry) }
{
    'labels: while let Some(label) = labels.next() {
        push_label(target, label)?;
        push(target, b".")?;
    }
    Ok(())
}

/// Appends an absolute name.
pub fn push_name(target: &mut Vec<u8>, name: &Name) -> Result<(), OutOfMemory>
    ensures { OnOk result (target.new.items ≡ target.old.items ++ absolute_text name.now) }
{
    if name.label_count() == 1 {
        return push(target, b".");
    }
    push_labels(target, name.labels())
}

/// Appends an absolute name after a space.
pub(crate) fn push_name_word(target: &mut Vec<u8>, name: &Name) -> Result<(), OutOfMemory>
    ensures { OnOk result (target.new.items ≡ target.old.items ++ (32 ∷ absolute_text name.now)) }
{
    push(target, b" ")?;
    push_name(target, name)
}
