//! Octets that compare as names do in the canonical order.

ghost use Rattle.std.specs.Prelude.{◌≡◌, ◌++◌, map, nat_lt, IfOk, OnOk};
ghost use Rattle.std.specs.List.{list_any};
ghost use Rattle.std.specs.Char.{to_ascii_lowercase};
ghost use Rattle.dns_name.specs.Canonical.{from_last};
ghost use Rattle.dns_order.specs.Keys.{label_key, labels_key, canonical_key, octet_key};

use dns_name::{Labels, NameRef, OutOfMemory, push_lower};
use std::alloc::Global;

/// Appends what an octet is written as.
fn push_octet(octet: u8, octets: &mut Vec<u8>) -> Result<(), OutOfMemory>
    ensures { OnOk result (octets.new.items ≡ octets.old.items ++ octet_key octet) }
{
    if octet < 2 {
        octets.push(1)?;
        octets.push(octet + 1)?;
        return Ok(());
    }
    octets.push(octet)?;
    Ok(())
}

/// Appends the key of a label, octet by octet.
fn push_octets(label: &[u8], octets: &mut Vec<u8>) -> Result<(), OutOfMemory>
    ensures { OnOk result (octets.new.items ≡ octets.old.items ++ label_key (map to_ascii_lowercase label.now)) }
{
    'octets: for octet in label {
        push_octet(octet.to_ascii_lowercase(), octets)?;
    }
    octets.push(0)?;
    Ok(())
}

/// Whether one of some octets is written as two.
fn has_pairs(label: &[u8]) -> bool
    ensures { result ≡ list_any (λ x. nat_lt x 2) label.now }
{
    label.iter().any(|octet| *octet < 2)
}

/// Appends the key of a label.
#[tactic(auto, using(crate::proofs::KeyLaws::plain_pushed))]
fn push_label(label: &[u8], octets: &mut Vec<u8>) -> Result<(), OutOfMemory>
    ensures { OnOk result (octets.new.items ≡ octets.old.items ++ label_key (map to_ascii_lowercase label.now)) }
{
    if has_pairs(label) {
        return push_octets(label, octets);
    }
    push_lower(label, octets)?;
    octets.push(0)?;
    Ok(())
}

/// Appends the keys of labels, from the last one on.
fn push_labels(labels: Labels<'_>, octets: &mut Vec<u8>) -> Result<(), OutOfMemory>
    ensures { OnOk result (octets.new.items ≡ octets.old.items ++ labels_key (from_last labels.entry)) }
{
    let mut left = labels;
    let Some(label) = left.next() else {
        return Ok(());
    };
    push_labels(left, octets)?;
    push_label(label, octets)?;
    Ok(())
}

/// The key of a name: octets that compare as names do in the canonical order (RFC 4034, section 6.1). It begins with the keys of
/// the names above, so that one tree finds a name, those above it and those before it.
#[tactic(auto, unfolding(crate::specs::Keys::canonical_key))]
pub fn canonical_key(alloc: Global, name: &NameRef<'_>) -> Result<Vec<u8>, OutOfMemory>
    ensures { IfOk result (λ v. v.items ≡ canonical_key name.now) }
{
    let mut octets = Vec::with_capacity(alloc, name.as_slice().len())?;
    push_labels(name.labels(), &mut octets)?;
    Ok(octets)
}
