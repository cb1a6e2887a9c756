//! Names of metrics and labels.

ghost use Rattle.std.specs.Prelude.{◌≡◌};
ghost use Rattle.std.specs.List.{list_all};
ghost use Rattle.dns_metrics.specs.Names.{is_label_name, is_metric_name, is_name, is_name_octet, is_reserved, is_word_octet};

/// Whether an octet is a letter, a digit or an underscore.
fn is_word_octet(octet: u8) -> bool
    ensures { result ≡ is_word_octet octet }
{
    matches!(octet, b'0'..=b'9' | b'A'..=b'Z' | b'a'..=b'z' | b'_')
}

/// Whether an octet may stand in a name, with colons or without.
fn is_name_octet(octet: u8, colon: bool) -> bool
    ensures { result ≡ is_name_octet colon octet }
{
    is_word_octet(octet) || (octet == b':' && colon)
}

/// Whether each octet may stand in a name, with colons or without.
fn are_name_octets(octets: &[u8], colon: bool) -> bool
    ensures { result ≡ list_all (is_name_octet colon) octets.now }
{
    for octet in octets {
        if !is_name_octet(*octet, colon) {
            return false;
        }
    }
    true
}

/// Whether octets are a name, with colons or without.
fn is_name(octets: &[u8], colon: bool) -> bool
    ensures { result ≡ is_name colon octets.now }
{
    match octets {
        [first, ..] => !matches!(*first, b'0'..=b'9') && are_name_octets(octets, colon),
        [] => false,
    }
}

/// Whether a metric may have this name.
pub fn is_metric_name(name: &str) -> bool
    ensures { result ≡ is_metric_name name.now }
{
    is_name(name.as_bytes(), true)
}

/// Whether a name is reserved.
fn is_reserved(name: &[u8]) -> bool
    ensures { result ≡ is_reserved name.now }
{
    match name {
        [first, second, ..] => *first == b'_' && *second == b'_',
        _ => false,
    }
}

/// Whether a label may have this name. One that begins with two underscores is reserved.
pub fn is_label_name(name: &str) -> bool
    ensures { result ≡ is_label_name name.now }
{
    !is_reserved(name.as_bytes()) && is_name(name.as_bytes(), false)
}
