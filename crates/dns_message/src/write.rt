//! Octets at the end of octets.

ghost use Rattle.std.specs.Prelude.{◌≡◌, ◌++◌, length, take, OnOk, OnErr};
ghost use Rattle.dns_name.specs.Labels.{IsName, spell};
ghost use Rattle.dns_name.specs.Place.{two, four};

use dns_name::{Labels, OutOfMemory};

/// Appends octets.
pub(crate) fn push_octets(target: &mut Vec<u8>, octets: &[u8]) -> Result<(), OutOfMemory>
    ensures ok { OnOk result (target.new.items ≡ target.old.items ++ octets.now) }
    ensures err { OnErr result (target.new.items ≡ target.old.items) }
{
    target.extend_from_slice(octets)?;
    Ok(())
}

/// Appends a number of two octets.
pub(crate) fn push_two(target: &mut Vec<u8>, n: u16) -> Result<(), OutOfMemory>
    ensures ok { OnOk result (target.new.items ≡ target.old.items ++ two n) }
    ensures err { OnErr result (target.new.items ≡ target.old.items) }
{
    push_octets(target, &[(n / 256) as u8, (n % 256) as u8])
}

/// Appends a number of four octets.
pub(crate) fn push_four(target: &mut Vec<u8>, n: u32) -> Result<(), OutOfMemory>
    ensures ok { OnOk result (target.new.items ≡ target.old.items ++ four n) }
    ensures err { OnErr result (target.new.items ≡ target.old.items) }
{
    let high = n / 65536;
    let low = n % 65536;
    push_octets(
        target,
        &[
            (high / 256) as u8,
            (high % 256) as u8,
            (low / 256) as u8,
            (low % 256) as u8,
        ],
    )
}

/// How many octets labels take with the root's (RFC 1035, section 3.1).
pub(crate) fn labels_size(mut labels: Labels<'_>) -> usize
    requires { IsName labels }
    ensures { result ≡ length (spell labels.entry) }
{
    let mut size = 1;
    'labels: while let Some(label) = labels.next() {
        size += label.len() + 1;
    }
    size
}

/// Appends the octets of labels with the root's, or some of them.
pub(crate) fn push_labels(target: &mut Vec<u8>, mut labels: Labels<'_>) -> Result<(), OutOfMemory>
    requires { IsName labels }
    ensures ok { OnOk result (target.new.items ≡ target.old.items ++ spell labels.entry) }
    ensures err { OnErr result (take (length target.old.items) target.new.items ≡ target.old.items) }
{
    'labels: while let Some(label) = labels.next() {
        push_octets(target, &[label.len() as u8])?;
        push_octets(target, label)?;
    }
    push_octets(target, &[0])
}

/// Cuts off what a refused write left after that many octets.
pub(crate) fn settle(
    target: &mut Vec<u8>,
    start: usize,
    written: Result<(), OutOfMemory>,
) -> Result<(), OutOfMemory>
    ensures value { result ≡ written }
    ensures ok { OnOk result (target.new.items ≡ target.old.items) }
    ensures err { OnErr result (target.new.items ≡ take start target.old.items) }
{
    if written.is_err() {
        target.truncate(start);
    }
    written
}
