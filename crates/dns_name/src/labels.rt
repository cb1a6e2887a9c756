//! The labels of a name.

ghost use Rattle.std.specs.Prelude.{◌≡◌, ◌≤◌, ◌<◌, ◌+◌, ◌++◌, ◌∷◌, ◌↔◌, length, drop, map, IsTrue, OnErr, OnOk};
ghost use Rattle.std.specs.Char.{to_ascii_lowercase};
ghost use Rattle.std.specs.Iterator.{YieldsFirstBy, item_count};
ghost use Rattle.dns_name.specs.Canonical.{label_cmp, name_cmp};
ghost use Rattle.dns_name.specs.Labels.{IsName, EndsWith, folded};
ghost use Rattle.dns_name.specs.Names.{CanGoOn, labels_of, name_by};

use crate::error::OutOfMemory;
use crate::piece::{NameBounds, Piece, piece_at};
use std::cmp::Ordering;
use std::marker::Model;

/// The labels that are left of a name, from the first to the last, without the root's.
#[derive(Drop)]
pub struct Labels<'a> {
    message: &'a [u8],
    reach: NameBounds,
    at: usize,
    size: usize,
    hops: usize,
}

impl<'a> Model for Labels<'a> {
    ghost use Rattle.std.specs.Prelude.{List, ℕ};
    ghost use Rattle.dns_name.specs.Names.{rest_of, labels_of, CanGoOn};

    ghost Value = { List (List ℕ) };

    ghost view = { λ l. labels_of (rest_of l.message.now l.reach l.at l.size l.hops) };

    ghost invariant = { λ l. CanGoOn l.message.now l.reach l.at l.size l.hops };
}

impl<'a> Labels<'a> {
    /// The labels of the name that is read so at a place.
    #[tactic(auto, unfolding(crate::specs::Names::name_by))]
    pub(crate) fn of(message: &'a [u8], reach: NameBounds, at: usize) -> Labels<'a>
        requires { CanGoOn message.now reach at 0 0 }
        ensures value { result ≡ labels_of (name_by message.now reach at) }
        ensures named { IsName result }
        ensures few { length result ≤ 127 }
    {
        Labels {
            message,
            reach,
            at,
            size: 0,
            hops: 0,
        }
    }

    /// The labels after that many.
    pub fn behind(self, skipped: usize) -> Labels<'a>
        ensures { result ≡ drop skipped self.entry }
    {
        behind(self, skipped)
    }
}

impl<'a> Iterator for Labels<'a> {
    type Item = &'a [u8];

    ghost next_gives = { YieldsFirstBy (λ x. x.now) (λ l. l) };

    ghost remaining = { item_count (λ l. l) };

    fn next(&mut self) -> Option<&'a [u8]> {
        'pieces: loop {
            match piece_at(self.message, self.reach, self.hops, self.at) {
                Ok(Piece::Text(n)) => {
                    let start = self.at + 1;
                    let label = &self.message[start..start + n];
                    self.at = self.at + n + 1;
                    self.size = self.size + n + 1;
                    return Some(label);
                }
                Ok(Piece::Jump(target)) => {
                    self.at = target;
                    self.hops += 1;
                }
                Ok(Piece::End) => return None,
                Err(_) => return None,
            }
        }
    }
}

/// Appends a label after its length.
pub(crate) fn push_spelt(label: &[u8], octets: &mut Vec<u8>) -> Result<(), OutOfMemory>
    requires { length label.now < 256 }
    ensures { OnOk result (octets.new.items ≡ octets.old.items ++ (length label.now ∷ label.now)) }
{
    octets.push(label.len() as u8)?;
    octets.extend_from_slice(label)?;
    Ok(())
}

/// Appends octets in lower case; nothing if there is no memory.
pub fn push_lower(label: &[u8], octets: &mut Vec<u8>) -> Result<(), OutOfMemory>
    ensures ok { OnOk result (octets.new.items ≡ octets.old.items ++ map to_ascii_lowercase label.now) }
    ensures err { OnErr result (octets.new.items ≡ octets.old.items) }
{
    let start = octets.len();
    octets.extend_from_slice(label)?;
    octets.as_mut_slice()[start..].make_ascii_lowercase();
    Ok(())
}

/// Whether the labels are the same up to ASCII case.
pub(crate) fn same(mut labels: Labels<'_>, mut others: Labels<'_>) -> bool
    ensures { IsTrue result ↔ (folded labels.entry ≡ folded others.entry) }
{
    'labels: loop {
        let Some(label) = labels.next() else {
            return others.next().is_none();
        };
        let Some(other) = others.next() else {
            return false;
        };
        if !label.eq_ignore_ascii_case(other) {
            return false;
        }
    }
}

/// Whether the labels, of which there are this many with the root's, end with the others.
pub(crate) fn ends(labels: Labels<'_>, count: usize, others: Labels<'_>, other_count: usize) -> bool
    requires counted { count ≡ length labels + 1 }
    requires others_counted { other_count ≡ length others + 1 }
    ensures { IsTrue result ↔ EndsWith labels.entry others.entry }
{
    if count < other_count {
        return false;
    }
    same(behind(labels, count - other_count), others)
}

/// The labels after that many.
fn behind(mut labels: Labels<'_>, skipped: usize) -> Labels<'_>
    ensures { result ≡ drop skipped labels.entry }
{
    'skip: for _i in 0..skipped {
        labels.next();
    }
    labels
}

/// How the labels, of which there are this many with the root's, compare with the others in the canonical order
/// (RFC 4034, section 6.1).
#[tactic(auto, using(crate::proofs::Orders::by_last_and_count))]
pub(crate) fn canonical(
    labels: Labels<'_>,
    count: usize,
    others: Labels<'_>,
    other_count: usize,
) -> Ordering
    requires counted { count ≡ length labels + 1 }
    requires others_counted { other_count ≡ length others + 1 }
    ensures { result ≡ name_cmp labels.entry others.entry }
{
    let left = behind(labels, count.saturating_sub(other_count));
    let others_left = behind(others, other_count.saturating_sub(count));
    by_last(left, others_left).then(count.cmp(&other_count))
}

/// How as many labels compare in the canonical order: a label decides if those after it are the same.
fn by_last(mut labels: Labels<'_>, mut others: Labels<'_>) -> Ordering
    requires { length labels ≡ length others }
    ensures { result ≡ name_cmp labels.entry others.entry }
{
    let mut found = Ordering::Equal;
    'labels: while let Some(label) = labels.next() {
        let Some(other) = others.next() else {
            return found;
        };
        found = label_order(label, other).then(found);
    }
    found
}

/// How labels compare as octets with ASCII letters in lower case.
fn label_order(label: &[u8], other: &[u8]) -> Ordering
    ensures { result ≡ label_cmp label.now other.now }
{
    let folded = label.iter().map(u8::to_ascii_lowercase);
    folded.cmp(other.iter().map(u8::to_ascii_lowercase))
}
