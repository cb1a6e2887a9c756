//! The NSEC3s of names.

ghost use Rattle.std.specs.Prelude.{◌≡◌, ◌≤◌, ◌<◌, length, true, IfOk};
ghost use Rattle.std.specs.List.{count_by};
ghost use Rattle.std.specs.Str.{bytes_eq};
ghost use Rattle.dns_denial.specs.Hashes.{AreSorted3, is_up_to3};
ghost use Rattle.dns_denial.specs.Nsec3.{is_matched};
ghost use Rattle.dns_hashed_zone.specs.Searches.{IsFound, any_matched, near_place, nearest_place};

use dns_denial::{Hashing, Nsec3};
use dns_name::{NameRef, OutOfMemory};
use std::alloc::Global;

/// The NSEC3s of a name, by their places in the order of hashes.
#[derive(Drop)]
pub enum HashedName<'n> {
    /// The name's own.
    Own(usize),
    /// Those of a name that has none.
    Missing {
        /// That of the closest provable encloser (RFC 5155, section 1.3).
        encloser: usize,
        /// The one that covers the next closer name, one label longer.
        next: usize,
        /// The closest provable encloser.
        above: NameRef<'n>,
    },
}

/// The place of the NSEC3 that matches or covers a name, and which of both.
#[derive(Clone, Copy)]
pub struct Near {
    /// The place.
    pub place: usize,
    /// Whether it is the name's.
    pub matched: bool,
}

/// How many NSEC3s have a hash that is not above another.
fn count_up_to(nsecs: &[Nsec3], hash: &[u8]) -> usize
    requires { AreSorted3 nsecs.now }
    ensures bound { result ≤ length nsecs.now }
    ensures count { result ≡ count_by (is_up_to3 hash.now) nsecs.now }
{
    nsecs.partition_point(|nsec| is_up_to(nsec, hash))
}

/// Whether the hash of an NSEC3 is not above another.
fn is_up_to(nsec: &Nsec3, hash: &[u8]) -> bool
    ensures { result ≡ is_up_to3 hash.now nsec.now }
{
    let own: &[u8] = nsec.hash();
    !hash.cmp(own).is_lt()
}

/// The place of the NSEC3 that matches or covers a hash: the last that is not above it, or where all are, the highest.
pub(crate) fn nearest(nsecs: &[Nsec3], hash: &[u8]) -> usize
    requires sorted { AreSorted3 nsecs.now }
    requires some { 0 < length nsecs.now }
    ensures place { result ≡ nearest_place nsecs.now hash.now }
    ensures within { result < length nsecs.now }
{
    let count = count_up_to(nsecs, hash);
    if count == 0 {
        return nsecs.len() - 1;
    }
    count - 1
}

/// Whether a hash is that of an NSEC3.
pub(crate) fn is_of(nsec: &Nsec3, hash: &[u8]) -> bool
    ensures { result ≡ bytes_eq nsec.now.hash hash.now }
{
    let own: &[u8] = nsec.hash();
    own == hash
}

/// The NSEC3 that matches or covers a name.
pub(crate) fn near_of(
    nsecs: &[Nsec3],
    alloc: Global,
    hashing: &Hashing,
    name: &NameRef<'_>,
) -> Result<Near, OutOfMemory>
    requires sorted { AreSorted3 nsecs.now }
    requires some { 0 < length nsecs.now }
    ensures place { IfOk result (λ n. n.place ≡ near_place hashing.now nsecs.now name.now) }
    ensures within { IfOk result (λ n. n.place < length nsecs.now) }
    ensures matched { IfOk result (λ n. n.matched ≡ is_matched hashing.now nsecs.now name.now) }
{
    let hash = hashing.hash(alloc, name)?;
    let place = nearest(nsecs, &hash);
    let matched = is_of(&nsecs[place], &hash);
    Ok(Near { place, matched })
}

/// The NSEC3s of a name that has one, or one above which has.
pub(crate) fn found<'n>(
    nsecs: &[Nsec3],
    alloc: Global,
    hashing: &Hashing,
    name: &NameRef<'n>,
) -> Result<HashedName<'n>, OutOfMemory>
    requires sorted { AreSorted3 nsecs.now }
    requires some { 0 < length nsecs.now }
    requires above { any_matched hashing.now nsecs.now name.now ≡ true }
    ensures { IfOk result (IsFound hashing.now nsecs.now name.now) }
{
    let own = near_of(nsecs, alloc, hashing, name)?;
    if own.matched {
        return Ok(HashedName::Own(own.place));
    }
    let mut left = name.behind(0);
    let mut next = own.place;
    'labels: while left.label_count() > 1 {
        let above = left.behind(1);
        let near = near_of(nsecs, alloc, hashing, &above)?;
        if near.matched {
            return Ok(HashedName::Missing {
                encloser: near.place,
                next,
                above,
            });
        }
        next = near.place;
        left = above;
    }
    unreachable!()
}
