//! The NSEC3s that are chosen for a denial (RFC 5155, section 7.2).

ghost use Rattle.std.specs.Prelude.{◌≡◌, ◌<◌, ◌≤◌, ◌∷◌, length, false, IfOk, IfSome, MatchOption};
ghost use Rattle.dns_name.specs.Labels.{spell};
ghost use Rattle.dns_denial.specs.Accepted3.{Denies, HasNoZone3, IsClosest, IsDenialOf};
ghost use Rattle.dns_denial.specs.Hashes.{AreSorted3};
ghost use Rattle.dns_denial.specs.Nsec3.{IsNear, is_matched};

use crate::hash::Hashing;
use crate::nsec3::{HashedChain, Nsec3, nearest};
use crate::wildcard::wildcard_below;
use dns_name::{NameRef, OutOfMemory};
use std::alloc::Global;

/// The NSEC3s that deny what a reply says of a name is absent.
#[derive(Drop)]
pub enum HashedDenial<'a> {
    /// The name's own.
    Own(&'a Nsec3),
    /// Those of a name that has none.
    Missing {
        /// That of the closest provable encloser (RFC 5155, section 1.3).
        encloser: &'a Nsec3,
        /// The one that covers the next closer name, one label longer.
        next: &'a Nsec3,
        /// The one that matches or covers the wildcard below the encloser.
        wildcard: &'a Nsec3,
    },
}

/// The NSEC3 that matches or covers a name, and which of both.
#[derive(Drop)]
pub(crate) struct Near<'a> {
    nsec: &'a Nsec3,
    matched: bool,
}

/// The closest provable encloser of a name with its NSEC3, and that of the next closer name.
#[derive(Drop)]
pub(crate) struct Closest<'a, 'n> {
    encloser: &'a Nsec3,
    next: &'a Nsec3,
    above: NameRef<'n>,
}

/// The NSEC3 that matches or covers a name.
fn near_of<'a>(
    nsecs: &'a [Nsec3],
    alloc: Global,
    hashing: &Hashing,
    name: &NameRef<'_>,
) -> Result<Near<'a>, OutOfMemory>
    requires sorted { AreSorted3 nsecs.now }
    requires some { 0 < length nsecs.now }
    ensures nsec { IfOk result (λ n. IsNear hashing.now nsecs.now name.now n.nsec.now) }
    ensures matched { IfOk result (λ n. n.matched ≡ is_matched hashing.now nsecs.now name.now) }
{
    let hash = hashing.hash(alloc, name)?;
    let nsec = nearest(nsecs, &hash);
    let matched = nsec.is_of(&hash);
    Ok(Near { nsec, matched })
}

/// The closest provable encloser of a name that has no NSEC3, if there is one.
fn closest_of<'a, 'n>(
    nsecs: &'a [Nsec3],
    alloc: Global,
    hashing: &Hashing,
    name: &NameRef<'n>,
    own: &'a Nsec3,
) -> Result<Option<Closest<'a, 'n>>, OutOfMemory>
    requires sorted { AreSorted3 nsecs.now }
    requires some { 0 < length nsecs.now }
    requires near { IsNear hashing.now nsecs.now name.now own.now }
    requires unmatched { is_matched hashing.now nsecs.now name.now ≡ false }
    ensures { IfOk result (λ o. MatchOption o (HasNoZone3 hashing.now nsecs.now name.now) (IsClosest hashing.now nsecs.now name.now)) }
{
    let mut left = name.behind(0);
    let mut next = own;
    'labels: while left.label_count() > 1 {
        let _octets = left.as_slice();
        let above = left.behind(1);
        let found = near_of(nsecs, alloc, hashing, &above)?;
        if found.matched {
            return Ok(Some(Closest {
                encloser: found.nsec,
                next,
                above,
            }));
        }
        next = found.nsec;
        left = above;
    }
    Ok(None)
}

impl HashedChain {
    /// The NSEC3s that deny a name, a type at it, or DS at a delegation point: its own, or if it has none those of its
    /// closest provable encloser, of the next closer name and of the wildcard (RFC 5155, sections 7.2.1 to 7.2.7). None only
    /// if no zone whose chain this is has the name at or below its apex.
    pub fn denial(
        &self,
        alloc: Global,
        hashing: &Hashing,
        name: &NameRef<'_>,
    ) -> Result<Option<HashedDenial<'_>>, OutOfMemory>
        ensures chosen { IfOk result (λ d. MatchOption d (HasNoZone3 hashing.now self.now name.now)
            (Denies hashing.now self.now name.now)) }
        ensures each { IfOk result (λ d. IfSome d (IsDenialOf hashing.now self.now name.now)) }
    {
        let nsecs = self.nsecs();
        if nsecs.is_empty() {
            return Ok(None);
        }
        let own = near_of(nsecs, alloc, hashing, name)?;
        if own.matched {
            return Ok(Some(HashedDenial::Own(own.nsec)));
        }
        let Some(found) = closest_of(nsecs, alloc, hashing, name, own.nsec)? else {
            return Ok(None);
        };
        match wildcard_below(alloc, &found.above)? {
            Some(below) => {
                let wild = near_of(nsecs, alloc, hashing, &below.for_ref())?;
                Ok(Some(HashedDenial::Missing {
                    encloser: found.encloser,
                    next: found.next,
                    wildcard: wild.nsec,
                }))
            }
            None => unreachable!(),
        }
    }
}
