//! The way down from the apex to a name, label by label.

ghost use Rattle.std.specs.Prelude.{◌≡◌, ◌+◌, ◌∷◌, length, IfOk, IsTrue, MatchBool};
ghost use Rattle.std.specs.Option.{option_copied};
ghost use Rattle.dns_order.specs.Keys.{canonical_key};
ghost use Rattle.dns_route.specs.Routes.{ends_name};
ghost use Rattle.dns_zone_tree.specs.Walks.{EndsAt, HasNoServers, HasServers, IsNode};
ghost use Rattle.dns_zone_tree.specs.Wildcards.{star};

use crate::kinds::Kinds;
use crate::zone_tree::ZoneTree;
use dns_base::Rtype;
use dns_name::{NameRef, OutOfMemory};
use dns_order::canonical_key;
use std::alloc::Global;

/// What a walk from the apex to a name ends at. Places are those of the zone's records.
#[derive(Drop)]
pub enum Walk<'a> {
    /// The places of the records of a cut at or above the name, of which some are NS records.
    Cut(&'a Kinds),
    /// The places of the records of a name above it, of which some are DNAME records.
    Dname(&'a Kinds),
    /// The places of the records of the name, which exists.
    Node(&'a Kinds),
    /// How many labels are before the closest encloser of the name, which doesn't exist.
    Missing(usize),
}

/// The key of the label `*` (RFC 4592, section 2.1.1) below a name.
#[tactic(auto, using(crate::proofs::NameLaws::star_key))]
fn star_key(alloc: Global, above: &NameRef<'_>) -> Result<Vec<u8>, OutOfMemory>
    ensures { IfOk result (λ v. v.items ≡ canonical_key (star ∷ above.now)) }
{
    let mut key = canonical_key(alloc, above)?;
    key.push(b'*')?;
    key.push(0)?;
    Ok(key)
}

/// Whether a name is a cut: it has NS records, and it isn't the name itself if DS is asked for.
fn is_cut(kinds: &Kinds, left: usize, rtype: u16) -> bool
    ensures { MatchBool result (HasServers left rtype kinds.now) (HasNoServers left rtype kinds.now) }
{
    if left == 0 && rtype == Rtype::DS.to_int() {
        return false;
    }
    kinds.has(Rtype::NS.to_int())
}

impl ZoneTree {
    /// The places of the records of a name, if it exists.
    pub(crate) fn node(
        &self,
        alloc: Global,
        name: &NameRef<'_>,
    ) -> Result<Option<&Kinds>, OutOfMemory>
        ensures { IfOk result (λ o. IsNode self.now name.now (option_copied o)) }
    {
        if let Some(kinds) = self.hinted(name) {
            return Ok(Some(kinds));
        }
        let key = canonical_key(alloc, name)?;
        Ok(self.names.kinds_at(key.as_slice()))
    }

    /// The places of the records of the wildcard below a name, if it exists.
    pub fn wildcard(
        &self,
        alloc: Global,
        above: &NameRef<'_>,
    ) -> Result<Option<&Kinds>, OutOfMemory>
        ensures { IfOk result (λ o. IsNode self.now (star ∷ above.now) (option_copied o)) }
    {
        if !self.names.has_stars() {
            return Ok(None);
        }
        let key = star_key(alloc, above)?;
        Ok(self.names.kinds_at(key.as_slice()))
    }

    /// How many labels a name has before the apex.
    fn levels(&self, name: &NameRef<'_>) -> usize
        requires { IsTrue (ends_name name.now self.now.apex) }
        ensures { result + length self.now.apex ≡ length name.now }
    {
        name.label_count() - self.apex.label_count()
    }

    /// Walks from the apex to a name below it or to itself, if a type is asked for.
    pub fn walk(
        &self,
        alloc: Global,
        name: &NameRef<'_>,
        rtype: u16,
    ) -> Result<Walk<'_>, OutOfMemory>
        requires { IsTrue (ends_name name.now self.now.apex) }
        ensures { IfOk result (EndsAt self.now rtype name.now) }
    {
        let mut left = self.levels(name);
        let mut last = &self.top;
        'down: while left > 0 {
            if last.has(Rtype::DNAME.to_int()) {
                return Ok(Walk::Dname(last));
            }
            left -= 1;
            let found = self.node(alloc, &name.behind(left))?;
            match found {
                Some(kinds) => {
                    if is_cut(kinds, left, rtype) {
                        return Ok(Walk::Cut(kinds));
                    }
                    if left == 0 {
                        return Ok(Walk::Node(kinds));
                    }
                    last = kinds;
                }
                None => return Ok(Walk::Missing(left + 1)),
            }
        }
        Ok(Walk::Node(last))
    }
}
