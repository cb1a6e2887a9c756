//! Names that own records are found by the owner of the first record that their node has.

ghost use Rattle.std.specs.Prelude.{◌≡◌, IfOk, IfSome, IsTrue, Some};
ghost use Rattle.std.specs.List.{AllByRecursion};
ghost use Rattle.std.specs.Str.{bytes_eq};
ghost use Rattle.dns_order.specs.Keys.{canonical_key};
ghost use Rattle.dns_zone_tree.specs.Names.{IsHeaded, IsOwnedBy};
ghost use Rattle.dns_zone_tree.specs.Walks.{IsNode};

use crate::hints::{Hint, Hints, PROBES};
use crate::kinds::{Kinds, first_record};
use crate::names::{Node, is_key, key_of};
use crate::zone_tree::ZoneTree;
use dns_base::Record;
use dns_name::{NameRef, OutOfMemory};
use dns_order::canonical_key;
use std::alloc::Global;

/// Whether octets are the key of a name.
fn has_key(alloc: Global, own: &[u8], name: &NameRef<'_>) -> Result<bool, OutOfMemory>
    ensures { IfOk result (λ b. b ≡ bytes_eq own.now (canonical_key name.now)) }
{
    let key = canonical_key(alloc, name)?;
    Ok(is_key(own, key.as_slice()))
}

/// Whether the key of a node is that of its first record's owner.
fn is_headed(
    alloc: Global,
    octets: &[u8],
    records: &[Record],
    node: &Node,
) -> Result<bool, OutOfMemory>
    ensures { IfOk result (λ b. IsTrue b → IsHeaded octets.now records.now node.now) }
{
    match first_record(records, node.kinds.as_slice()) {
        Some(first) => has_key(alloc, key_of(octets, node.span), &first.owner.for_ref()),
        None => Ok(true),
    }
}

/// Whether the key of each node is that of its first record's owner.
fn are_headed(
    alloc: Global,
    octets: &[u8],
    records: &[Record],
    nodes: &[Node],
) -> Result<bool, OutOfMemory>
    ensures { IfOk result (λ b. IsTrue b → AllByRecursion (IsHeaded octets.now records.now) nodes.now) }
{
    'each: for node in nodes {
        let headed = is_headed(alloc, octets, records, node)?;
        if !headed {
            return Ok(false);
        }
    }
    Ok(true)
}

/// What a node keeps, if the owner of its first record is a name.
fn kinds_by<'a>(records: &[Record], node: &'a Node, name: &NameRef<'_>) -> Option<&'a Kinds>
    ensures { IfSome result (λ m. (m.now ≡ node.now.kinds) × IsOwnedBy records.now node.now name.now) }
{
    match first_record(records, node.kinds.as_slice()) {
        Some(first) => {
            if first.owner.name_eq(name) {
                return Some(&node.kinds);
            }
            None
        }
        None => None,
    }
}

impl ZoneTree {
    /// Makes the hints.
    pub(crate) fn head(&mut self, alloc: Global) -> Result<(), OutOfMemory>
        ensures { self.new ≡ self.old }
    {
        let records = self.records.as_slice();
        let nodes = self.names.nodes();
        let headed = are_headed(alloc, self.names.octets(), records, nodes)?;
        let hints = Hints::of(alloc, records, nodes)?;
        self.headed = headed;
        self.hints = hints;
        Ok(())
    }

    /// What the node at a place keeps, if the owner of its first record is a name.
    fn kinds_if(&self, place: usize, name: &NameRef<'_>) -> Option<&Kinds>
        ensures { IfSome result (λ m. IsNode self.now name.now (Some m.now)) }
    {
        if !self.headed {
            return None;
        }
        match self.names.node(place) {
            Some(node) => kinds_by(self.records.as_slice(), node, name),
            None => None,
        }
    }

    /// The places of the records of a name, if a hint leads to its node.
    pub(crate) fn hinted(&self, name: &NameRef<'_>) -> Option<&Kinds>
        ensures { IfSome result (λ m. IsNode self.now name.now (Some m.now)) }
    {
        let look = self.hints.look(name.as_slice());
        'probes: for probe in 0..PROBES {
            match self.hints.get(look, probe) {
                Hint::None => return None,
                Hint::Other => {}
                Hint::Node(place) => {
                    if let Some(kinds) = self.kinds_if(place, name) {
                        return Some(kinds);
                    }
                }
            }
        }
        None
    }
}
