//! The places of names, found by the names' octets in lower case.

ghost use Rattle.std.specs.Prelude.{◌≡◌, ◌++◌, ◌∷◌, [], ◌<◌, length, map, IfOk, OnOk, OnErr, Some, if◌then◌else◌, vec_capacity, vec_len};
ghost use Rattle.std.specs.Char.{to_ascii_lowercase};
ghost use Rattle.std.specs.List.{zip};
ghost use Rattle.std.specs.Str.{bytes_eq};
ghost use Rattle.dns_name.specs.Labels.{AreLabels};
ghost use Rattle.dns_routes.specs.Places.{Knows, name_key, place_under};

use crate::seed::Seed;
use dns_name::{Labels, Name, OutOfMemory, push_lower};
use smallvec::SmallVec;
use std::alloc::Global;
use std::collections::HashMap;

/// The octets of a name in lower case. Up to 32 of them lie in the map itself, where a look-up compares them.
pub(crate) type Key = SmallVec<u8, 32>;

/// Places of services, found by the octets of names.
pub(crate) type PlacesByName = HashMap<Key, usize, Seed>;

/// Appends a label in lower case after its length.
fn push_folded(label: &[u8], octets: &mut Vec<u8>) -> Result<(), OutOfMemory>
    requires { length label.now < 256 }
    ensures { OnOk result (octets.new.items ≡ octets.old.items ++ (length label.now ∷ map to_ascii_lowercase label.now)) }
{
    octets.push(label.len() as u8)?;
    push_lower(label, octets)
}

/// The octets of a name in lower case, in memory for that many at first.
pub(crate) fn folded_octets(
    alloc: Global,
    name: Labels<'_>,
    capacity: usize,
) -> Result<Vec<u8>, OutOfMemory>
    requires { AreLabels name }
    ensures { IfOk result (λ v. v.items ≡ name_key name.entry) }
{
    let mut left = name;
    let mut octets = Vec::with_capacity(alloc, capacity)?;
    'labels: while let Some(label) = left.next() {
        push_folded(label, &mut octets)?;
    }
    octets.push(0)?;
    Ok(octets)
}

/// The octets by which a name is found.
pub(crate) fn key_of(alloc: Global, name: &Name) -> Result<Key, OutOfMemory>
    ensures { IfOk result (λ k. k.items ≡ name_key name.now) }
{
    let octets = folded_octets(alloc, name.labels(), name.compose_len() as usize)?;
    Ok(Key::from_vec(octets))
}

/// Keeps a place under octets, in place of what was kept there.
fn put(places: &mut PlacesByName, key: Key, place: usize) -> Result<(), OutOfMemory>
    ensures ok { OnOk result ((o : _) → place_under places.new o
        ≡ (if bytes_eq key.items o then Some place else place_under places.old o)) }
    ensures err { OnErr result (places.new.entries ≡ places.old.entries) }
{
    places.insert(key, place)?;
    Ok(())
}

/// Makes room for a name and its service.
fn reserve_both<S: Drop>(names: &mut Vec<Name>, services: &mut Vec<S>) -> Result<(), OutOfMemory>
    ensures names { names.new.items ≡ names.old.items }
    ensures services { services.new.items ≡ services.old.items }
    ensures room { OnOk result ((vec_len names.new < vec_capacity names.new) × (vec_len services.new < vec_capacity services.new)) }
{
    names.reserve(1)?;
    services.reserve(1)?;
    Ok(())
}

/// Makes room for a name and its service, and keeps the place after those that are there under the name's octets.
fn place_next<S: Drop>(
    names: &mut Vec<Name>,
    services: &mut Vec<S>,
    places: &mut PlacesByName,
    key: Key,
) -> Result<(), OutOfMemory>
    ensures names { names.new.items ≡ names.old.items }
    ensures services { services.new.items ≡ services.old.items }
    ensures room { OnOk result ((vec_len names.new < vec_capacity names.new) × (vec_len services.new < vec_capacity services.new)) }
    ensures ok { OnOk result ((o : _) → place_under places.new o
        ≡ (if bytes_eq key.items o then Some (length services.old.items) else place_under places.old o)) }
    ensures err { OnErr result (places.new.entries ≡ places.old.entries) }
{
    reserve_both(names, services)?;
    put(places, key, services.len())
}

/// Adds a name and its service, for which there is room.
fn push_both<S: Drop>(names: &mut Vec<Name>, services: &mut Vec<S>, route: (Name, S))
    requires names { vec_len names.old < vec_capacity names.old }
    requires services { vec_len services.old < vec_capacity services.old }
    ensures names { names.new.items ≡ names.old.items ++ route.0 ∷ [] }
    ensures services { services.new.items ≡ services.old.items ++ route.1 ∷ [] }
{
    names.push_reserved(route.0);
    services.push_reserved(route.1);
}

/// Adds a name and its service after those that are there.
pub(crate) fn put_route<S: Drop>(
    names: &mut Vec<Name>,
    services: &mut Vec<S>,
    places: &mut PlacesByName,
    key: Key,
    route: (Name, S),
) -> Result<(), OutOfMemory>
    requires paired { length services.old.items ≡ length names.old.items }
    requires known { Knows places.old (zip names.old.items services.old.items) }
    requires named { key.items ≡ name_key route.0 }
    ensures known { Knows places.new (zip names.new.items services.new.items) }
    ensures ok { OnOk result ((names.new.items ≡ names.old.items ++ route.0 ∷ [])
        × (services.new.items ≡ services.old.items ++ route.1 ∷ [])) }
    ensures err { OnErr result ((names.new.items ≡ names.old.items) × (services.new.items ≡ services.old.items)) }
{
    place_next(names, services, places, key)?;
    push_both(names, services, route);
    Ok(())
}
