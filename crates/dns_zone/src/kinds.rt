//! Places by types.

ghost use Rattle.std.specs.Prelude.{◌≡◌, ◌<◌, ◌++◌, ◌∷◌, [], ℕ, length, nat_eq, if◌then◌else◌, ◌||◌, IsSome, IfOk, OnOk, MatchOption, None};
ghost use Rattle.std.specs.Ordering.{nat_cmp};
ghost use Rattle.std.specs.BTreeMap.{get};
ghost use Rattle.dns_zone.specs.Places.{kind_places};

use dns_name::OutOfMemory;
use std::alloc::Global;
use std::collections::BTreeMap;

/// Places by types: under 255 those of any type.
pub(crate) type Kinds = BTreeMap<u16, Vec<usize>>;

/// The type that asks for any (RFC 1035, section 3.2.3).
pub(crate) const ANY: u16 = 255;

/// Keeps a place after those of a type.
fn put_behind(kinds: &mut Kinds, rtype: u16, place: usize) -> Result<(), OutOfMemory>
    requires { IsSome (get nat_cmp kinds.old rtype) }
    ensures { OnOk result ((t : ℕ) → kind_places t kinds.new
        ≡ (if nat_eq rtype t then kind_places t kinds.old ++ place ∷ [] else kind_places t kinds.old)) }
{
    match kinds.get_mut(&rtype) {
        Some(places) => {
            places.push(place)?;
            Ok(())
        }
        None => unreachable!(),
    }
}

/// Keeps the first place of a type.
fn put_first(kinds: &mut Kinds, alloc: Global, rtype: u16, place: usize) -> Result<(), OutOfMemory>
    requires { get nat_cmp kinds.old rtype ≡ None }
    ensures { OnOk result ((t : ℕ) → kind_places t kinds.new
        ≡ (if nat_eq rtype t then kind_places t kinds.old ++ place ∷ [] else kind_places t kinds.old)) }
{
    let mut places = Vec::new(alloc);
    places.push(place)?;
    kinds.insert(rtype, places)?;
    Ok(())
}

/// Keeps a place under a number.
fn put(kinds: &mut Kinds, alloc: Global, rtype: u16, place: usize) -> Result<(), OutOfMemory>
    ensures { OnOk result ((t : ℕ) → kind_places t kinds.new
        ≡ (if nat_eq rtype t then kind_places t kinds.old ++ place ∷ [] else kind_places t kinds.old)) }
{
    if kinds.contains_key(&rtype) {
        put_behind(kinds, rtype, place)
    } else {
        put_first(kinds, alloc, rtype, place)
    }
}

/// Keeps a place of a type, which is also one of any type.
pub(crate) fn put_kind(
    kinds: &mut Kinds,
    alloc: Global,
    rtype: u16,
    place: usize,
) -> Result<(), OutOfMemory>
    ensures { OnOk result ((t : ℕ) → kind_places t kinds.new
        ≡ (if nat_eq t 255 || nat_eq rtype t then kind_places t kinds.old ++ place ∷ [] else kind_places t kinds.old)) }
{
    put(kinds, alloc, ANY, place)?;
    if rtype == ANY {
        return Ok(());
    }
    put(kinds, alloc, rtype, place)
}

/// One place of a type, which is also one of any type.
pub(crate) fn first_kinds(alloc: Global, rtype: u16, place: usize) -> Result<Kinds, OutOfMemory>
    ensures { IfOk result (λ m. (t : ℕ) → kind_places t m ≡ (if nat_eq t 255 || nat_eq rtype t then place ∷ [] else [])) }
{
    let mut kinds = BTreeMap::new(alloc);
    put_kind(&mut kinds, alloc, rtype, place)?;
    Ok(kinds)
}

/// The places that are kept under a number, if there are any.
pub(crate) fn find_kind(kinds: &Kinds, rtype: u16) -> Option<&[usize]>
    ensures { MatchOption result (kind_places rtype kinds.now ≡ []) (λ s. (s.now ≡ kind_places rtype kinds.now) × (0 < length s.now)) }
{
    match kinds.get(&rtype) {
        Some(places) => filled(places.as_slice()),
        None => None,
    }
}

/// Places, if there are any.
fn filled(places: &[usize]) -> Option<&[usize]>
    ensures { MatchOption result (places.now ≡ []) (λ s. (s.now ≡ places.now) × (0 < length s.now)) }
{
    if places.is_empty() {
        return None;
    }
    Some(places)
}
