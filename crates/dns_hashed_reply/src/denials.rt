//! The NSEC3 records that prove what a reply says is absent.

ghost use Rattle.std.specs.Prelude.{◌≡◌, ◌≤◌, ◌<◌, ◌↔◌, ◌&&◌, ◌∷◌, [], false, not, nat_eq, if◌then◌else◌, is_some, ℕ, List, length, IfOk, OnOk, IsTrue, Option};
ghost use Rattle.std.specs.List.{flat_map, list_any};
ghost use Rattle.std.specs.Option.{option_copied};
ghost use Rattle.dns_name.specs.Labels.{spell};
ghost use Rattle.dns_route.specs.Routes.{ends_name};
ghost use Rattle.dns_zone.specs.Places.{at_places};
ghost use Rattle.dns_zone_tree.specs.Kinds.{kind_places};
ghost use Rattle.dns_zone_tree.specs.Regions.{BelowCut, asked_region};
ghost use Rattle.dns_zone_tree.specs.Walks.{ReachesNode, ReachesNone};
ghost use Rattle.dns_zone_tree.specs.Wildcards.{are_some, star};
ghost use Rattle.dns_signed_reply.specs.SignedReplies.{led_to, owned_records};
ghost use Rattle.dns_hashed_zone.specs.Searches.{near_place};
ghost use Rattle.dns_hashed_reply.specs.Choices.{Adds, AddsFor, inside, names_places};
ghost use Rattle.dns_hashed_reply.specs.HashedReplies.{collides, fails, own_proof, places};

use dns_base::{NameRef, QuestionRef, Record};
use dns_denial::wildcard_below;
use dns_hashed_zone::{HashedName, HashedZone};
use dns_name::OutOfMemory;
use dns_signed_reply::{follows, gives, of_node, owned_records};
use dns_zone_tree::{Kinds, Walk, record_target};
use std::alloc::Global;

/// The type of name servers.
const NS: u16 = 2;

/// The type of an alias.
const CNAME: u16 = 5;

/// The type of the records of a delegation's keys.
const DS: u16 = 43;

/// The places of the NSEC3s that prove what is absent, each once; or that a hash collides.
#[derive(Drop)]
pub(crate) struct Chosen {
    /// The places.
    pub(crate) places: Vec<usize>,
    /// Whether a name that doesn't exist has the hash of one that does (RFC 5155, section 7.2.9).
    pub(crate) collides: bool,
}

/// Whether a place is one of some.
fn has_place(places: &[usize], place: usize) -> bool
    ensures { result ≡ list_any (nat_eq place) places.now }
{
    places.iter().any(|one| place == *one)
}

/// Adds a place, unless it is there.
fn add(chosen: &mut Chosen, place: usize) -> Result<(), OutOfMemory>
    ensures { OnOk result (Adds chosen.old chosen.new false (place ∷ [])) }
{
    if has_place(chosen.places.as_slice(), place) {
        return Ok(());
    }
    chosen.places.push(place)?;
    Ok(())
}

/// Adds two places.
fn add_both(chosen: &mut Chosen, first: usize, second: usize) -> Result<(), OutOfMemory>
    ensures { OnOk result (Adds chosen.old chosen.new false (first ∷ second ∷ [])) }
{
    add(chosen, first)?;
    add(chosen, second)
}

/// Adds the NSEC3 of a name that exists, or where a span with Opt-Out leaves it out the closest encloser proof (RFC 5155, sections
/// 7.2.3, 7.2.4 and 7.2.7).
fn add_own(
    zone: &HashedZone,
    alloc: Global,
    name: &NameRef<'_>,
    chosen: &mut Chosen,
) -> Result<(), OutOfMemory>
    requires { IsTrue (ends_name name.now zone.now.zone.apex) }
    ensures { OnOk result (Adds chosen.old chosen.new false (names_places zone.now (own_proof zone.now name.now))) }
{
    let found = zone.search(alloc, name)?;
    match found {
        HashedName::Own(place) => add(chosen, place),
        HashedName::Missing { encloser, next, .. } => add_both(chosen, encloser, next),
    }
}

/// Adds the NSEC3s for a name that exists, where a type is asked for.
fn add_node(
    zone: &HashedZone,
    alloc: Global,
    name: &NameRef<'_>,
    rtype: u16,
    kinds: &Kinds,
    chosen: &mut Chosen,
) -> Result<(), OutOfMemory>
    requires inside { IsTrue (ends_name name.now zone.now.zone.apex) }
    requires reached { ReachesNode zone.now.zone rtype name.now kinds.now }
    ensures { OnOk result (AddsFor zone.now rtype (name.now ∷ []) chosen.old chosen.new) }
{
    if gives(Some(kinds), rtype) {
        return Ok(());
    }
    add_own(zone, alloc, name, chosen)
}

/// Whether a hash collides: an NSEC3 has it, and the name isn't there.
fn is_collision(matched: bool, there: Option<&Kinds>) -> bool
    ensures { result ≡ (matched && not (is_some (option_copied there.entry))) }
{
    match there {
        Some(_) => false,
        None => matched,
    }
}

/// Adds the NSEC3 of the wildcard below a closest encloser, or the one that covers it.
fn add_wildcard(
    zone: &HashedZone,
    alloc: Global,
    above: &NameRef<'_>,
    chosen: &mut Chosen,
) -> Result<(), OutOfMemory>
    requires { length (spell above.now) ≤ 253 }
    ensures { OnOk result (Adds chosen.old chosen.new (collides zone.now (star ∷ above.now))
        (near_place zone.now.hashing zone.now.nsec3s (star ∷ above.now) ∷ [])) }
{
    let Some(wildcard) = wildcard_below(alloc, above)? else {
        unreachable!();
    };
    let near = zone.near(alloc, &wildcard.for_ref())?;
    let there = zone.zone().wildcard(alloc, above)?;
    if is_collision(near.matched, there) {
        chosen.collides = true;
        return Ok(());
    }
    add(chosen, near.place)
}

/// Whether a name has more labels than another.
fn is_longer(name: &NameRef<'_>, other: &NameRef<'_>) -> bool
    ensures { IsTrue result ↔ (length other.now < length name.now) }
{
    name.label_count() > other.label_count()
}

/// Adds the NSEC3s for a name that doesn't exist, whose closest encloser is after that many labels, where a type is asked for.
fn add_missing(
    zone: &HashedZone,
    alloc: Global,
    name: &NameRef<'_>,
    rtype: u16,
    skipped: usize,
    chosen: &mut Chosen,
) -> Result<(), OutOfMemory>
    requires inside { IsTrue (ends_name name.now zone.now.zone.apex) }
    requires reached { ReachesNone zone.now.zone rtype name.now skipped }
    ensures { OnOk result (AddsFor zone.now rtype (name.now ∷ []) chosen.old chosen.new) }
{
    let _chain = zone.chain();
    let _named = name.as_slice();
    let found = zone.search(alloc, name)?;
    let closest = name.behind(skipped);
    match found {
        HashedName::Own(_) => {
            chosen.collides = true;
            Ok(())
        }
        HashedName::Missing {
            encloser,
            next,
            above,
        } => {
            if is_longer(&above, &closest) {
                chosen.collides = true;
                return Ok(());
            }
            let wild = zone.zone().wildcard(alloc, &closest)?;
            if gives(wild, rtype) {
                return add(chosen, next);
            }
            add_both(chosen, encloser, next)?;
            add_wildcard(zone, alloc, &above, chosen)
        }
    }
}

/// Adds the NSEC3s that say of a delegation point that it has no DS records, if it has none.
fn add_insecure(
    zone: &HashedZone,
    alloc: Global,
    cut: &NameRef<'_>,
    chosen: &mut Chosen,
) -> Result<(), OutOfMemory>
    requires { IsTrue (ends_name cut.now zone.now.zone.apex) }
    ensures { OnOk result (Adds chosen.old chosen.new false
        (names_places zone.now (if are_some (owned_records zone.now.zone cut.now 43) then [] else own_proof zone.now cut.now))) }
{
    let found = owned_records(zone.zone(), alloc, cut, DS)?;
    if found.as_slice().is_empty() {
        return add_own(zone, alloc, cut, chosen);
    }
    Ok(())
}

/// Adds the NSEC3s for a name at or below a cut, given the places of the cut's records.
fn add_cut(
    zone: &HashedZone,
    alloc: Global,
    kinds: &Kinds,
    chosen: &mut Chosen,
) -> Result<(), OutOfMemory>
    ensures { (t : ℕ) (name : List (List ℕ))
        → asked_region zone.now.zone t name ≡ BelowCut (at_places zone.now.zone.records (kind_places 2 kinds.now))
        → OnOk result (AddsFor zone.now t (name ∷ []) chosen.old chosen.new) }
{
    let _chain = zone.chain();
    let servers = of_node(zone.zone(), alloc, kinds, NS)?;
    match servers.as_slice().first() {
        Some(server) => add_insecure(zone, alloc, &server.owner.for_ref(), chosen),
        None => Ok(()),
    }
}

/// Adds the NSEC3s that prove what the reply says of a name, where a type is asked for.
fn add_name(
    zone: &HashedZone,
    alloc: Global,
    name: &NameRef<'_>,
    rtype: u16,
    chosen: &mut Chosen,
) -> Result<(), OutOfMemory>
    requires { IsTrue (ends_name name.now zone.now.zone.apex) }
    ensures { OnOk result (AddsFor zone.now rtype (name.now ∷ []) chosen.old chosen.new) }
{
    let tree = zone.zone();
    let found = tree.walk(alloc, name, rtype)?;
    match found {
        Walk::Node(kinds) => add_node(zone, alloc, name, rtype, kinds, chosen),
        Walk::Missing(skipped) => add_missing(zone, alloc, name, rtype, skipped, chosen),
        Walk::Cut(kinds) => add_cut(zone, alloc, kinds, chosen),
        Walk::Dname(_) => Ok(()),
    }
}

/// Adds the NSEC3s for a name, if it is in the zone.
fn add_inside(
    zone: &HashedZone,
    alloc: Global,
    name: &NameRef<'_>,
    rtype: u16,
    chosen: &mut Chosen,
) -> Result<(), OutOfMemory>
    ensures { OnOk result (AddsFor zone.now rtype (inside zone.now (name.now ∷ [])) chosen.old chosen.new) }
{
    if zone.is_in_zone(name) {
        return add_name(zone, alloc, name, rtype, chosen);
    }
    Ok(())
}

/// Adds the NSEC3s for the target of a record, if that is an alias.
fn add_target(
    zone: &HashedZone,
    alloc: Global,
    rtype: u16,
    alias: &Record,
    chosen: &mut Chosen,
) -> Result<(), OutOfMemory>
    ensures { OnOk result (AddsFor zone.now rtype (inside zone.now (led_to alias.now)) chosen.old chosen.new) }
{
    if alias.rdata.rtype().to_int() != CNAME {
        return Ok(());
    }
    match record_target(alias) {
        Some(name) => add_inside(zone, alloc, &name.for_ref(), rtype, chosen),
        None => Ok(()),
    }
}

/// Adds the NSEC3s for the targets of the aliases among answers.
fn add_targets(
    zone: &HashedZone,
    alloc: Global,
    rtype: u16,
    answers: &[Record],
    chosen: &mut Chosen,
) -> Result<(), OutOfMemory>
    ensures { OnOk result (AddsFor zone.now rtype (inside zone.now (flat_map led_to answers.now)) chosen.old chosen.new) }
{
    'each: for alias in answers {
        add_target(zone, alloc, rtype, alias, chosen)?;
    }
    Ok(())
}

/// The NSEC3s that prove what is absent of the name of a question, and of the targets of the aliases among answers.
pub(crate) fn chosen_for(
    zone: &HashedZone,
    alloc: Global,
    question: &QuestionRef<'_>,
    answers: &[Record],
) -> Result<Chosen, OutOfMemory>
    requires { IsTrue (ends_name question.now.qname zone.now.zone.apex) }
    ensures collides { IfOk result (λ c. c.collides ≡ fails zone.now question.now answers.now) }
    ensures places { IfOk result (λ c. c.collides ≡ false → c.places.items ≡ places zone.now question.now answers.now) }
{
    let rtype = question.qtype().to_int();
    let name = question.qname().to_name(alloc)?;
    let mut chosen = Chosen {
        places: Vec::new(alloc),
        collides: false,
    };
    add_name(zone, alloc, &name.for_ref(), rtype, &mut chosen)?;
    if follows(rtype) {
        add_targets(zone, alloc, rtype, answers, &mut chosen)?;
        return Ok(chosen);
    }
    Ok(chosen)
}
