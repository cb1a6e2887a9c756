//! Cuts, at which a zone's authority ends, and what is found of a name.

ghost use Rattle.std.specs.Prelude.{◌≡◌, ◌<◌, [], length, true, false, ℕ, List, MatchOption};
ghost use Rattle.std.specs.List.{list_any};
ghost use Rattle.std.specs.Option.{option_copied};
ghost use Rattle.dns_zone.specs.Cuts.{cut_records, is_cut_off};
ghost use Rattle.dns_zone.specs.ZoneIndex.{IsSought, begins_at, places_in};
ghost use Rattle.dns_zone.specs.Owned.{is_asked};
ghost use Rattle.dns_zone.specs.Standings.{OwnsSo, StandsSo};
ghost use Rattle.dns_zone.specs.Paths.{name_path};
ghost use Rattle.dns_zone.specs.Places.{at_places, places};
ghost use Rattle.dns_zone.specs.ZoneReply.{exists};

use crate::kinds::{Kinds, find_kind};
use crate::zone::Zone;
use dns_base::Rtype;

/// The places of a type among those of a name, if there are any.
pub(crate) fn places_in(kinds: Option<&Kinds>, rtype: u16) -> Option<&[usize]>
    ensures { MatchOption result (places_in rtype (option_copied kinds.entry) ≡ [])
        (λ s. (s.now ≡ places_in rtype (option_copied kinds.entry)) × (0 < length s.now)) }
{
    match kinds {
        Some(kinds) => find_kind(kinds, rtype),
        None => None,
    }
}

/// Where a name stands in a zone.
#[derive(Drop)]
pub(crate) enum Standing<'a> {
    /// At or below the cut whose NS records are at these places.
    Cut(&'a [usize]),
    /// At or below none, and it owns these.
    Owner(&'a Kinds),
    /// At or below none, and it owns nothing.
    Nothing,
}

/// Where a name stands that is at or below no cut.
fn within(kinds: Option<&Kinds>) -> Standing<'_>
    ensures { OwnsSo (option_copied kinds.entry) result }
{
    match kinds {
        Some(kinds) => Standing::Owner(kinds),
        None => Standing::Nothing,
    }
}

impl Zone {
    /// Where the name of a path stands. The names below the apex are looked up from the shortest on, each once.
    pub(crate) fn standing(&self, path: &[u8]) -> Standing<'_>
        requires { IsSought self.now.apex path.now }
        ensures { (name : List (List ℕ)) → path.now ≡ name_path name → StandsSo self.now name result }
    {
        let mut end = self.apex.as_slice().len() - 1;
        'labels: while end < path.len() {
            end += path[end] as usize + 1;
            let kinds = self.names.kinds_at(&path[..end]);
            if let Some(servers) = places_in(kinds, Rtype::NS.to_int()) {
                return Standing::Cut(servers);
            }
            if end == path.len() {
                return within(kinds);
            }
        }
        within(self.kinds_of(path))
    }

    /// The places of the NS records of the cut for the name of a path, if there is one.
    pub(crate) fn cut(&self, path: &[u8]) -> Option<&[usize]>
        requires { IsSought self.now.apex path.now }
        ensures { (name : List (List ℕ)) → path.now ≡ name_path name
            → MatchOption result (is_cut_off self.now name ≡ false)
            (λ s. (is_cut_off self.now name ≡ true) × (at_places self.now.records s.now ≡ cut_records self.now name)) }
    {
        match self.standing(path) {
            Standing::Cut(servers) => Some(servers),
            Standing::Owner(_) => None,
            Standing::Nothing => None,
        }
    }

    /// The places of the records of a type that the name of a path owns, if there are any.
    pub(crate) fn owned(&self, path: &[u8], rtype: u16) -> Option<&[usize]>
        ensures { (name : List (List ℕ)) → path.now ≡ name_path name
            → MatchOption result (list_any (is_asked name rtype) self.now.records ≡ false)
            (λ s. (list_any (is_asked name rtype) self.now.records ≡ true) × (s.now ≡ places (is_asked name rtype) self.now.records)) }
    {
        self.names.find(path, rtype)
    }

    /// The places of the records that the name of a path owns, by their types.
    pub(crate) fn kinds_of(&self, path: &[u8]) -> Option<&Kinds>
        ensures { (name : List (List ℕ)) → path.now ≡ name_path name → (t : ℕ)
            → places_in t (option_copied result) ≡ places (is_asked name t) self.now.records }
    {
        self.names.kinds_at(path)
    }

    /// Whether the name of a path owns a record, or a name below it does.
    pub(crate) fn has(&self, path: &Vec<u8>) -> bool
        ensures { (name : List (List ℕ)) → path.now.items ≡ name_path name → result ≡ exists self.now name }
    {
        self.names.has_behind(path)
    }
}
