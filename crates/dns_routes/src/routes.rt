//! Names and their values.

ghost use Rattle.std.specs.Prelude.{◌≡◌, ◌++◌, ◌∷◌, ◌-◌, ◌≤◌, [], length, drop, IfOk, OnOk, OnErr, option_map};
ghost use Rattle.std.specs.Option.{option_copied};
ghost use Rattle.dns_routes.specs.Places.{last_under, name_key};
ghost use Rattle.dns_routes.specs.Routes.{chosen, most_labels};

use crate::places::{Key, PlacesByName, folded_octets, key_of, put_route};
use crate::seed::Seed;
use dns_name::{Labels, Name, OutOfMemory, ParsedName};
use std::alloc::Global;
use std::collections::HashMap;
use std::marker::Model;

/// Names and their services in the order in which they were added, which contracts see. They lie apart, since a look-up reads
/// no name: it finds the place of a service under octets.
#[derive(Drop)]
pub struct Routes<S> {
    names: Vec<Name>,
    services: Vec<S>,
    places: PlacesByName,
    most: usize,
}

impl<S> Model for Routes<S> {
    ghost use Rattle.std.specs.Prelude.{List, ℕ};
    ghost use Rattle.std.specs.List.{zip};
    ghost use Rattle.dns_routes.specs.Places.{AreRoutes};

    ghost Value = { List (List (List ℕ) × S) };

    ghost view = { λ r. zip r.names.items r.services.items };

    ghost invariant = { λ r. AreRoutes r.names.items r.services.items r.places r.most };
}

impl<S: Drop> Routes<S> {
    /// No names, whose octets are hashed from a seed.
    pub fn new(alloc: Global, seed: Seed) -> Self
        ensures { result ≡ [] }
    {
        Routes {
            names: Vec::new(alloc),
            services: Vec::new(alloc),
            places: HashMap::with_hasher(alloc, seed),
            most: 0,
        }
    }

    /// Adds a name and its service after those that are there. A refused call leaves them.
    pub fn add(&mut self, alloc: Global, name: Name, service: S) -> Result<(), OutOfMemory>
        ensures ok { OnOk result (self.new ≡ self.old ++ (name, service) ∷ []) }
        ensures err { OnErr result (self.new ≡ self.old) }
    {
        let key = key_of(alloc, &name)?;
        self.put(key, name, service)
    }

    /// Adds a name and its service after those that are there. The name is found by `key`. After an error the routes
    /// stay.
    fn put(&mut self, key: Key, name: Name, service: S) -> Result<(), OutOfMemory>
        requires { key.items ≡ name_key name }
        ensures ok { OnOk result (self.new ≡ self.old ++ (name, service) ∷ []) }
        ensures err { OnErr result (self.new ≡ self.old) }
    {
        let labels = name.label_count() - 1;
        put_route(
            &mut self.names,
            &mut self.services,
            &mut self.places,
            key,
            (name, service),
        )?;
        self.most = self.most.max(labels);
        Ok(())
    }

    /// The service that was added last under a name of these octets.
    fn named(&self, alloc: Global, octets: &[u8]) -> Result<Option<&S>, OutOfMemory>
        ensures { IfOk result (λ s. option_copied s ≡ option_map (λ r. r.1) (last_under octets.now self.now)) }
    {
        let key = Key::from_slice(alloc, octets)?;
        Ok(self.under(&key))
    }

    /// The service that is kept under octets.
    fn under(&self, key: &Key) -> Option<&S>
        ensures { option_copied result ≡ option_map (λ r. r.1) (last_under key.now.items self.now) }
    {
        match self.places.get(key) {
            Some(place) => self.services.get(*place),
            None => None,
        }
    }

    /// The service for a name: the look-ups are of the name without that many first labels, of that without its first label,
    /// and so on to the root.
    fn deepest(
        &self,
        alloc: Global,
        name: &ParsedName<'_>,
        skipped: usize,
    ) -> Result<Option<&S>, OutOfMemory>
        requires { skipped ≤ length name.now - most_labels self.now }
        ensures { IfOk result (λ s. option_copied s ≡ chosen name.now self.now) }
    {
        let octets = folded_octets(alloc, name.labels().behind(skipped), 255)?;
        let left = name.labels().behind(skipped);
        self.deepest_in(alloc, name, skipped, left, &octets)
    }

    /// The service of the deepest route for a name. The search begins at `rest`, the name without its first `skipped`
    /// labels, whose folded octets are given.
    fn deepest_in(
        &self,
        alloc: Global,
        name: &ParsedName<'_>,
        skipped: usize,
        rest: Labels<'_>,
        octets: &[u8],
    ) -> Result<Option<&S>, OutOfMemory>
        requires skipped { skipped ≤ length name.now - most_labels self.now }
        requires rest { rest ≡ drop skipped name.now }
        requires octets { octets.now ≡ name_key (drop skipped name.now) }
        ensures { IfOk result (λ s. option_copied s ≡ chosen name.now self.now) }
    {
        let mut left = rest;
        let mut at = 0;
        'suffixes: loop {
            if let Some(service) = self.named(alloc, &octets[at..])? {
                return Ok(Some(service));
            }
            let Some(label) = left.next() else {
                return Ok(None);
            };
            at += label.len() + 1;
        }
    }

    /// The service for a name. No rest of it is looked up that has more labels than any of the names.
    pub fn for_name(&self, alloc: Global, name: &ParsedName<'_>) -> Result<Option<&S>, OutOfMemory>
        ensures { IfOk result (λ s. option_copied s ≡ chosen name.now self.now) }
    {
        self.deepest(alloc, name, name.labels().count().saturating_sub(self.most))
    }
}
