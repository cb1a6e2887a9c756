//! The keys of a configuration.

ghost use Rattle.std.specs.Prelude.{◌≡◌, List, [], IfErr, IfOk, OnErr, OnOk, Some, map, option_map};
ghost use Rattle.std.specs.Arc.{arc_value};
ghost use Rattle.dns_name.specs.Canonical.{same_name};
ghost use Rattle.dns_tsig.specs.Keys.{KeyParts};
ghost use Rattle.dns_tsig.specs.Secrets.{key_written};
ghost use Rattle.dns_peer_keys.specs.PeerKeys.{AddsKey, HasAddKeyError, key_named};

use crate::error::AddKeyError;
use dns_name::{Name, OutOfMemory, names_are_ordered};
use dns_tsig::{Algorithm, Key, KeyError, KeyStore};
use std::alloc::Global;
use std::marker::Model;
use std::sync::Arc;

/// Keys by their names, which are compared without case (RFC 4343). Each is shared with whoever signs under it.
#[derive(Drop)]
pub struct PeerKeys {
    keys: Vec<Arc<Key>>,
}

impl Model for PeerKeys {
    ghost use Rattle.std.specs.Prelude.{List, map};
    ghost use Rattle.std.specs.Arc.{arc_value};
    ghost use Rattle.dns_tsig.specs.Keys.{KeyParts};

    ghost Value = { List KeyParts };

    ghost view = { λ k. map arc_value k.keys.items };
}

/// The key whose secret a text writes.
fn key_of(
    alloc: Global,
    name: Name,
    algorithm: Algorithm,
    text: &[u8],
) -> Result<Arc<Key>, AddKeyError>
    ensures ok { IfOk result (λ k. key_written name algorithm text.now ≡ Some (arc_value k)) }
    ensures fault { IfErr result (λ f. (keys : List KeyParts) → HasAddKeyError keys name algorithm text.now f) }
{
    match Key::from_base64(alloc, name, algorithm, text) {
        Ok(key) => match Arc::new(alloc, key) {
            Ok(key) => Ok(key),
            Err(_) => Err(AddKeyError::OutOfMemory),
        },
        Err(KeyError::NotBase64) => Err(AddKeyError::NotBase64),
        Err(KeyError::OutOfMemory) => Err(AddKeyError::OutOfMemory),
    }
}

impl PeerKeys {
    /// No key.
    pub fn new(alloc: Global) -> PeerKeys
        ensures { result ≡ [] }
    {
        PeerKeys {
            keys: Vec::new(alloc),
        }
    }

    /// Puts a key after the others, whose secret a text writes in base64. A refused call leaves the keys.
    pub fn add(
        &mut self,
        alloc: Global,
        name: Name,
        algorithm: Algorithm,
        text: &[u8],
    ) -> Result<(), AddKeyError>
        ensures ok { OnOk result (AddsKey name algorithm text.now self.old self.new) }
        ensures fault { IfErr result (HasAddKeyError self.old name algorithm text.now) }
        ensures err { OnErr result (self.new ≡ self.old) }
    {
        if self.get(&name).is_some() {
            return Err(AddKeyError::Twice);
        }
        if text.is_empty() {
            return Err(AddKeyError::Empty);
        }
        let key = match key_of(alloc, name, algorithm, text) {
            Ok(key) => key,
            Err(fault) => return Err(fault),
        };
        match self.keys.push(key) {
            Ok(()) => Ok(()),
            Err(_) => Err(AddKeyError::OutOfMemory),
        }
    }

    /// The key of a name, with its place from 0; none if no key has it.
    pub fn get(&self, name: &Name) -> Option<(usize, &Arc<Key>)>
        ensures { option_map (λ found. (found.0, arc_value found.1.now)) result ≡ key_named name.now self.now }
    {
        key_in(self.keys.as_slice(), name)
    }

    /// The keys for the layer that signs replies: each has its place.
    pub fn store(&self, alloc: Global) -> Result<KeyStore, OutOfMemory>
        ensures { IfOk result (λ store. store ≡ self.now) }
    {
        let keys = shared_keys(alloc, self.keys.as_slice())?;
        Ok(KeyStore::new(keys))
    }
}

/// Whether a key has a name.
fn is_of_name(key: &Key, name: &Name) -> bool
    ensures { result ≡ same_name name.now key.now.name }
{
    names_are_ordered();
    name.name_eq(&key.name())
}

/// The first of some keys that has a name, with its place.
#[tactic(auto, using(crate::proofs::KeysNamed::named_here, crate::proofs::KeysNamed::named_later, crate::proofs::KeysNamed::none_named))]
fn key_in<'a>(keys: &'a [Arc<Key>], name: &Name) -> Option<(usize, &'a Arc<Key>)>
    ensures { option_map (λ found. (found.0, arc_value found.1.now)) result ≡ key_named name.now (map arc_value keys.now) }
{
    'keys: for i in 0..keys.len() {
        let key = &keys[i];
        if is_of_name(key, name) {
            return Some((i, key));
        }
    }
    None
}

/// Some keys, each shared once more.
#[tactic(auto, using(crate::proofs::KeysNamed::one_shared, crate::proofs::KeysNamed::all_shared))]
fn shared_keys(alloc: Global, keys: &[Arc<Key>]) -> Result<Vec<Arc<Key>>, OutOfMemory>
    ensures { IfOk result (λ shared. map arc_value shared.items ≡ map arc_value keys.now) }
{
    let mut shared = Vec::new(alloc);
    'keys: for i in 0..keys.len() {
        shared.push(Arc::try_clone(&keys[i])?)?;
    }
    Ok(shared)
}
