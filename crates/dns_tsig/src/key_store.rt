//! Keys by name.

ghost use Rattle.std.specs.Prelude.{◌≡◌, map, option_map};
ghost use Rattle.std.specs.Arc.{arc_value};
ghost use Rattle.dns_tsig.specs.Keys.{key_for};

use crate::key::Key;
use crate::tsig::TsigRef;
use std::marker::Model;
use std::sync::Arc;

/// The keys that a side knows, each shared. A TSIG is that of the first key whose name and algorithm it gives (RFC 8945,
/// section 5.2.1).
#[derive(Drop)]
pub struct KeyStore {
    keys: Vec<Arc<Key>>,
}

impl Model for KeyStore {
    ghost use Rattle.std.specs.Prelude.{List, map};
    ghost use Rattle.std.specs.Arc.{arc_value};
    ghost use Rattle.dns_tsig.specs.Keys.{KeyParts};

    ghost Value = { List KeyParts };

    ghost view = { λ s. map arc_value s.keys.items };
}

impl KeyStore {
    /// The keys of a vector, which is not copied. A key counts by its place, from 0.
    pub fn new(keys: Vec<Arc<Key>>) -> KeyStore
        ensures { result ≡ map arc_value keys.items }
    {
        KeyStore { keys }
    }

    /// The key that a TSIG names, with its place; none if no key has that name and that algorithm.
    pub fn get(&self, tsig: &TsigRef<'_>) -> Option<(usize, &Arc<Key>)>
        ensures { option_map (λ found. (found.0, arc_value found.1.now)) result ≡ key_for self.now tsig.now }
    {
        key_in(self.keys.as_slice(), tsig)
    }
}

/// The first of some keys that a TSIG names, with its place.
#[tactic(auto, using(crate::proofs::Stores::named_here, crate::proofs::Stores::named_later, crate::proofs::Stores::none_named))]
fn key_in<'a>(keys: &'a [Arc<Key>], tsig: &TsigRef<'_>) -> Option<(usize, &'a Arc<Key>)>
    ensures { option_map (λ found. (found.0, arc_value found.1.now)) result ≡ key_for (map arc_value keys.now) tsig.now }
{
    'keys: for i in 0..keys.len() {
        let key = &keys[i];
        if key.is_named(tsig) {
            return Some((i, key));
        }
    }
    None
}
