//! What maps of names hash from.

ghost use Rattle.std.specs.Prelude.{◌≡◌};
ghost use Rattle.std.specs.Hash.DefaultHasher as sip;
ghost use Rattle.std.specs.RandomState.{initial_hasher};

use std::hash::{BuildHasher, DefaultHasher, RandomState};

/// What the hashes of a map's keys begin from.
#[derive(Clone, Copy)]
pub struct Seed {
    first: DefaultHasher,
}

impl Seed {
    /// A fixed seed, equal for all maps. Who knows it can pick keys whose hashes collide.
    pub fn fixed() -> Seed
        ensures { result ≡ record { first = sip.initial } }
    {
        Seed {
            first: DefaultHasher::new(),
        }
    }

    /// Of a random state, so that who picks the keys can't pick such whose hashes meet.
    pub fn random(state: RandomState) -> Seed
        ensures { result ≡ record { first = initial_hasher state } }
    {
        Seed {
            first: state.build_hasher(),
        }
    }
}

impl BuildHasher for Seed {
    type Hasher = DefaultHasher;

    ghost build_hasher = { λ s. s.first };

    fn build_hasher(&self) -> DefaultHasher {
        self.first
    }
}
