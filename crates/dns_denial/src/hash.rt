//! The hashes of names (RFC 5155, section 5).

ghost use Rattle.std.specs.Prelude.{◌≡◌, ◌++◌, ◌∷◌, ◌<◌, length, map, IfOk, OnOk, Some, MatchResult};
ghost use Rattle.std.specs.Char.{to_ascii_lowercase};
ghost use Rattle.sha1.specs.Sha1.{sha1};
ghost use Rattle.dns_name.specs.Labels.{AreLabels, folded, spell};
ghost use Rattle.dns_denial.specs.Hashes.{Hashes, hashing_error};
ghost use Rattle.dns_denial.specs.Nsec3.{hash_of, iterated};

use dns_name::{Labels, NameRef, OutOfMemory, push_lower};
use sha1::Sha1;
use std::alloc::Global;
use std::marker::Model;

/// The largest number of additional iterations.
const MAX_ITERATIONS: u16 = 100;

/// The largest number of octets of a salt.
const MAX_SALT: usize = 32;

/// Why parameters of NSEC3 are refused. Above 100 iterations resolvers may treat a zone as insecure, or answer SERVFAIL (RFC
/// 9276, section 3.2 and appendix A). The limit of the salt is this crate's: RFC 9276, section 3.1, advises to have none.
#[derive(Clone, Copy, Debug)]
pub enum HashingError {
    /// More than 100 additional iterations.
    Iterations,
    /// A salt of more than 32 octets.
    Salt,
}

/// The salt and the number of additional iterations of NSEC3PARAM, with hash algorithm 1, SHA-1.
#[derive(Drop)]
pub struct Hashing {
    salt: Vec<u8>,
    iterations: u16,
}

impl Model for Hashing {
    ghost use Rattle.dns_denial.specs.Nsec3.{Hashing as State};

    ghost Value = { State };

    ghost view = { λ h. record { salt = h.salt.items; iterations = h.iterations } };
}

/// SHA-1 of octets and the salt after them.
fn salted(octets: &[u8], salt: &[u8]) -> [u8; 20]
    ensures { result ≡ sha1 (octets.now ++ salt.now) }
{
    let mut hasher = Sha1::new();
    hasher.update(octets);
    hasher.update(salt);
    hasher.finalize()
}

/// The hash of octets.
fn iterated(salt: &[u8], octets: &[u8], iterations: u16) -> [u8; 20]
    ensures { result ≡ iterated salt.now octets.now iterations }
{
    let mut hash = salted(octets, salt);
    'rounds: for round in 0..iterations {
        hash = salted(&hash, salt);
    }
    hash
}

/// Appends a label in lower case after its length.
fn push_canonical(label: &[u8], octets: &mut Vec<u8>) -> Result<(), OutOfMemory>
    requires { length label.now < 256 }
    ensures { OnOk result (octets.new.items ≡ octets.old.items ++ (length label.now ∷ map to_ascii_lowercase label.now)) }
{
    octets.push(label.len() as u8)?;
    push_lower(label, octets)
}

/// The octets of labels in canonical form (RFC 4034, section 6.2).
fn canonical(alloc: Global, labels: Labels<'_>) -> Result<Vec<u8>, OutOfMemory>
    requires { AreLabels labels }
    ensures { IfOk result (λ v. v.items ≡ spell (folded labels.entry)) }
{
    let mut left = labels;
    let mut octets = Vec::new(alloc);
    'labels: while let Some(label) = left.next() {
        push_canonical(label, &mut octets)?;
    }
    octets.push(0)?;
    Ok(octets)
}

impl Hashing {
    /// Hashing with a salt. Refused for more than 100 iterations, or else for a salt of more than 32 octets.
    pub fn new(salt: Vec<u8>, iterations: u16) -> Result<Hashing, HashingError>
        ensures { MatchResult result (Hashes salt.items iterations) (λ e. hashing_error salt.items iterations ≡ Some e) }
    {
        if iterations > MAX_ITERATIONS {
            return Err(HashingError::Iterations);
        }
        if salt.len() > MAX_SALT {
            return Err(HashingError::Salt);
        }
        Ok(Hashing { salt, iterations })
    }

    /// The hash of a name.
    #[tactic(auto, unfolding(crate::specs::Nsec3::hash_of))]
    pub fn hash(&self, alloc: Global, name: &NameRef<'_>) -> Result<[u8; 20], OutOfMemory>
        ensures { IfOk result (λ o. o ≡ hash_of self.now name.now) }
    {
        let octets = canonical(alloc, name.labels())?;
        Ok(iterated(self.salt.as_slice(), octets.as_slice(), self.iterations))
    }
}
