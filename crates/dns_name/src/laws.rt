//! Laws of names.

ghost use Rattle.std.specs.Prelude.{◌≡◌, ◌+◌, ◌<◌, ℕ, List, Ok, Some, ◌↔◌, length, IsTrue};
ghost use Rattle.std.specs.Cmp.{IsTotalOrder};
ghost use Rattle.std.specs.declared.cmp.Ordering.TheVariants.{Equal};
ghost use Rattle.dns_name.specs.Canonical.{name_cmp, same_name};
ghost use Rattle.dns_name.specs.FromText.{text_name};
ghost use Rattle.dns_name.specs.Labels.{IsName, folded, spell};
ghost use Rattle.dns_name.specs.NameText.{name_text};
ghost use Rattle.dns_name.specs.Names.{name_within, uncompressed_at};
ghost use Rattle.dns_name.specs.Grammar.{Found, StandsPlain};
ghost use Rattle.dns_name.specs.declared.registry.Registry.{Registry};
ghost use Rattle.dns_name.specs.Registries.{code_named, code_text};

use crate::name::NameRef;

/// A name is read at a place exactly if the grammar has one.
pub fn names_are_the_grammar()
    ensures compressed { (o : List ℕ) (limit at end : ℕ) (ls : List (List ℕ))
        → Found o limit at 0 0 ls end ↔ (name_within o limit at ≡ Ok (ls, end)) }
    ensures uncompressed { (o : List ℕ) (at end : ℕ) (ls : List (List ℕ))
        → StandsPlain o at ls end ↔ (uncompressed_at o at ≡ Ok (ls, end)) }
{}

/// The canonical order of names is total, and neither of two names comes first exactly if they are the same up
/// to ASCII case (RFC 4034, section 6.1).
pub fn names_are_ordered()
    ensures total { IsTotalOrder name_cmp }
    ensures ties { (a b : List (List ℕ)) → (name_cmp a b ≡ Equal) ↔ (folded a ≡ folded b) }
    ensures same { (a b : List (List ℕ)) → IsTrue (same_name a b) ↔ (folded a ≡ folded b) }
{}

/// The text that Display writes of a name reads as that name (RFC 1035, section 5.1).
pub fn names_read_back(name: &NameRef<'_>)
    ensures { text_name (name_text name.now) ≡ Ok name.now }
{
    octets_read_back(name.as_slice());
}

/// The text written of a name reads as that name, if these octets spell it (RFC 1035, section 5.1).
fn octets_read_back(octets: &[u8])
    ensures { (ls : List (List ℕ)) → octets.now ≡ spell ls → IsName ls → text_name (name_text ls) ≡ Ok ls }
{}

/// The text that Display writes of a code reads as that code (RFC 3597, section 5).
pub fn codes_read_back()
    ensures { (r : Registry) (n : ℕ) → n < 65536 → code_named r (code_text r n) ≡ Some n }
{}
