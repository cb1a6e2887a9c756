//! How names compare: up to ASCII case, and in the canonical order (RFC 4034, section 6.1).

ghost use Rattle.std.specs.Prelude.{◌≡◌, fold, refl};
ghost use Rattle.std.specs.Cmp.{partial_equiv_from_equiv};
ghost use Rattle.std.specs.Ordering.{as_partial_cmp};
ghost use Rattle.dns_name.specs.Canonical.{name_cmp, name_cmp_total, name_writes, same_name, same_name_equiv, same_name_order, same_name_ties, same_name_writes};

use crate::name::{Name, NameRef};
use std::cmp::Ordering;
use std::hash::{Hash, Hasher};

impl<'a> PartialEq for NameRef<'a> {
    ghost eq = { same_name };

    ghost laws = { partial_equiv_from_equiv same_name_equiv };

    fn eq(&self, other: &NameRef<'a>) -> bool {
        self.name_eq(other)
    }
}

impl<'a> Eq for NameRef<'a> {
    ghost laws = { same_name_equiv };
}

impl<'a> Hash for NameRef<'a> {
    ghost hash_input = { name_writes };

    ghost respects_eq = { same_name_writes };

    fn hash<H: Hasher>(&self, state: &mut H) {
        hash_name(self, state);
    }
}

impl<'a> Ord for NameRef<'a> {
    ghost cmp = { name_cmp };

    ghost total = { name_cmp_total };

    ghost matches_partial_cmp = { λ a b. refl };

    ghost matches_eq = { same_name_ties };

    fn cmp(&self, other: &NameRef<'a>) -> Ordering {
        self.name_cmp(other)
    }
}

impl<'a> PartialOrd for NameRef<'a> {
    ghost partial_cmp = { as_partial_cmp name_cmp };

    ghost laws = { same_name_order };

    fn partial_cmp(&self, other: &NameRef<'a>) -> Option<Ordering> {
        Some(self.cmp(other))
    }
}

impl PartialEq for Name {
    ghost eq = { same_name };

    ghost laws = { partial_equiv_from_equiv same_name_equiv };

    fn eq(&self, other: &Name) -> bool {
        self.for_ref() == other.for_ref()
    }
}

impl Eq for Name {
    ghost laws = { same_name_equiv };
}

impl Hash for Name {
    ghost hash_input = { name_writes };

    ghost respects_eq = { same_name_writes };

    fn hash<H: Hasher>(&self, state: &mut H) {
        hash_name(&self.for_ref(), state);
    }
}

impl Ord for Name {
    ghost cmp = { name_cmp };

    ghost total = { name_cmp_total };

    ghost matches_partial_cmp = { λ a b. refl };

    ghost matches_eq = { same_name_ties };

    fn cmp(&self, other: &Name) -> Ordering {
        self.name_cmp(&other.for_ref())
    }
}

impl PartialOrd for Name {
    ghost partial_cmp = { as_partial_cmp name_cmp };

    ghost laws = { same_name_order };

    fn partial_cmp(&self, other: &Name) -> Option<Ordering> {
        Some(self.cmp(other))
    }
}

/// Feeds the octets of a name with ASCII letters in lower case.
fn hash_name<H: Hasher>(name: &NameRef<'_>, state: &mut H)
    ensures { state.new ≡ fold H.write state.old (name_writes name.now) }
{
    let octets = name.as_slice();
    state.write_usize(octets.len());
    'octets: for octet in octets {
        state.write_u8(octet.to_ascii_lowercase());
    }
}
