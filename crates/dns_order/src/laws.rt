//! Laws of keys.

ghost use Rattle.dns_order.specs.Keys.{KeysAreNames, KeysAreOrdered, KeysBeginAbove, KeysBeginAlike};

/// The keys of names compare as octets just as the names compare in the canonical order.
pub fn keys_are_ordered()
    ensures { KeysAreOrdered }
{}

/// The key of a name begins with that of each name above it.
#[tactic(auto, using(crate::proofs::KeyLaws::keys_begin_alike))]
pub fn keys_begin_alike()
    ensures { KeysBeginAlike }
{}

/// Keys are the same exactly if the names are, up to ASCII case.
#[tactic(auto, using(crate::proofs::BeginLaws::keys_are_names))]
pub fn keys_are_names()
    ensures { KeysAreNames }
{}

/// A key begins with another exactly if its name ends with the other's.
pub fn keys_begin_above()
    ensures { KeysBeginAbove }
{}
