//! A comparison of octets that looks at all of them.

ghost use Rattle.std.specs.Prelude.{◌≡◌, ◌↔◌, IsTrue};

/// Whether octets are the same, for codes that a peer may guess at. If both are as long, each octet is looked at, whatever
/// stands before it. How long that takes is not proved.
pub fn same_octets(octets: &[u8], others: &[u8]) -> bool
    ensures { IsTrue result ↔ (octets.now ≡ others.now) }
{
    if octets.len() != others.len() {
        return false;
    }
    let mut differences = 0u8;
    'each: for i in 0..octets.len() {
        differences |= octets[i] ^ others[i];
    }
    differences == 0
}
