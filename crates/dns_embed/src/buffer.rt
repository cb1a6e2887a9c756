//! Octets that are written into a caller's buffer.

ghost use Rattle.std.specs.Prelude.{◌≡◌, ◌≤◌, ◌<◌, ◌++◌, length, drop, MatchBool};

/// Writes octets at the front of a buffer, if they fit. Else nothing is written.
pub fn put(octets: &[u8], buffer: &mut [u8]) -> bool
    ensures { MatchBool result
        ((length octets.now ≤ length buffer.old) × (buffer.new ≡ octets.now ++ drop (length octets.now) buffer.old))
        ((length buffer.old < length octets.now) × (buffer.new ≡ buffer.old)) }
{
    if buffer.len() < octets.len() {
        return false;
    }
    buffer[..octets.len()].copy_from_slice(octets);
    true
}
