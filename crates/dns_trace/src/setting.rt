//! The settings that lines say.

ghost use Rattle.std.specs.Prelude.{◌≡◌};
ghost use Rattle.dns_trace.specs.SettingLines.{setting_named};

/// A setting, as a line's name has it.
#[derive(Clone, Copy)]
pub enum Setting {
    /// Whether faulty queries are refused.
    Strict,
    /// Whether EDNS is on (RFC 6891).
    Edns,
    /// The secret of server cookies (RFC 9018, section 4).
    Secret,
    /// An address that is denied service without a cookie.
    Deny,
    /// The configuration of the datagram server.
    Dgram,
    /// The configuration of the stream server.
    Stream,
    /// How many responses each connection may queue.
    Budget,
}

/// The setting whose lines begin with this word.
pub fn setting_named(word: &[u8]) -> Option<Setting>
    ensures { result ≡ setting_named word.now }
{
    if word == b"strict".as_slice() {
        return Some(Setting::Strict);
    }
    if word == b"edns".as_slice() {
        return Some(Setting::Edns);
    }
    if word == b"secret".as_slice() {
        return Some(Setting::Secret);
    }
    if word == b"deny".as_slice() {
        return Some(Setting::Deny);
    }
    if word == b"dgram".as_slice() {
        return Some(Setting::Dgram);
    }
    if word == b"stream".as_slice() {
        return Some(Setting::Stream);
    }
    if word == b"budget".as_slice() {
        return Some(Setting::Budget);
    }
    None
}
