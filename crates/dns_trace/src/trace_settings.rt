//! The settings of a server whose events are recorded.

use dns_events::Settings;

/// The settings of a server. The secret of server cookies has 16 octets (RFC 9018, section 4).
pub type TraceSettings = Settings;
