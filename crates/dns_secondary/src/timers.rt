//! What an SOA record says of copies of its zone.

ghost use Rattle.std.specs.Prelude.{◌≡◌};
ghost use Rattle.dns_secondary.specs.Copies.{timers_of};

use dns_message::RecordData;
use dns_name::Serial;

/// The serial of a zone and the intervals for its copies, in seconds (RFC 1035, section 3.3.13).
#[derive(Clone, Copy)]
pub struct SoaTimers {
    /// The serial of the zone.
    pub serial: Serial,
    /// How long it waits after a check.
    pub refresh: u32,
    /// How long it waits after a check that couldn't be completed.
    pub retry: u32,
    /// How long a copy is good that can't be checked.
    pub expire: u32,
}

impl SoaTimers {
    /// Those of an SOA record's data; of other data there are none.
    pub fn of(rdata: &RecordData) -> Option<SoaTimers>
        ensures { result ≡ timers_of rdata.now }
    {
        match rdata {
            RecordData::Soa {
                serial,
                refresh,
                retry,
                expire,
                ..
            } => Some(SoaTimers {
                serial: *serial,
                refresh: refresh.as_secs(),
                retry: retry.as_secs(),
                expire: expire.as_secs(),
            }),
            _ => None,
        }
    }
}
