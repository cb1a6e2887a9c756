//! Why an authority doesn't serve a list of records.

ghost use Rattle.std.specs.Prelude.{◌≡◌};

use dns_name::OutOfMemory;

/// Why an authority doesn't serve a list of records as a zone. Places are counted from 0.
#[derive(Clone, Copy, Debug)]
pub enum TreeError {
    /// The first record whose owner doesn't end with the apex.
    Outside(usize),
    /// The first record of another class than IN.
    Class(usize),
    /// The first OPT record, which is in no zone (RFC 6891, section 6.1.1).
    Opt(usize),
    /// How many SOA records there are; a zone has one (RFC 1035, section 5.2).
    Soa(usize),
    /// The SOA record, if its owner isn't the apex.
    SoaPlace(usize),
    /// The first NS record at a wildcard (RFC 4592, section 4.2).
    WildNs(usize),
    /// The first record that takes more than 65,000 octets.
    Long(usize),
    /// More than 4,294,967,295 records, or octets of the keys of their owners (`canonical_key` of dns_order).
    Large,
    /// The first CNAME record whose owner has another record (RFC 1034, section 3.6.2), except for RRSIG and NSEC (RFC 4035,
    /// section 2.5).
    Cname(usize),
    OutOfMemory,
}

impl From<OutOfMemory> for TreeError {
    ghost use Rattle.dns_zone_tree.specs.declared.error.TreeError.TheVariants.{OutOfMemory as NoMemory};

    ghost from_gives = { λ _ e. e ≡ NoMemory };

    fn from(_error: OutOfMemory) -> Self {
        TreeError::OutOfMemory
    }
}
