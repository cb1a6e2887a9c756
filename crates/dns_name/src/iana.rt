//! Numbers that IANA registers.

ghost use Rattle.std.specs.Prelude.{◌≡◌, ◌<◌, ◌≤◌, MatchOption};

mod named;

use std::marker::{Model, PhantomData};

/// A code of sixteen bits in the registry K, which contracts see as its number.
#[derive_where(Clone, Copy, Debug, PartialEq, Eq, PartialOrd, Ord, Hash)]
pub struct Code<K> {
    number: u16,
    #[derive_where(skip)]
    of: PhantomData<K>,
}

impl<K> Model for Code<K> {
    ghost use Rattle.std.specs.Prelude.{ℕ};

    ghost Value = { ℕ };

    ghost view = { λ c. c.number };

    ghost inverse = { λ n. record { number = n; of = record {} } };
}

impl<K> Code<K> {
    /// The code of a number.
    pub const fn from_int(number: u16) -> Code<K>
        ensures { result ≡ number }
    {
        Code {
            number,
            of: PhantomData,
        }
    }

    /// The number.
    pub const fn to_int(self) -> u16
        ensures value { result ≡ self }
        ensures fits { result < 65536 }
    {
        self.number
    }
}

/// A code of four bits of a header (RFC 1035, section 4.1.1) in the registry K, which contracts see as its number, below 16.
#[derive_where(Clone, Copy, Debug, PartialEq, Eq, PartialOrd, Ord, Hash)]
pub struct HeaderCode<K> {
    number: u8,
    #[derive_where(skip)]
    of: PhantomData<K>,
}

impl<K> Model for HeaderCode<K> {
    ghost use Rattle.std.specs.Prelude.{ℕ, ◌<◌};

    ghost Value = { ℕ };

    ghost view = { λ c. c.number };

    ghost inverse = { λ n. record { number = n; of = record {} } };

    ghost invariant = { λ c. c.number < 16 };
}

impl<K> HeaderCode<K> {
    /// The code of a number below 16, and none from 16 on.
    pub fn checked_from_int(number: u8) -> Option<HeaderCode<K>>
        ensures { MatchOption result (16 ≤ number) (λ c. (c ≡ number) × (number < 16)) }
    {
        if number < 16 {
            return Some(HeaderCode {
                number,
                of: PhantomData,
            });
        }
        None
    }

    /// The number.
    pub fn to_int(self) -> u8
        ensures value { result ≡ self }
        ensures fits { result < 16 }
    {
        self.number
    }
}

/// A code as a constant's value, where no function may be called.
macro_rules! code {
    ($number:literal) => {
        Code {
            number: $number,
            of: PhantomData,
        }
    };
}

/// A code of four bits as a constant's value, where no function may be called.
macro_rules! header_code {
    ($number:literal) => {
        HeaderCode {
            number: $number,
            of: PhantomData,
        }
    };
}

/// The registry of classes.
pub struct Classes;

/// A class (RFC 1035, section 3.2.4).
pub type Class = Code<Classes>;

impl Code<Classes> {
    /// RFC 1035, section 3.2.4.
    pub const IN: Class = code!(1);

    /// RFC 1035, section 3.2.4.
    pub const CH: Class = code!(3);

    /// RFC 1035, section 3.2.4.
    pub const HS: Class = code!(4);

    /// No class, in an update (RFC 2136, section 2.4).
    pub const NONE: Class = code!(254);

    /// Each class, in a question (RFC 1035, section 3.2.5).
    pub const ANY: Class = code!(255);
}

/// The registry of record types.
pub struct Rtypes;

/// A record type (RFC 1035, section 3.2.2).
pub type Rtype = Code<Rtypes>;

impl Code<Rtypes> {
    /// RFC 1035, section 3.2.2.
    pub const A: Rtype = code!(1);

    /// RFC 1035, section 3.2.2.
    pub const NS: Rtype = code!(2);

    /// RFC 1035, section 3.2.2.
    pub const MD: Rtype = code!(3);

    /// RFC 1035, section 3.2.2.
    pub const MF: Rtype = code!(4);

    /// RFC 1035, section 3.2.2.
    pub const CNAME: Rtype = code!(5);

    /// RFC 1035, section 3.2.2.
    pub const SOA: Rtype = code!(6);

    /// RFC 1035, section 3.2.2.
    pub const MB: Rtype = code!(7);

    /// RFC 1035, section 3.2.2.
    pub const MG: Rtype = code!(8);

    /// RFC 1035, section 3.2.2.
    pub const MR: Rtype = code!(9);

    /// RFC 1035, section 3.2.2.
    pub const PTR: Rtype = code!(12);

    /// RFC 1035, section 3.2.2.
    pub const MINFO: Rtype = code!(14);

    /// RFC 1035, section 3.2.2.
    pub const MX: Rtype = code!(15);

    /// RFC 1035, section 3.2.2.
    pub const TXT: Rtype = code!(16);

    /// RFC 3596.
    pub const AAAA: Rtype = code!(28);

    /// RFC 2782.
    pub const SRV: Rtype = code!(33);

    /// RFC 6672.
    pub const DNAME: Rtype = code!(39);

    /// RFC 6891.
    pub const OPT: Rtype = code!(41);

    /// RFC 4034.
    pub const DS: Rtype = code!(43);

    /// RFC 4034.
    pub const RRSIG: Rtype = code!(46);

    /// RFC 4034.
    pub const NSEC: Rtype = code!(47);

    /// RFC 4034.
    pub const DNSKEY: Rtype = code!(48);

    /// RFC 5155.
    pub const NSEC3: Rtype = code!(50);

    /// RFC 9460.
    pub const SVCB: Rtype = code!(64);

    /// RFC 9460.
    pub const HTTPS: Rtype = code!(65);

    /// A transfer of what changed in a zone (RFC 1995).
    pub const IXFR: Rtype = code!(251);

    /// A transfer of a zone (RFC 1035, section 3.2.3).
    pub const AXFR: Rtype = code!(252);

    /// Each type, in a question (RFC 1035, section 3.2.3).
    pub const ANY: Rtype = code!(255);

    /// RFC 8659.
    pub const CAA: Rtype = code!(257);
}

/// The registry of codes of EDNS options.
pub struct OptionCodes;

/// A code of an EDNS option (RFC 6891, section 6.1.2).
pub type OptionCode = Code<OptionCodes>;

impl Code<OptionCodes> {
    /// RFC 5001.
    pub const NSID: OptionCode = code!(3);

    /// RFC 6975.
    pub const DAU: OptionCode = code!(5);

    /// RFC 6975.
    pub const DHU: OptionCode = code!(6);

    /// RFC 6975.
    pub const N3U: OptionCode = code!(7);

    /// RFC 7871.
    pub const CLIENT_SUBNET: OptionCode = code!(8);

    /// RFC 7314.
    pub const EXPIRE: OptionCode = code!(9);

    /// RFC 7873.
    pub const COOKIE: OptionCode = code!(10);

    /// RFC 7828.
    pub const TCP_KEEPALIVE: OptionCode = code!(11);

    /// RFC 7830.
    pub const PADDING: OptionCode = code!(12);

    /// RFC 7901.
    pub const CHAIN: OptionCode = code!(13);

    /// RFC 8145.
    pub const KEY_TAG: OptionCode = code!(14);

    /// RFC 8914.
    pub const EXTENDED_ERROR: OptionCode = code!(15);
}

/// The registry of extended error codes.
pub struct ExtendedErrorCodes;

/// An extended error code (RFC 8914, section 4).
pub type ExtendedErrorCode = Code<ExtendedErrorCodes>;

impl Code<ExtendedErrorCodes> {
    /// RFC 8914, section 4.1.
    pub const OTHER: ExtendedErrorCode = code!(0);

    /// RFC 8914, section 4.2.
    pub const UNSUPPORTED_DNSKEY_ALGORITHM: ExtendedErrorCode = code!(1);

    /// RFC 8914, section 4.3.
    pub const UNSUPPORTED_DS_DIGEST_TYPE: ExtendedErrorCode = code!(2);

    /// RFC 8914, section 4.4.
    pub const STALE_ANSWER: ExtendedErrorCode = code!(3);

    /// RFC 8914, section 4.5.
    pub const FORGED_ANSWER: ExtendedErrorCode = code!(4);

    /// RFC 8914, section 4.6.
    pub const DNSSEC_INDETERMINATE: ExtendedErrorCode = code!(5);

    /// RFC 8914, section 4.7.
    pub const DNSSEC_BOGUS: ExtendedErrorCode = code!(6);

    /// RFC 8914, section 4.8.
    pub const SIGNATURE_EXPIRED: ExtendedErrorCode = code!(7);

    /// RFC 8914, section 4.9.
    pub const SIGNATURE_NOT_YET_VALID: ExtendedErrorCode = code!(8);

    /// RFC 8914, section 4.10.
    pub const DNSKEY_MISSING: ExtendedErrorCode = code!(9);

    /// RFC 8914, section 4.11.
    pub const RRSIGS_MISSING: ExtendedErrorCode = code!(10);

    /// RFC 8914, section 4.12.
    pub const NO_ZONE_KEY_BIT_SET: ExtendedErrorCode = code!(11);

    /// RFC 8914, section 4.13.
    pub const NSEC_MISSING: ExtendedErrorCode = code!(12);

    /// RFC 8914, section 4.14.
    pub const CACHED_ERROR: ExtendedErrorCode = code!(13);

    /// RFC 8914, section 4.15.
    pub const NOT_READY: ExtendedErrorCode = code!(14);

    /// RFC 8914, section 4.16.
    pub const BLOCKED: ExtendedErrorCode = code!(15);

    /// RFC 8914, section 4.17.
    pub const CENSORED: ExtendedErrorCode = code!(16);

    /// RFC 8914, section 4.18.
    pub const FILTERED: ExtendedErrorCode = code!(17);

    /// RFC 8914, section 4.19.
    pub const PROHIBITED: ExtendedErrorCode = code!(18);

    /// RFC 8914, section 4.20.
    pub const STALE_NXDOMAIN_ANSWER: ExtendedErrorCode = code!(19);

    /// RFC 8914, section 4.21.
    pub const NOT_AUTHORITATIVE: ExtendedErrorCode = code!(20);

    /// RFC 8914, section 4.22.
    pub const NOT_SUPPORTED: ExtendedErrorCode = code!(21);

    /// RFC 8914, section 4.23.
    pub const NO_REACHABLE_AUTHORITY: ExtendedErrorCode = code!(22);

    /// RFC 8914, section 4.24.
    pub const NETWORK_ERROR: ExtendedErrorCode = code!(23);

    /// RFC 8914, section 4.25.
    pub const INVALID_DATA: ExtendedErrorCode = code!(24);
}

/// The registry of operation codes.
pub struct Opcodes;

/// An operation code, below 16 (RFC 1035, section 4.1.1).
pub type Opcode = HeaderCode<Opcodes>;

impl HeaderCode<Opcodes> {
    /// RFC 1035, section 4.1.1.
    pub const QUERY: Opcode = header_code!(0);

    /// RFC 1035, section 4.1.1.
    pub const IQUERY: Opcode = header_code!(1);

    /// RFC 1035, section 4.1.1.
    pub const STATUS: Opcode = header_code!(2);

    /// RFC 1996.
    pub const NOTIFY: Opcode = header_code!(4);

    /// RFC 2136.
    pub const UPDATE: Opcode = header_code!(5);

    /// RFC 8490.
    pub const DSO: Opcode = header_code!(6);
}

/// The registry of response codes.
pub struct Rcodes;

/// A response code as a header holds it, below 16 (RFC 1035, section 4.1.1).
pub type Rcode = HeaderCode<Rcodes>;

impl HeaderCode<Rcodes> {
    /// RFC 1035, section 4.1.1.
    pub const NOERROR: Rcode = header_code!(0);

    /// RFC 1035, section 4.1.1.
    pub const FORMERR: Rcode = header_code!(1);

    /// RFC 1035, section 4.1.1.
    pub const SERVFAIL: Rcode = header_code!(2);

    /// RFC 1035, section 4.1.1.
    pub const NXDOMAIN: Rcode = header_code!(3);

    /// RFC 1035, section 4.1.1.
    pub const NOTIMP: Rcode = header_code!(4);

    /// RFC 1035, section 4.1.1.
    pub const REFUSED: Rcode = header_code!(5);

    /// RFC 2136.
    pub const YXDOMAIN: Rcode = header_code!(6);

    /// RFC 2136.
    pub const YXRRSET: Rcode = header_code!(7);

    /// RFC 2136.
    pub const NXRRSET: Rcode = header_code!(8);

    /// RFC 2136.
    pub const NOTAUTH: Rcode = header_code!(9);

    /// RFC 2136.
    pub const NOTZONE: Rcode = header_code!(10);

    /// RFC 8490.
    pub const DSOTYPENI: Rcode = header_code!(11);
}

/// A number of a DNSSEC algorithm (RFC 4034, section A.1).
#[derive(Clone, Copy, Debug, PartialEq, Eq, PartialOrd, Ord, Hash)]
pub struct SecurityAlgorithm {
    number: u8,
}

impl Model for SecurityAlgorithm {
    ghost use Rattle.std.specs.Prelude.{ℕ};

    ghost Value = { ℕ };

    ghost view = { λ c. c.number };

    ghost inverse = { λ n. record { number = n } };
}

impl SecurityAlgorithm {
    /// The algorithm of a number.
    pub const fn from_int(number: u8) -> SecurityAlgorithm
        ensures { result ≡ number }
    {
        SecurityAlgorithm { number }
    }

    /// The number.
    pub const fn to_int(self) -> u8
        ensures value { result ≡ self }
        ensures fits { result < 256 }
    {
        self.number
    }
}
