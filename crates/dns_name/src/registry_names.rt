//! The names of IANA's registries "Domain Name System (DNS) Parameters": numbers, each with its name. If a number or a
//! name stands twice, the first entry counts.

/// The classes (registry "DNS CLASSes"; RFC 1035, section 3.2.4; RFC 2136, section 2.4). ANY is registered as `*` too.
pub(crate) const CLASSES: &[(u16, &str)] = &[
    (1, "IN"),
    (3, "CH"),
    (4, "HS"),
    (254, "NONE"),
    (255, "ANY"),
    (255, "*"),
];

/// The record types from 1 to 16 (registry "Resource Record (RR) TYPEs").
pub(crate) const TYPES: &[(u16, &str)] = &[
    (1, "A"),
    (2, "NS"),
    (3, "MD"),
    (4, "MF"),
    (5, "CNAME"),
    (6, "SOA"),
    (7, "MB"),
    (8, "MG"),
    (9, "MR"),
    (10, "NULL"),
    (11, "WKS"),
    (12, "PTR"),
    (13, "HINFO"),
    (14, "MINFO"),
    (15, "MX"),
    (16, "TXT"),
];

/// The record types from 17 to 32.
pub(crate) const TYPES_FROM_17: &[(u16, &str)] = &[
    (17, "RP"),
    (18, "AFSDB"),
    (19, "X25"),
    (20, "ISDN"),
    (21, "RT"),
    (22, "NSAP"),
    (23, "NSAP-PTR"),
    (24, "SIG"),
    (25, "KEY"),
    (26, "PX"),
    (27, "GPOS"),
    (28, "AAAA"),
    (29, "LOC"),
    (30, "NXT"),
    (31, "EID"),
    (32, "NIMLOC"),
];

/// The record types from 33 to 48.
pub(crate) const TYPES_FROM_33: &[(u16, &str)] = &[
    (33, "SRV"),
    (34, "ATMA"),
    (35, "NAPTR"),
    (36, "KX"),
    (37, "CERT"),
    (38, "A6"),
    (39, "DNAME"),
    (40, "SINK"),
    (41, "OPT"),
    (42, "APL"),
    (43, "DS"),
    (44, "SSHFP"),
    (45, "IPSECKEY"),
    (46, "RRSIG"),
    (47, "NSEC"),
    (48, "DNSKEY"),
];

/// The record types from 49 to 65.
pub(crate) const TYPES_FROM_49: &[(u16, &str)] = &[
    (49, "DHCID"),
    (50, "NSEC3"),
    (51, "NSEC3PARAM"),
    (52, "TLSA"),
    (53, "SMIMEA"),
    (55, "HIP"),
    (56, "NINFO"),
    (57, "RKEY"),
    (58, "TALINK"),
    (59, "CDS"),
    (60, "CDNSKEY"),
    (61, "OPENPGPKEY"),
    (62, "CSYNC"),
    (63, "ZONEMD"),
    (64, "SVCB"),
    (65, "HTTPS"),
];

/// The record types from 66 to 109.
pub(crate) const TYPES_FROM_66: &[(u16, &str)] = &[
    (66, "DSYNC"),
    (67, "HHIT"),
    (68, "BRID"),
    (99, "SPF"),
    (100, "UINFO"),
    (101, "UID"),
    (102, "GID"),
    (103, "UNSPEC"),
    (104, "NID"),
    (105, "L32"),
    (106, "L64"),
    (107, "LP"),
    (108, "EUI48"),
    (109, "EUI64"),
];

/// The record types from 128 to 257. ANY is registered as `*`.
pub(crate) const TYPES_FROM_128: &[(u16, &str)] = &[
    (128, "NXNAME"),
    (249, "TKEY"),
    (250, "TSIG"),
    (251, "IXFR"),
    (252, "AXFR"),
    (253, "MAILB"),
    (254, "MAILA"),
    (255, "ANY"),
    (255, "*"),
    (256, "URI"),
    (257, "CAA"),
];

/// The record types from 258 on.
pub(crate) const TYPES_FROM_258: &[(u16, &str)] = &[
    (258, "AVC"),
    (259, "DOA"),
    (260, "AMTRELAY"),
    (261, "RESINFO"),
    (262, "WALLET"),
    (263, "CLA"),
    (264, "IPN"),
    (32768, "TA"),
    (32769, "DLV"),
];

/// The option codes from 1 to 14 (registry "DNS EDNS0 Option Codes (OPT)").
pub(crate) const OPTIONS: &[(u16, &str)] = &[
    (1, "LLQ"),
    (2, "Update Lease"),
    (3, "NSID"),
    (5, "DAU"),
    (6, "DHU"),
    (7, "N3U"),
    (8, "edns-client-subnet"),
    (9, "EDNS EXPIRE"),
    (10, "COOKIE"),
    (11, "edns-tcp-keepalive"),
    (12, "Padding"),
    (13, "CHAIN"),
    (14, "edns-key-tag"),
];

/// The option codes from 15 on.
pub(crate) const OPTIONS_FROM_15: &[(u16, &str)] = &[
    (15, "Extended DNS Error"),
    (16, "EDNS-Client-Tag"),
    (17, "EDNS-Server-Tag"),
    (18, "Report-Channel"),
    (19, "ZONEVERSION"),
    (20292, "Umbrella Ident"),
    (26946, "DeviceID"),
];

/// The extended error codes from 0 to 15 (registry "Extended DNS Error Codes"; RFC 8914, section 5.2).
pub(crate) const ERRORS: &[(u16, &str)] = &[
    (0, "Other Error"),
    (1, "Unsupported DNSKEY Algorithm"),
    (2, "Unsupported DS Digest Type"),
    (3, "Stale Answer"),
    (4, "Forged Answer"),
    (5, "DNSSEC Indeterminate"),
    (6, "DNSSEC Bogus"),
    (7, "Signature Expired"),
    (8, "Signature Not Yet Valid"),
    (9, "DNSKEY Missing"),
    (10, "RRSIGs Missing"),
    (11, "No Zone Key Bit Set"),
    (12, "NSEC Missing"),
    (13, "Cached Error"),
    (14, "Not Ready"),
    (15, "Blocked"),
];

/// The extended error codes from 16 on.
pub(crate) const ERRORS_FROM_16: &[(u16, &str)] = &[
    (16, "Censored"),
    (17, "Filtered"),
    (18, "Prohibited"),
    (19, "Stale NXDomain Answer"),
    (20, "Not Authoritative"),
    (21, "Not Supported"),
    (22, "No Reachable Authority"),
    (23, "Network Error"),
    (24, "Invalid Data"),
    (25, "Signature Expired before Valid"),
    (26, "Too Early"),
    (27, "Unsupported NSEC3 Iterations Value"),
    (28, "Unable to conform to policy"),
    (29, "Synthesized"),
    (30, "Invalid Query Type"),
];

/// The operation codes (registry "DNS OpCodes", in capitals here).
pub(crate) const OPCODES: &[(u16, &str)] = &[
    (0, "QUERY"),
    (1, "IQUERY"),
    (2, "STATUS"),
    (4, "NOTIFY"),
    (5, "UPDATE"),
    (6, "DSO"),
];

/// The response codes of a header (registry "DNS RCODEs", in capitals here; RFC 6895, section 2.3).
pub(crate) const RCODES: &[(u16, &str)] = &[
    (0, "NOERROR"),
    (1, "FORMERR"),
    (2, "SERVFAIL"),
    (3, "NXDOMAIN"),
    (4, "NOTIMP"),
    (5, "REFUSED"),
    (6, "YXDOMAIN"),
    (7, "YXRRSET"),
    (8, "NXRRSET"),
    (9, "NOTAUTH"),
    (10, "NOTZONE"),
    (11, "DSOTYPENI"),
];

/// The response codes of an OPT, TSIG or TKEY record. The number 16 has two names: BADSIG if a TSIG record holds it.
pub(crate) const RCODES_FROM_16: &[(u16, &str)] = &[
    (16, "BADVERS"),
    (16, "BADSIG"),
    (17, "BADKEY"),
    (18, "BADTIME"),
    (19, "BADMODE"),
    (20, "BADNAME"),
    (21, "BADALG"),
    (22, "BADTRUNC"),
    (23, "BADCOOKIE"),
];
