//! The numbers that constants of dns_name have, and codes by their registered names.

use dns_name::{
    Class, Code, ExtendedErrorCode, HeaderCode, Opcode, OptRcode, OptionCode, Rcode, Rtype,
};
use rows_table::{Calls, Row, RowError};
use std::fmt::Display;

/// The registries of dns_name.
pub struct Codes;

impl Calls for Codes {
    fn answer(&self, call: &str, row: &mut Row<'_>) -> Result<(), RowError> {
        match call {
            "classes" => classes(row),
            "rtypes" => rtypes(row),
            "more_rtypes" => more_rtypes(row),
            "opcodes" => opcodes(row),
            "option_codes" => option_codes(row),
            "code" => named(row),
            "extended_error_codes" => error_codes(row),
            "more_extended_error_codes" => more_error_codes(row),
            "rcodes" => rcodes(row),
            "opt_rcodes" => opt_rcodes(row),
            "more_opt_rcodes" => more_opt_rcodes(row),
            _ => return Err(RowError::NoSuchCall),
        }
        Ok(())
    }
}

/// The classes.
fn classes(row: &mut Row<'_>) {
    let codes = [Class::IN, Class::CH, Class::HS, Class::NONE, Class::ANY];
    numbered(row, "IN CH HS NONE ANY", &codes)
}

/// The opcodes.
fn opcodes(row: &mut Row<'_>) {
    let codes = [
        Opcode::QUERY,
        Opcode::IQUERY,
        Opcode::STATUS,
        Opcode::NOTIFY,
        Opcode::UPDATE,
        Opcode::DSO,
    ];
    numbered(row, "QUERY IQUERY STATUS NOTIFY UPDATE DSO", &codes)
}

/// The record types.
fn rtypes(row: &mut Row<'_>) {
    let names = "A NS MD MF CNAME SOA MB MG MR PTR MINFO MX TXT AAAA";
    let codes = [
        Rtype::A,
        Rtype::NS,
        Rtype::MD,
        Rtype::MF,
        Rtype::CNAME,
        Rtype::SOA,
        Rtype::MB,
        Rtype::MG,
        Rtype::MR,
        Rtype::PTR,
        Rtype::MINFO,
        Rtype::MX,
        Rtype::TXT,
        Rtype::AAAA,
    ];
    numbered(row, names, &codes)
}

/// The other record types.
fn more_rtypes(row: &mut Row<'_>) {
    let names = "SRV DNAME OPT DS RRSIG NSEC DNSKEY NSEC3 SVCB HTTPS IXFR AXFR ANY CAA";
    let codes = [
        Rtype::SRV,
        Rtype::DNAME,
        Rtype::OPT,
        Rtype::DS,
        Rtype::RRSIG,
        Rtype::NSEC,
        Rtype::DNSKEY,
        Rtype::NSEC3,
        Rtype::SVCB,
        Rtype::HTTPS,
        Rtype::IXFR,
        Rtype::AXFR,
        Rtype::ANY,
        Rtype::CAA,
    ];
    numbered(row, names, &codes)
}

/// The option codes.
fn option_codes(row: &mut Row<'_>) {
    let names = "NSID DAU DHU N3U CLIENT_SUBNET EXPIRE COOKIE TCP_KEEPALIVE PADDING CHAIN KEY_TAG \
    EXTENDED_ERROR";
    let codes = [
        OptionCode::NSID,
        OptionCode::DAU,
        OptionCode::DHU,
        OptionCode::N3U,
        OptionCode::CLIENT_SUBNET,
        OptionCode::EXPIRE,
        OptionCode::COOKIE,
        OptionCode::TCP_KEEPALIVE,
        OptionCode::PADDING,
        OptionCode::CHAIN,
        OptionCode::KEY_TAG,
        OptionCode::EXTENDED_ERROR,
    ];
    numbered(row, names, &codes)
}

/// The extended error codes.
fn error_codes(row: &mut Row<'_>) {
    let names =
        "OTHER UNSUPPORTED_DNSKEY_ALGORITHM UNSUPPORTED_DS_DIGEST_TYPE STALE_ANSWER FORGED_ANSWER \
    DNSSEC_INDETERMINATE DNSSEC_BOGUS SIGNATURE_EXPIRED SIGNATURE_NOT_YET_VALID DNSKEY_MISSING \
    RRSIGS_MISSING NO_ZONE_KEY_BIT_SET NSEC_MISSING";
    let codes = [
        ExtendedErrorCode::OTHER,
        ExtendedErrorCode::UNSUPPORTED_DNSKEY_ALGORITHM,
        ExtendedErrorCode::UNSUPPORTED_DS_DIGEST_TYPE,
        ExtendedErrorCode::STALE_ANSWER,
        ExtendedErrorCode::FORGED_ANSWER,
        ExtendedErrorCode::DNSSEC_INDETERMINATE,
        ExtendedErrorCode::DNSSEC_BOGUS,
        ExtendedErrorCode::SIGNATURE_EXPIRED,
        ExtendedErrorCode::SIGNATURE_NOT_YET_VALID,
        ExtendedErrorCode::DNSKEY_MISSING,
        ExtendedErrorCode::RRSIGS_MISSING,
        ExtendedErrorCode::NO_ZONE_KEY_BIT_SET,
        ExtendedErrorCode::NSEC_MISSING,
    ];
    numbered(row, names, &codes)
}

/// The other extended error codes.
fn more_error_codes(row: &mut Row<'_>) {
    let names = "CACHED_ERROR NOT_READY BLOCKED CENSORED FILTERED PROHIBITED STALE_NXDOMAIN_ANSWER \
    NOT_AUTHORITATIVE NOT_SUPPORTED NO_REACHABLE_AUTHORITY NETWORK_ERROR INVALID_DATA";
    let codes = [
        ExtendedErrorCode::CACHED_ERROR,
        ExtendedErrorCode::NOT_READY,
        ExtendedErrorCode::BLOCKED,
        ExtendedErrorCode::CENSORED,
        ExtendedErrorCode::FILTERED,
        ExtendedErrorCode::PROHIBITED,
        ExtendedErrorCode::STALE_NXDOMAIN_ANSWER,
        ExtendedErrorCode::NOT_AUTHORITATIVE,
        ExtendedErrorCode::NOT_SUPPORTED,
        ExtendedErrorCode::NO_REACHABLE_AUTHORITY,
        ExtendedErrorCode::NETWORK_ERROR,
        ExtendedErrorCode::INVALID_DATA,
    ];
    numbered(row, names, &codes)
}

/// The response codes of a header.
fn rcodes(row: &mut Row<'_>) {
    let names =
        "NOERROR FORMERR SERVFAIL NXDOMAIN NOTIMP REFUSED YXDOMAIN YXRRSET NXRRSET NOTAUTH NOTZONE \
    DSOTYPENI";
    let codes = [
        Rcode::NOERROR,
        Rcode::FORMERR,
        Rcode::SERVFAIL,
        Rcode::NXDOMAIN,
        Rcode::NOTIMP,
        Rcode::REFUSED,
        Rcode::YXDOMAIN,
        Rcode::YXRRSET,
        Rcode::NXRRSET,
        Rcode::NOTAUTH,
        Rcode::NOTZONE,
        Rcode::DSOTYPENI,
    ];
    numbered(row, names, &codes)
}

/// The response codes with the bits of an OPT record.
fn opt_rcodes(row: &mut Row<'_>) {
    let names =
        "NOERROR FORMERR SERVFAIL NXDOMAIN NOTIMP REFUSED YXDOMAIN YXRRSET NXRRSET NOTAUTH NOTZONE \
    DSOTYPENI BADVERS BADSIG";
    let codes = [
        OptRcode::NOERROR,
        OptRcode::FORMERR,
        OptRcode::SERVFAIL,
        OptRcode::NXDOMAIN,
        OptRcode::NOTIMP,
        OptRcode::REFUSED,
        OptRcode::YXDOMAIN,
        OptRcode::YXRRSET,
        OptRcode::NXRRSET,
        OptRcode::NOTAUTH,
        OptRcode::NOTZONE,
        OptRcode::DSOTYPENI,
        OptRcode::BADVERS,
        OptRcode::BADSIG,
    ];
    numbered(row, names, &codes)
}

/// The other response codes with the bits of an OPT record.
fn more_opt_rcodes(row: &mut Row<'_>) {
    let names = "BADKEY BADTIME BADMODE BADNAME BADALG BADTRUNC BADCOOKIE";
    let codes = [
        OptRcode::BADKEY,
        OptRcode::BADTIME,
        OptRcode::BADMODE,
        OptRcode::BADNAME,
        OptRcode::BADALG,
        OptRcode::BADTRUNC,
        OptRcode::BADCOOKIE,
    ];
    numbered(row, names, &codes)
}

/// A code that a registry numbers.
trait HasNumber: Copy {
    /// The number of the code.
    fn number(self) -> u16;
}

impl<K> HasNumber for Code<K> {
    fn number(self) -> u16 {
        self.to_int()
    }
}

impl<K> HasNumber for HeaderCode<K> {
    fn number(self) -> u16 {
        u16::from(self.to_int())
    }
}

impl HasNumber for OptRcode {
    fn number(self) -> u16 {
        self.to_int()
    }
}

/// Says the numbers of codes, each under the name in its place.
fn numbered<C: HasNumber>(row: &mut Row<'_>, names: &str, codes: &[C]) {
    let mut names = names.split(' ');
    for code in codes {
        row.tell(names.next().unwrap_or(""), &code.number());
    }
}

/// The number of the code of a registry that a text names, and how that code is written.
fn named(row: &mut Row<'_>) {
    let registry = row.word();
    let text = row.text();
    match registry {
        "class" => shown(row, Class::from_text(text)),
        "rtype" => shown(row, Rtype::from_text(text)),
        "option" => shown(row, OptionCode::from_text(text)),
        "error" => shown(row, ExtendedErrorCode::from_text(text)),
        "opcode" => shown(row, Opcode::from_text(text)),
        "rcode" => shown(row, Rcode::from_text(text)),
        "opt_rcode" => shown(row, OptRcode::from_text(text)),
        _ => row.fail(RowError::OutOfForm),
    }
}

/// The number and the text of a code that was read, or `none`.
fn shown<C: HasNumber + Display>(row: &mut Row<'_>, read: Option<C>) {
    match read {
        Some(code) => {
            row.show(&code.number());
            row.quote(&code)
        }
        None => row.say("none"),
    }
}
