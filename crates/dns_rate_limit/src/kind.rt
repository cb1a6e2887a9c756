//! Kinds of response.

use dns_name::NameRef;

/// The kind of a response, by which it is limited.
#[derive(Drop)]
pub enum Kind<'a> {
    /// It has answer records.
    Answer,
    /// It refers to the name servers of a zone below.
    Referral,
    /// There is no such name or no such type in this zone (RFC 2308, section 2).
    Negative(NameRef<'a>),
    /// It has another response code than NOERROR and NXDOMAIN.
    Error,
}
