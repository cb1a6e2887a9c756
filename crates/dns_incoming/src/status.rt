//! How far a transfer is.

/// How far a transfer is.
#[derive(Clone, Copy, Debug, PartialEq, Eq)]
pub enum TransferStatus {
    /// More messages are to come.
    More,
    /// All records came.
    Done,
    /// What came is no transfer of the zone.
    Refused(TransferDefect),
}

/// Why what came is no transfer of a zone.
#[derive(Clone, Copy, Debug, PartialEq, Eq)]
pub enum TransferDefect {
    /// A message is no response, or has another identifier than the query.
    Identifier,
    /// A message has another response code than NOERROR.
    Code,
    /// A question, an answer record or its data is unreadable.
    Unreadable,
    /// The first record is no SOA record of the zone.
    NoSoa,
    /// An SOA record isn't the first one again.
    OtherSoa,
    /// A record comes after the SOA record that ends the transfer.
    Behind,
    /// The owner of a record doesn't end with the apex.
    Outside,
    /// More records come than the zone may have.
    TooMany,
}
