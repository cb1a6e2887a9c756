//! The copies that a secondary server keeps of its zones (RFC 1034, section 4.3.5), over sockets, files and threads.
//!
//! - `Copies` are the zones of a configuration that have a primary. `follow` goes on to the zones of another configuration,
//!   `look` does what is due, `discard_obsolete` discards copies alone, and `end` ends all checks.
//! - `CopiesTarget` is the target of NOTIFY (RFC 1996). What a NOTIFY marks is the zone's secondary, so that it stays where
//!   another target takes the place of one.
//! - `Secondary` is one zone and its copy.
//!
//! ```text
//! look -> a check is due -> a thread: connect, SOA query, transfer (AXFR, RFC 5936), judged -> look: the file is written
//!      -> EXPIRE has passed -> no copy
//! NOTIFY -> target -> look: a check is due
//! ```
//!
//! If a key is shared with the primary (RFC 8945), both queries are signed under it, and replies that don't verify are
//! refused. What is verified of a transfer is a front of it: that it is whole is seen by its second SOA record.
//!
//! A check is a connection to the primary in a thread of its own. It asks for the SOA record first, and for the zone if that
//! is newer (RFC 1982). What comes is judged as a zone file is. The file of a copy is replaced by a rename. At most 10 checks go
//! on at once, and the others wait in order. One that takes 10 minutes is given up.
//!
//! The file of a copy was written last when the copy came or was found current last. So EXPIRE doesn't begin anew where the
//! server does.
//!
//! Moments are seconds since a moment that the owner picks, before each file was written. What comes of checks is logged.
//!
//! # What is proved
//!
//! - The copy of a zone is distinguished from others by its name and by the address and port of its primary (`is_of`).
//! - What comes of a check is offered to the copy: a zone that came replaces it only if its serial is newer and its file is
//!   written; else what is held stays (`take`).
//! - The copy that is held is the one that is served (`Follows`). It stays with what is known of it. Where memory runs out, or a
//!   key isn't known, the zones, their copies and the target stay as they were.
//! - A look changes a copy only by a NOTIFY, a check's outcome, EXPIRE, or the begin of a check that is due. It says whether another
//!   copy, or none, is served from now on (`Looks`).
//! - What is said of each copy is its zone and its serial (`Reports`).
//! - A reply to a query that was signed is taken only if it verifies. A transfer that was asked under a key ends only after a
//!   message that was signed. A secondary has the key that its entry names (`Follows`).
//! - The target of NOTIFY has the zones and the primaries of all secondaries.
//! - Which check is due when, and when a copy is discarded, is proved of `ZoneCopy` of dns_secondary. What comes of the
//!   messages of a transfer is proved of dns_incoming.
//!
//! # What a body could still get away with
//!
//! No clause says what sockets, files and threads give, nor how the address of a primary is written. That a check is begun if
//! one is due, and that one goes on where another configuration is followed, is a test's matter (`tools/zoned`,
//! `tools/interop/zoned`). So is that both queries are signed if there is a key (`tools/interop/keys`).
#![tactic(auto)]

mod before;
mod check;
mod checking;
mod copies;
mod copy_file;
mod primary;
mod secondary;
mod target;

pub use copies::Copies;
pub use secondary::Secondary;
pub use target::{CopiesTarget, Decided};
