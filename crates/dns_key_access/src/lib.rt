//! Who may transfer a zone and whose NOTIFY is taken, by address and key (RFC 8945, section 5.2; RFC 5936, section 5; RFC 1996,
//! section 3.11).
//!
//! - `Access` permits a network, and wants a key of its requests if it names one. `ZoneAccess` are those of a zone.
//! - `KeyAccess` are the zones whose transfers or NOTIFYs want a key. `zone_access` and `peer_access` make what is permitted of a
//!   zone of its configuration, and `wants_key` says whether a key is wanted at all. `RuleError` says which rule isn't made.
//! - `KeyAccessSvc` is a layer round a service. Its requests have the place of the key that they were verified under as their
//!   metadata, as TsigMiddlewareSvc of dns_signing passes it on. Those of the service inside have none.
//!   `AccessFuture` and `AccessStream` are its replies.
//!
//! ```text
//! request, key -> AXFR, IXFR of a zone with rules: no rule permits address and key ? REFUSED : inside
//!              -> NOTIFY of such a zone:           no rule permits address and key ? NOTAUTH : inside
//!              -> all else: inside
//! ```
//!
//! The service inside judges the address once more: dns_authority by networks, NotifyTarget of dns_secondary_service by the
//! primary's address. So those are to permit each address that a rule here permits. A zone none of whose rules has a key needs no
//! rules here.
//!
//! # What is proved
//!
//! - A transfer that no rule of its zone permits is REFUSED, and such a NOTIFY is NOTAUTH: neither reaches the service inside
//!   (`wanted_keys_are_judged`).
//! - Without rules each request is answered as by the service inside (`without_rules_all_is_as_before`).
//! - A rule that names a key is made with the place of that key. A name that no key has is refused.
//!
//! # What a body could still get away with
//!
//! That metadata is the key's place is up to the layer outside. A rule that is left out permits nothing more only if another
//! rule of its zone stands.
#![tactic(auto)]

mod access;
mod laws;
mod layer;
mod replies;
mod rule_error;
mod rules;

pub use access::{Access, KeyAccess, ZoneAccess};
pub use laws::{wanted_keys_are_judged, without_rules_all_is_as_before};
pub use layer::KeyAccessSvc;
pub use replies::{AccessFuture, AccessStream};
pub use rule_error::RuleError;
pub use rules::{peer_access, wants_key, zone_access};
