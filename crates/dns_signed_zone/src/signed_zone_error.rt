//! Why records are no signed zone.

use dns_denial::ChainError;
use dns_nsec_data::NsecError;
use dns_zone_tree::TreeError;

/// Why records are no zone with a whole chain of NSECs: the first of these causes.
#[derive(Clone, Copy, Debug)]
pub enum SignedZoneError {
    /// They are no zone.
    Tree(TreeError),
    /// The NSEC records among them are no chain.
    Nsec(NsecError),
    /// The chain isn't whole.
    Chain(ChainError),
}
