//! The upstream lines of a script.

use crate::rule_list::RuleList;
use dns_name::{Name, Rcode};

/// What happens at a poll of an upstream.
#[derive(Clone, Copy)]
pub enum UpstreamWord {
    /// Nothing arrives.
    Pend,
    /// A reply to the question arrives, with this response code.
    Rcode(Rcode),
    /// A reply with this response code arrives under the identifier after the query's, so that it isn't taken.
    Stray(Rcode),
    /// A tick comes that is due.
    Late,
}

/// An upstream line: after its words an upstream is late.
#[derive(Drop)]
pub struct UpstreamLine {
    /// The name of the questions that it is for, and of those below.
    pub name: Name,
    pub words: RuleList<UpstreamWord>,
}

/// The upstream lines of a script, in order.
pub type Upstreams = RuleList<UpstreamLine>;
