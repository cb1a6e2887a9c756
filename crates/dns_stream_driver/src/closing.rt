//! Whether outputs close the connection.

ghost use Rattle.std.specs.Prelude.{◌≡◌, ℕ};
ghost use Rattle.dns_session.specs.Outputs.{outputs_in};
ghost use Rattle.dns_stream_driver.specs.Closing.{why_closed, closed_by};

use dns_service::{Output, Why};
use dns_session::Sent;

/// Why an output closes the connection, if it does.
fn why_closed(out: &Output) -> Option<Why>
    ensures { result ≡ why_closed out.now }
{
    match out {
        Output::Closed { why, .. } => Some(*why),
        Output::Datagram { .. } | Output::Frame { .. } | Output::TurnedAway { .. } => None,
    }
}

/// Why the last of some outputs closes the connection, if it does.
#[tactic(auto, using(crate::proofs::ClosingOutput::closed_last, crate::proofs::ClosingOutput::closed_none))]
pub(crate) fn closed_by(outs: &[Output]) -> Option<Why>
    ensures { result ≡ closed_by outs.now }
{
    match outs.split_last() {
        None => None,
        Some((last, _)) => why_closed(last),
    }
}

/// Why what a connection is sent for one event closes it, if it does.
pub(crate) fn closed_behind(sent: &Sent) -> Option<Why>
    ensures { (client : ℕ) → result ≡ closed_by (outputs_in client sent.now) }
{
    match sent {
        Sent::Last(_, why) => Some(*why),
        Sent::Closed(why) => Some(*why),
        Sent::Nothing | Sent::Frame(_) => None,
    }
}
