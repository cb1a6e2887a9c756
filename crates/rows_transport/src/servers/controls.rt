//! Controls of servers that run, and what their metrics show.

use dns_transport::{Control, ServerMetrics};
use std::sync::Wait;
use std::thread::Parker;
use std::time::Duration;

/// How often a test looks whether what it waits for has come.
const TURNS: u64 = 20_000;

/// Shuts the server down once that many responses were sent and no connection is left, and gives the control back.
pub fn shut_down_after<R: Wait>(
    rt: &R,
    metrics: &ServerMetrics,
    mut control: Control,
    responses: usize,
) -> Control {
    let parker = Parker::new();
    for _ in 0..TURNS {
        if metrics.num_sent_responses() >= responses && metrics.num_connections() == 0 {
            break;
        }
        parker.park_timeout(rt, Duration::from_millis(1));
    }
    let _ = control.shutdown(rt);
    control
}

/// Whether a run ended by a shutdown that the control shows.
pub fn shows_shutdown<R: Wait>(rt: &R, mut control: Control, has_shut: bool) -> bool {
    has_shut && control.is_shutdown(rt)
}

/// Whether that many requests were received and as many responses sent, and no connection is left.
pub fn count(metrics: &ServerMetrics, wanted: usize) -> bool {
    metrics.num_received_requests() == wanted
        && metrics.num_sent_responses() == wanted
        && metrics.num_connections() == 0
}
