//! The end of listeners that serve.

ghost use Rattle.std.specs.Prelude.{◌≡◌, ◌≢◌, All, Any, IfOk, IsSome, false, true};
ghost use Rattle.std.specs.Bool.{OnFalse, OnTrue};
ghost use Rattle.std.specs.List.{AllZip};
ghost use Rattle.dns_book.specs.Causes.{HasShutdown};
ghost use Rattle.dns_listener.specs.RunningListeners.{IsOf, met_closed};

use crate::listener::Listener;
use crate::running::Running;
use dns_name::OutOfMemory;
use dns_socket_addr::SocketAddrText;
use dns_workers::HostEnd;
use log::{Log, error};
use std::alloc::Global;
use std::sync::Wait;
use std::thread::Threads;

/// Whether a listener was shut down or has ended by itself.
pub fn has_ended<R: Wait>(rt: &R, running: &mut [Running<R>]) -> bool
    ensures closed { OnTrue result (Any (λ r. met_closed r ≡ true) running.new) }
    ensures open { OnFalse result (All (λ r. met_closed r ≡ false) running.new) }
{
    'each: for one in running.iter_mut() {
        if one.is_closed(rt) {
            return true;
        }
    }
    false
}

/// Shuts each listener down.
pub fn close_all<R: Wait>(rt: &R, running: &mut [Running<R>])
    ensures { All (λ r. HasShutdown r.seat.known.seen) running.new }
{
    'each: for one in running.iter_mut() {
        one.close(rt);
    }
}

/// Why a listener ended by itself, in words.
fn fault_text(end: HostEnd) -> Option<&'static str>
    ensures none { end ≡ HostEnd.Done → result ≡ None }
    ensures some { end ≢ HostEnd.Done → IsSome result }
{
    match end {
        HostEnd::Done => None,
        HostEnd::HostFault => Some("an accept, a thread, a receive or a send failed"),
        HostEnd::OutOfMemory => Some("out of memory"),
    }
}

/// Takes the listeners back, each once it has ended.
pub fn take_back<R: Threads + Log + Drop>(
    rt: &R,
    alloc: Global,
    running: Vec<Running<R>>,
) -> Result<Vec<Listener<R>>, OutOfMemory>
    ensures { IfOk result (λ listeners. AllZip IsOf running.items listeners.items) }
{
    let mut listeners = Vec::new(alloc);
    'each: for one in running {
        let (listener, end) = one.join(rt);
        if let Some(fault) = fault_text(end) {
            error!(rt; "{}: {fault}", SocketAddrText(listener.address));
        }
        listeners.push(listener)?;
    }
    Ok(listeners)
}
