//! The end of who asks a running program.

ghost use Rattle.std.specs.Prelude.{◌≡◌, ◌≢◌, ◌++◌, ℕ, List, IfNone, IfSome, codes};

use crate::error::ControlError;
use std::alloc::Global;
use std::io::{self, Write};
use std::net::{Net, Shutdown};
use std::os::unix::net::UnixStream;

/// What a program says after the line `ok`. None if it refuses.
pub fn granted(said: &str) -> Option<&str>
    ensures granted { IfSome result (λ text. said.now ≡ codes "ok\n" ++ text.now) }
    ensures refused { IfNone result ((text : List ℕ) → said.now ≢ codes "ok\n" ++ text) }
{
    said.strip_prefix("ok\n")
}

/// Says an order at a control socket, and hears what is said to it.
fn said_to<N: Net>(net: &N, alloc: Global, socket: &str, order: &str) -> io::Result<String> {
    let mut stream = UnixStream::connect(net, socket)?;
    stream.write_all(order.as_bytes())?;
    stream.write_all(b"\n")?;
    stream.shutdown(Shutdown::Write)?;
    io::read_to_string(alloc, stream)
}

/// Asks the program that runs at a control socket, and prints what it says. Fails if it refuses, with the reason that it gives.
pub fn ask<N: Net, P: Print + AllocGlobal>(
    net: &N,
    rt: &P,
    socket: &str,
    order: &str,
) -> Result<(), ControlError> {
    let said = said_to(net, rt.alloc(), socket, order)?;
    match granted(said.as_str()) {
        Some(text) => {
            print!(rt; "{text}")?;
            Ok(())
        }
        None => {
            let reason = String::from_str(rt.alloc(), said.as_str().trim_end())?;
            Err(ControlError::Refused(reason))
        }
    }
}
