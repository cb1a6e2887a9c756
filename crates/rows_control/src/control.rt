//! Control sockets in a folder for what is temporary.

use dns_control::{Control, ControlError};
use std::alloc::Global;
use std::io::{Read, Write};
use std::net::{Net, Shutdown};
use std::os::unix::net::UnixStream;
use std::rt::Files;
use std::{fs, process};

/// Whether what is said at a socket is heard as this order, and what is said to it is heard there. Who connects is there at once.
fn hears<R: Net>(
    rt: &R,
    alloc: Global,
    control: &Control,
    path: &str,
    said: &[u8],
    order: Option<&[u8]>,
) -> bool {
    let Ok(mut stream) = UnixStream::connect(rt, path) else {
        return false;
    };
    if stream.write_all(said).is_err() || stream.shutdown(Shutdown::Write).is_err() {
        return false;
    }
    let Some(mut caller) = control.caller() else {
        return false;
    };
    let Ok(heard) = caller.order(alloc) else {
        return false;
    };
    let is_heard = match (&heard, order) {
        (Some(heard), Some(order)) => heard.as_slice() == order,
        (None, None) => true,
        _ => false,
    };
    let mut answer = [0u8; 3];
    is_heard
        && caller.say("ok\n").is_ok()
        && stream.read_exact(&mut answer).is_ok()
        && &answer == b"ok\n"
}

/// Whether each order is heard at a path.
fn hears_all<R: Net + Files>(rt: &R, alloc: Global, path: &str) -> bool {
    let Ok(control) = Control::bind(rt, alloc, path) else {
        return false;
    };
    let heard = hears(rt, alloc, &control, path, b"status\n", Some(b"status"))
        && hears(
            rt,
            alloc,
            &control,
            path,
            b"fifteen_octets_\n",
            Some(b"fifteen_octets_"),
        )
        && hears(rt, alloc, &control, path, b"sixteen_octets__\n", None)
        && hears(rt, alloc, &control, path, b"stop", None)
        && hears(rt, alloc, &control, path, b"", None)
        && hears(rt, alloc, &control, path, b"\nstop\n", Some(b""));
    control.remove(rt);
    heard && fs::symlink_metadata(rt, path).is_err()
}

/// Whether a caller that says nothing is left in the end.
fn leaves_the_silent<R: Net + Files>(rt: &R, alloc: Global, path: &str) -> bool {
    let Ok(control) = Control::bind(rt, alloc, path) else {
        return false;
    };
    let silent = UnixStream::connect(rt, path);
    let is_left = match control.caller() {
        Some(mut caller) => caller.order(alloc).is_err(),
        None => false,
    };
    control.remove(rt);
    silent.is_ok() && is_left
}

/// Whether a socket that is answered is refused and stays, and one that is abandoned is taken over.
fn takes_over<R: Net + Files>(rt: &R, alloc: Global, path: &str) -> bool {
    let Ok(first) = Control::bind(rt, alloc, path) else {
        return false;
    };
    let is_refused = matches!(Control::bind(rt, alloc, path), Err(ControlError::Answered));
    // The caller that the refused one was.
    let _ = first.caller();
    let is_heard = hears(rt, alloc, &first, path, b"status\n", Some(b"status"));
    drop(first);
    is_refused && is_heard && hears_all(rt, alloc, path)
}

/// Whether a file that is no socket is refused, and stays.
fn leaves_files<R: Net + Files + AllocGlobal>(rt: &R, alloc: Global, path: &str) -> bool {
    if fs::write(rt, path, b"kept").is_err() {
        return false;
    }
    let is_refused = matches!(Control::bind(rt, alloc, path), Err(ControlError::OtherFile));
    let is_kept = match fs::read_to_string(rt, path) {
        Ok(text) => text.as_str() == "kept",
        Err(_) => false,
    };
    let _ = fs::remove_file(rt, path);
    is_refused && is_kept
}

/// Control sockets do as is wanted, and else what doesn't is named.
#[test]
fn control_sockets_hold(rt: HostRuntime) -> Result<(), &'static str> {
    let alloc = rt.alloc();
    let number = process::id(rt.process());
    let Ok(path) = format!(in alloc; "/tmp/rows_control.{number}") else {
        return Err("memory");
    };
    let path = path.as_str();
    if !hears_all(&rt, alloc, path) {
        return Err("an_order_is_heard");
    }
    if !leaves_the_silent(&rt, alloc, path) {
        return Err("a_silent_caller_is_left");
    }
    if !takes_over(&rt, alloc, path) {
        return Err("an_abandoned_socket_is_taken_over");
    }
    if !leaves_files(&rt, alloc, path) {
        return Err("another_file_is_left");
    }
    Ok(())
}
