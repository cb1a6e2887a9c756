//! The end of a running program.

ghost use Rattle.std.specs.Prelude.{◌≡◌, IsErrAnd, OnOk};
ghost use Rattle.std.specs.IoError.{error_kind};

use crate::error::ControlError;
use crate::order::read_order;
use std::alloc::Global;
use std::fs;
use std::io::{self, ErrorKind, Write};
use std::net::Net;
use std::os::unix::fs::FileTypeExt;
use std::os::unix::net::{UnixListener, UnixStream};
use std::rt::Files;
use std::time::Duration;

/// How long a caller may take to go on with its line, and with what is said to it.
const CALLER_SECONDS: u64 = 1;

/// A Unix socket at which a program is asked, and its path.
#[derive(Drop)]
pub struct Control {
    path: String,
    listener: UnixListener,
}

/// Goes on only if nobody answers at a socket: a connection to it was refused.
fn abandoned(connected: io::Result<UnixStream>) -> Result<(), ControlError>
    ensures { OnOk result (IsErrAnd connected (λ e. error_kind e ≡ ErrorKind.ConnectionRefused)) }
{
    match connected {
        Ok(_) => Err(ControlError::Answered),
        Err(error) => {
            if error.kind() == ErrorKind::ConnectionRefused {
                return Ok(());
            }
            Err(ControlError::System(error))
        }
    }
}

/// Removes the socket at a path, if nobody answers there. Refuses any other file.
fn take_over<R: Files + Net>(rt: &R, path: &str, found: &fs::Metadata) -> Result<(), ControlError> {
    if !found.file_type().is_socket() {
        return Err(ControlError::OtherFile);
    }
    abandoned(UnixStream::connect(rt, path))?;
    fs::remove_file(rt, path)?;
    Ok(())
}

/// Makes room for a socket at a path.
fn make_room<R: Files + Net>(rt: &R, path: &str) -> Result<(), ControlError> {
    match fs::symlink_metadata(rt, path) {
        Ok(found) => take_over(rt, path, &found),
        Err(error) => {
            if error.kind() == ErrorKind::NotFound {
                return Ok(());
            }
            Err(ControlError::System(error))
        }
    }
}

impl Control {
    /// A socket at this path. One that stands there and isn't answered makes place; one that is answered is refused, and so is any
    /// other file.
    pub fn bind<R: Files + Net>(
        rt: &R,
        alloc: Global,
        path: &str,
    ) -> Result<Control, ControlError> {
        let kept = String::from_str(alloc, path)?;
        make_room(rt, path)?;
        let listener = UnixListener::bind(rt, path)?;
        listener.set_nonblocking(true)?;
        Ok(Control {
            path: kept,
            listener,
        })
    }

    /// The next caller, if one is there.
    pub fn caller(&self) -> Option<Caller> {
        match self.listener.accept() {
            Ok((stream, _)) => Some(Caller { stream }),
            Err(_) => None,
        }
    }

    /// Closes the socket and removes it.
    pub fn remove<R: Files>(self, rt: &R) {
        let _ = fs::remove_file(rt, self.path.as_str());
    }
}

/// Who asks a program.
#[derive(Drop)]
pub struct Caller {
    stream: UnixStream,
}

impl Caller {
    /// The order that is asked. There is none if the line is too long, or has no end; it fails if nothing comes in time.
    pub fn order(&mut self, alloc: Global) -> io::Result<Option<Vec<u8>>> {
        let limit = Some(Duration::from_secs(CALLER_SECONDS));
        self.stream.set_nonblocking(false)?;
        self.stream.set_read_timeout(limit)?;
        self.stream.set_write_timeout(limit)?;
        read_order(alloc, &self.stream)
    }

    /// Says a text.
    pub fn say(&mut self, text: &str) -> io::Result<()> {
        self.stream.write_all(text.as_bytes())
    }
}
