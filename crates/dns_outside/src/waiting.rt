//! Waiting for a socket, and errors by which a call is made again.

use libc::net as c;
use libc::types::pollfd;
use std::io;
use std::io::ErrorKind;
use std::os::fd::AsRawFd;
use std::sync::Wait;

/// Whether a call that gave this error is to be made again: nothing was ready, or the call was interrupted.
pub(crate) fn is_again(error: &io::Error) -> bool {
    matches!(error.kind(), ErrorKind::WouldBlock | ErrorKind::Interrupted)
}

/// Whether a read that gave this error is to be made again: nothing was ready, or the read was interrupted or took too long.
pub(crate) fn is_read_again(error: &io::Error) -> bool {
    is_again(error) || error.kind() == ErrorKind::TimedOut
}

/// Waits until a descriptor is ready for one of these events, but no longer than that many milliseconds, and 24 days. It may
/// return sooner.
fn wait_for(fd: i32, events: i16, millis: u64) {
    let mut asked = [pollfd {
        fd,
        events,
        revents: 0,
    }];
    let millis = i32::try_from(millis).unwrap_or(i32::MAX);
    let _ready = c::poll(&mut asked, millis);
}

/// Waits that many milliseconds, and for no descriptor.
pub(crate) fn wait_out<R: Wait>(_rt: &R, millis: u64) {
    wait_for(-1, 0, millis);
}

/// Waits until there is something to read, or to accept, but no longer than that many milliseconds.
pub(crate) fn wait_to_read<R: Wait, S: AsRawFd>(_rt: &R, socket: &S, millis: u64) {
    wait_for(socket.as_raw_fd(), c::POLLIN, millis);
}

/// Waits until there is room to write, and for that alone, but no longer than that many milliseconds.
pub(crate) fn wait_for_room<R: Wait, S: AsRawFd>(_rt: &R, socket: &S, millis: u64) {
    wait_for(socket.as_raw_fd(), c::POLLOUT, millis);
}
