//! A TCP connection over `mio`.

ghost use Rattle.std.specs.Prelude.{◌≡◌, ◌≤◌, [], IfOk};
ghost use Rattle.dns_outside.specs.Causes.{Rose};

use crate::waiting::{is_again, is_read_again, wait_for_room, wait_to_read};
use dns_io::{Link, LinkRead, LinkWrite};
use mio::net::TcpStream;
use std::io;
use std::io::{Read, Write};
use std::net::Shutdown;
use std::sync::Wait;

/// A TCP connection, which tells nothing and counts its failed calls. A call that was interrupted, and a read that took too long,
/// answer Again. Every other error of the stream is a failed call, and so is a write that takes nothing of a piece that is not empty.
/// A wait is for room if the last write answered Again, and else for something to read. Closing ends the connection both ways
/// and closes its descriptor. What is read or written after that is a failed call.
#[derive(Drop)]
pub struct MioLink {
    // None once it was closed.
    stream: Option<TcpStream>,
    // Whether a write answered Again since the last wait.
    full: bool,
    faults: u64,
}

impl MioLink {
    /// A link over a stream that is connected, which is set to send without delay.
    pub fn new(stream: TcpStream) -> io::Result<MioLink>
        ensures { IfOk result (λ link. ⟦<MioLink as Link>⟧.faults link ≡ 0) }
    {
        stream.set_nodelay(true)?;
        Ok(MioLink {
            stream: Some(stream),
            full: false,
            faults: 0,
        })
    }

    /// Counts a failed call.
    fn count_fault(&mut self)
        ensures later { self.old.faults ≤ self.new.faults }
        ensures rose { Rose self.old.faults self.new.faults }
    {
        self.faults = self.faults.saturating_add(1);
    }
}

impl Link for MioLink {
    ghost tells = { λ _. ⊥ };

    ghost traffic = { λ _. record { came = []; went = []; ends = 0; empty_reads = 0; full_writes = 0 } };

    ghost faults = { λ s. s.faults };

    fn read(&mut self, buf: &mut [u8]) -> LinkRead {
        let Some(stream) = &mut self.stream else {
            self.count_fault();
            return LinkRead::Failed;
        };
        match stream.read(buf) {
            Ok(0) if !buf.is_empty() => LinkRead::End,
            Ok(count) => LinkRead::Got(count),
            Err(error) if is_read_again(&error) => LinkRead::Again,
            Err(_) => {
                self.count_fault();
                LinkRead::Failed
            }
        }
    }

    fn write(&mut self, piece: &[u8]) -> LinkWrite {
        let Some(stream) = &mut self.stream else {
            self.count_fault();
            return LinkWrite::Failed;
        };
        match stream.write(piece) {
            Ok(count) if count > 0 || piece.is_empty() => LinkWrite::Took(count),
            Err(error) if is_again(&error) => {
                self.full = true;
                LinkWrite::Again
            }
            _ => {
                self.count_fault();
                LinkWrite::Failed
            }
        }
    }

    fn wait<R: Wait>(&mut self, rt: &R, millis: u64) {
        let Some(stream) = &self.stream else {
            return;
        };
        if self.full {
            wait_for_room(rt, stream, millis);
        } else {
            wait_to_read(rt, stream, millis);
        }
        self.full = false;
    }

    fn close(&mut self) {
        if let Some(stream) = self.stream.take() {
            let _ = stream.shutdown(Shutdown::Both);
        }
    }
}
