//! Connections: to an upstream, over which one query is asked again; and of a client.

use dns_framing::Framer;
use dns_name::Octets;
use mio::net::TcpStream;
use mio::{Interest, Registry, Token};
use std::alloc::Global;
use std::io;
use std::io::{ErrorKind, Read, Write};
use std::net::{Net, SocketAddr};

/// How many octets are read at a time.
const PIECE: usize = 4096;

/// How often a connection is read in a row.
const READS: u32 = 64;

/// A connection, what is still to be written, and what was read.
#[derive(Drop)]
pub(crate) struct Connection {
    stream: TcpStream,
    unwritten: Vec<u8>,
    framer: Framer,
}

/// What a connection gives.
#[derive(Drop)]
pub(crate) enum Got {
    /// A whole message.
    Frame(Octets),
    /// Nothing yet.
    Nothing,
    /// The connection could not be opened, was closed, or failed.
    Lost,
}

/// Whether a call is to be made again later.
fn is_again(error: &io::Error) -> bool {
    matches!(
        error.kind(),
        ErrorKind::WouldBlock | ErrorKind::Interrupted | ErrorKind::NotConnected
    )
}

impl Connection {
    /// A connection over a stream.
    fn over(alloc: Global, stream: TcpStream) -> Connection {
        Connection {
            stream,
            unwritten: Vec::new(alloc),
            framer: Framer::new(alloc),
        }
    }

    /// A connection that was accepted, which is reported under a token.
    pub(crate) fn accepted(
        alloc: Global,
        registry: &Registry,
        token: Token,
        stream: TcpStream,
    ) -> io::Result<Connection> {
        let mut stream = stream;
        registry.register(&mut stream, token, Interest::READABLE | Interest::WRITABLE)?;
        Ok(Connection::over(alloc, stream))
    }

    /// A connection to a server that is being opened, on which a message is to be written.
    pub(crate) fn open<N: Net>(
        net: &N,
        alloc: Global,
        registry: &Registry,
        token: Token,
        server: SocketAddr,
        message: &Octets,
    ) -> io::Result<Connection> {
        let stream = TcpStream::connect(net, server)?;
        let mut connection = Connection::accepted(alloc, registry, token, stream)?;
        connection.queue(message)?;
        Ok(connection)
    }

    /// The stream.
    pub(crate) fn stream(&mut self) -> &mut TcpStream {
        &mut self.stream
    }

    /// How many octets are still to be written.
    pub(crate) fn unwritten(&self) -> usize {
        self.unwritten.len()
    }

    /// A message is to be written, after its length (RFC 1035, section 4.2.2). If this is refused the connection isn't to be used.
    pub(crate) fn queue(&mut self, message: &Octets) -> io::Result<()> {
        let octets = message.as_slice();
        let Ok(length) = u16::try_from(octets.len()) else {
            return Err(io::Error::from(ErrorKind::InvalidInput));
        };
        self.unwritten.extend_from_slice(&length.to_be_bytes())?;
        self.unwritten.extend_from_slice(octets)?;
        Ok(())
    }

    /// Writes what is still to be written, as far as there is room.
    pub(crate) fn write(&mut self, alloc: Global) -> io::Result<()> {
        if self.unwritten.is_empty() {
            return Ok(());
        }
        match self.stream.write(self.unwritten.as_slice()) {
            Ok(count) => {
                let rest = self.unwritten.get(count..).unwrap_or(&[]);
                self.unwritten = Vec::from_slice(alloc, rest)?;
                Ok(())
            }
            Err(error) if is_again(&error) => Ok(()),
            Err(error) => Err(error),
        }
    }

    /// Reads what came, until the first whole message.
    pub(crate) fn read(&mut self, alloc: Global) -> io::Result<Got> {
        let mut piece = [0u8; PIECE];
        for _ in 0..READS {
            match self.framer.next(alloc) {
                Ok(Some(frame)) => return Ok(Got::Frame(Octets::from_vec(frame))),
                Ok(None) => {}
                Err(_) => return Ok(Got::Lost),
            }
            match self.stream.read(&mut piece) {
                Ok(0) => return Ok(Got::Lost),
                Ok(count) => {
                    let got = piece.get(..count).unwrap_or(&[]);
                    if self.framer.feed(alloc, got).is_err() {
                        return Ok(Got::Lost);
                    }
                }
                Err(error) if is_again(&error) => return Ok(Got::Nothing),
                Err(error) => return Err(error),
            }
        }
        Ok(Got::Lost)
    }

    /// Writes and reads.
    pub(crate) fn go_on(&mut self, alloc: Global) -> Got {
        match self.write(alloc) {
            Ok(()) => self.read(alloc).unwrap_or(Got::Lost),
            Err(_) => Got::Lost,
        }
    }
}
