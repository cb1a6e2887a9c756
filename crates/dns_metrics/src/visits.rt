//! Connections of those who ask for pages.

use crate::page::{Measured, Pages};
use http_server::Connection;
use mio::net::TcpStream;
use std::alloc::{AllocError, Global};
use std::io::{self, ErrorKind};

/// How many connections there are at most.
const MOST: usize = 8;

/// How often a connection is read and written in a row.
const TURNS: usize = 64;

/// A connection, and from which second on it is closed whatever came.
#[derive(Drop)]
pub(crate) struct Visit {
    pub(crate) stream: TcpStream,
    pub(crate) connection: Connection,
    pub(crate) until: u64,
}

impl Visit {
    /// Writes what is to be written, or reads.
    fn exchange(&mut self) -> io::Result<()> {
        if !self.connection.wants_write() {
            self.connection.read_from(&mut self.stream)?;
            return Ok(());
        }
        match self.connection.write_to(&mut self.stream)? {
            0 => Err(io::Error::from(ErrorKind::WriteZero)),
            _ => Ok(()),
        }
    }

    /// Goes on until it would have to wait. Whether it has ended, or has failed, is given.
    fn go_on<M: Measured>(&mut self, pages: &mut Pages<'_, M>) -> bool {
        for _ in 0..TURNS {
            self.connection.advance(pages);
            if self.connection.is_done() {
                return true;
            }
            if let Err(error) = self.exchange() {
                return error.kind() != ErrorKind::WouldBlock;
            }
        }
        true
    }
}

/// The connections, each at its number.
#[derive(Drop)]
pub(crate) struct Visits {
    kept: Vec<Option<Visit>>,
}

impl Visits {
    /// Without connections.
    pub(crate) fn new(alloc: Global) -> Result<Visits, AllocError> {
        let mut kept = Vec::new(alloc);
        for _ in 0..MOST {
            kept.push(None)?;
        }
        Ok(Visits { kept })
    }

    /// The number of a connection that isn't there, if there may be one more.
    pub(crate) fn free_number(&self) -> Option<usize> {
        self.kept.iter().position(|kept| kept.is_none())
    }

    /// Whether there is no connection.
    pub(crate) fn is_empty(&self) -> bool {
        self.kept.iter().position(|kept| kept.is_some()).is_none()
    }

    /// Keeps a connection at a number.
    pub(crate) fn keep(&mut self, number: usize, visit: Visit) {
        if let Some(kept) = self.kept.get_mut(number) {
            *kept = Some(visit);
        }
    }

    /// Goes on with the connection of a number. One that has ended is closed.
    pub(crate) fn go_on<M: Measured>(&mut self, number: usize, pages: &mut Pages<'_, M>) {
        let has_ended = match self.kept.get_mut(number) {
            Some(Some(visit)) => visit.go_on(pages),
            _ => false,
        };
        if has_ended {
            self.close(number);
        }
    }

    /// Closes the connection of a number.
    fn close(&mut self, number: usize) {
        if let Some(kept) = self.kept.get_mut(number) {
            *kept = None;
        }
    }

    /// Whether the connection of a number took too long.
    fn is_late(&self, number: usize, now: u64) -> bool {
        match self.kept.get(number) {
            Some(Some(visit)) => visit.until <= now,
            _ => false,
        }
    }

    /// Closes each that took too long.
    pub(crate) fn close_late(&mut self, now: u64) {
        for number in 0..self.kept.len() {
            if self.is_late(number, now) {
                self.close(number);
            }
        }
    }
}
