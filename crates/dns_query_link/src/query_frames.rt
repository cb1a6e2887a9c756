//! The frames of a stream without responses.

ghost use Rattle.std.specs.Prelude.{◌≡◌, ◌≤◌, ◌<◌, ◌-◌, ◌^◌, ◌++◌, ◌==◌, [], length, min, take, if◌then◌else◌, IfOk, OnOk, OnErr};
ghost use Rattle.dns_query_link.specs.Frames.{behind_frames, framed};
ghost use Rattle.dns_query_sock.specs.Queries.{is_response};
ghost use Rattle.dns_query_link.specs.QueryFrames.{AreOctets, is_query, nothing_held, passed_on, responses, with_piece};

use dns_framing::Framer;
use dns_name::OutOfMemory;
use dns_query_sock::is_response;
use std::alloc::Global;
use std::marker::Model;

/// What came of a stream: octets that are in no whole frame yet, and octets of queries that wait to be read.
#[derive(Drop)]
pub struct QueryFrames {
    framer: Framer,
    // Those before `at` were read.
    waiting: Vec<u8>,
    at: usize,
}

impl Model for QueryFrames {
    ghost use Rattle.std.specs.Prelude.{drop, length, ◌≤◌};
    ghost use Rattle.dns_query_link.specs.QueryFrames.{AreOctets, Buffered};

    ghost Value = { Buffered };

    ghost view = { λ f. record { kept = f.framer; waiting = drop f.at f.waiting.items } };

    ghost invariant = { λ f. (f.at ≤ length f.waiting.items) × AreOctets f.framer };
}

/// Appends a message after its length to the octets that wait, if it is a query. How many responses are dropped with it: one or none.
fn pass_on(message: &[u8], waiting: &mut Vec<u8>) -> Result<u64, OutOfMemory>
    requires { length message.now < 65536 }
    ensures dropped { IfOk result (λ n. n ≡ (if is_response message.now then 1 else 0)) }
    ensures given { OnOk result
        (waiting.new.items ≡ waiting.old.items ++ (if is_query message.now then framed message.now else [])) }
    ensures grows { length waiting.old.items ≤ length waiting.new.items }
{
    if is_response(message) {
        return Ok(1);
    }
    let size = message.len();
    waiting.extend_from_slice(&[(size / 256) as u8, (size % 256) as u8])?;
    waiting.extend_from_slice(message)?;
    Ok(0)
}

/// Takes each whole frame, and appends those of queries to the octets that wait. How many responses were dropped.
fn sift(alloc: Global, framer: &mut Framer, waiting: &mut Vec<u8>) -> Result<u64, OutOfMemory>
    requires { AreOctets framer.old }
    ensures left { OnOk result (framer.new ≡ behind_frames framer.old) }
    ensures given { OnOk result (waiting.new.items ≡ waiting.old.items ++ passed_on framer.old) }
    ensures dropped { IfOk result (λ n. n ≡ min (responses framer.old) (2 ^ 64 - 1)) }
    ensures octets { AreOctets framer.new }
    ensures grows { length waiting.old.items ≤ length waiting.new.items }
{
    let mut dropped: u64 = 0;
    'each: while let Some(message) = framer.next(alloc)? {
        dropped = dropped.saturating_add(pass_on(message.as_slice(), waiting)?);
    }
    Ok(dropped)
}

impl QueryFrames {
    /// Nothing came yet. No memory is taken before the first piece.
    pub fn new(alloc: Global) -> QueryFrames
        ensures { result ≡ nothing_held }
    {
        QueryFrames {
            framer: Framer::new(alloc),
            waiting: Vec::new(alloc),
            at: 0,
        }
    }

    /// Whether no octet waits to be read.
    pub fn is_empty(&self) -> bool
        ensures { result ≡ (length self.now.waiting == 0) }
    {
        self.waiting[self.at..].is_empty()
    }

    /// Lets go of the octets that were read, once they are more than half.
    fn let_go(&mut self, alloc: Global) -> Result<(), OutOfMemory>
        ensures { self.new ≡ self.old }
    {
        if self.at > self.waiting.len() / 2 {
            self.waiting = Vec::from_slice(alloc, &self.waiting[self.at..])?;
            self.at = 0;
        }
        Ok(())
    }

    /// Takes a piece of the stream, and gives how many responses were dropped, as long as there is memory.
    fn sift(&mut self, alloc: Global, piece: &[u8]) -> Result<u64, OutOfMemory>
        ensures held { OnOk result (self.new ≡ with_piece piece.now self.old) }
        ensures dropped { IfOk result (λ n. n ≡ min (responses (self.old.kept ++ piece.now)) (2 ^ 64 - 1)) }
    {
        self.let_go(alloc)?;
        self.framer.feed(alloc, piece)?;
        sift(alloc, &mut self.framer, &mut self.waiting)
    }

    /// Takes a piece of the stream: the queries that it makes whole wait to be read after the others. How many responses were
    /// dropped is given. Without memory all is let go, also what waits.
    pub fn feed(&mut self, alloc: Global, piece: &[u8]) -> Result<u64, OutOfMemory>
        ensures held { OnOk result (self.new ≡ with_piece piece.now self.old) }
        ensures dropped { IfOk result (λ n. n ≡ min (responses (self.old.kept ++ piece.now)) (2 ^ 64 - 1)) }
        ensures err { OnErr result (self.new ≡ nothing_held) }
    {
        let dropped = self.sift(alloc, piece);
        if dropped.is_err() {
            *self = QueryFrames::new(alloc);
        }
        dropped
    }

    /// Moves octets that wait to the front of a buffer. How many there are is given.
    pub fn take(&mut self, buf: &mut [u8]) -> usize
        ensures count { result ≡ min (length self.old.waiting) (length buf.old) }
        ensures moved { self.old.waiting ≡ take result buf.new ++ self.new.waiting }
        ensures kept { self.new.kept ≡ self.old.kept }
    {
        let left = &self.waiting[self.at..];
        let count = left.len().min(buf.len());
        buf[..count].copy_from_slice(&left[..count]);
        self.at += count;
        count
    }
}
