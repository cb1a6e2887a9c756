//! Notes that threads share.

use crossbeam_queue::ArrayQueue;
use dns_base::{OutOfMemory, Rcode};
use dns_name::{Name, SocketAddr};
use std::alloc::Global;
use std::sync::Wait;
use std::sync::atomic::{AtomicU64, Ordering};

/// How many notes wait at most.
const MOST_WAITING: usize = 256;

/// What became of a question for a transfer, of a NOTIFY or of a query for the SOA record.
#[derive(Clone, Copy)]
pub enum TransferNews {
    /// The first reply is one of a transfer.
    Begun,
    /// The last reply was given.
    Ended,
    /// Its connection ended before the last reply was given.
    BrokenOff,
    /// The first reply has another response code than NOERROR.
    Refused(Rcode),
    /// The reply to a NOTIFY has another response code than NOERROR.
    NotifyRefused(Rcode),
    /// The reply to a query for the SOA record is NOTAUTH: its signature isn't taken.
    SoaRefused,
}

impl TransferNews {
    /// Whether a datagram may lead to it.
    fn is_of_datagram(self) -> bool {
        matches!(
            self,
            TransferNews::NotifyRefused(_) | TransferNews::SoaRefused
        )
    }
}

/// What became of a question for a transfer, of a NOTIFY or of a query for the SOA record, and who asked it.
#[derive(Drop)]
pub struct TransferNote {
    pub apex: Name,
    pub client: SocketAddr,
    pub news: TransferNews,
}

/// Notes that wait to be taken out, and how many transfers began and were refused. Past 2^64 - 1 a count begins anew.
#[derive(Drop)]
pub struct TransferNotes {
    waiting: ArrayQueue<TransferNote>,
    begun: AtomicU64,
    refused: AtomicU64,
}

impl TransferNotes {
    /// No note yet.
    pub fn new(alloc: Global) -> Result<TransferNotes, OutOfMemory> {
        let waiting = ArrayQueue::new(alloc, MOST_WAITING)?;
        Ok(TransferNotes {
            waiting,
            begun: AtomicU64::new(0),
            refused: AtomicU64::new(0),
        })
    }

    /// Counts what is noted.
    fn count(&self, news: TransferNews) {
        let _ = match news {
            TransferNews::Begun => self.begun.fetch_add(1, Ordering::SeqCst),
            TransferNews::Refused(_) => self.refused.fetch_add(1, Ordering::SeqCst),
            TransferNews::Ended | TransferNews::BrokenOff => 0,
            TransferNews::NotifyRefused(_) | TransferNews::SoaRefused => 0,
        };
    }

    /// Puts a note after the others, and counts it. One that a datagram may lead to is put if no other waits, since whoever sends
    /// a datagram need not have shown its address.
    pub(crate) fn put<R: Wait>(&self, rt: &R, note: TransferNote) {
        self.count(note.news);
        if note.news.is_of_datagram() && self.waiting.len(rt) != 0 {
            return;
        }
        let _ = self.waiting.push(rt, note);
    }

    /// Takes the first note out.
    pub fn next<R: Wait>(&self, rt: &R) -> Option<TransferNote> {
        self.waiting.pop(rt)
    }

    /// How many transfers began.
    pub fn begun(&self) -> u64 {
        self.begun.load(Ordering::SeqCst)
    }

    /// How many transfers were refused.
    pub fn refused(&self) -> u64 {
        self.refused.load(Ordering::SeqCst)
    }
}
