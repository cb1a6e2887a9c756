//! A link at whose wait the book is shut down.

ghost use Rattle.std.specs.Prelude.{◌≡◌};

use dns_book::{Book, BookSeat};
use dns_memory::{Link, LinkRead, LinkWrite};
use dns_service::{DgramConfig, StreamConfig};
use std::sync::Wait;

/// A link over another. If it halts, it takes ten octets a write at most. At each of its waits the book gets other configurations
/// and is shut down. It tells nothing.
#[derive(Drop)]
pub struct Halting<'a, L> {
    pub link: &'a mut L,
    pub book: &'a Book,
    pub seat: BookSeat,
    pub halts: bool,
    ghost of_book: { seat.book ≡ book.now },
}

impl<L: Link> Link for Halting<'_, L> {
    ghost tells = { λ _. ⊥ };

    ghost traffic = { λ h. L.traffic h.link.now };

    ghost faults = { λ h. L.faults h.link.now };

    fn read(&mut self, buf: &mut [u8]) -> LinkRead {
        self.link.read(buf)
    }

    fn write(&mut self, piece: &[u8]) -> LinkWrite {
        let most = if self.halts { 10 } else { piece.len() };
        self.link.write(&piece[..piece.len().min(most)])
    }

    fn wait<R: Wait>(&mut self, rt: &R, millis: u64) {
        self.link.wait(rt, millis);
        if self.halts {
            let (dgram, stream) = (DgramConfig::new(), StreamConfig::new());
            let _ = self.book.reconfigure(rt, &mut self.seat, dgram, stream);
            self.book.shutdown(rt, &mut self.seat);
        }
    }

    fn close(&mut self) {
        self.link.close()
    }
}
