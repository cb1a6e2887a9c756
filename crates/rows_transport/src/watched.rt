//! An accept object that keeps which calls were made of it.

ghost use Rattle.std.specs.Prelude.{◌≡◌, ◌≤◌};
ghost use Rattle.dns_outside.specs.Causes.{Observed};

use dns_outside::{AcceptAnswer, AsyncAccept};
use std::sync::Wait;

/// An accept object, and a letter for each call: `a` for an accept that brought a connection, `A` for one that answered Again, `F`
/// for one that failed. `z` for a wait, and `0` for one of no time.
#[derive(Drop)]
pub struct WatchedAccept<A> {
    /// What is asked.
    pub inner: A,
    /// The letters of the calls.
    pub calls: Vec<u8>,
}

impl<A: AsyncAccept> AsyncAccept for WatchedAccept<A> {
    type Link = A::Link;

    ghost tells = { λ w. A.tells w.inner };

    ghost accept_traffic = { λ w. A.accept_traffic w.inner };

    ghost faults = { λ w. A.faults w.inner };

    fn poll_accept(&mut self) -> AcceptAnswer<A::Link> {
        let answer = self.inner.poll_accept();
        let letter = match &answer {
            AcceptAnswer::Accepted(..) => b'a',
            AcceptAnswer::Again => b'A',
            AcceptAnswer::Failed => b'F',
        };
        let _ = self.calls.push(letter);
        answer
    }

    fn wait<R: Wait>(&mut self, rt: &R, millis: u64) {
        self.inner.wait(rt, millis);
        let letter = if millis == 0 { b'0' } else { b'z' };
        let _ = self.calls.push(letter);
    }
}
