//! How long waits last, which grow while nothing comes and nothing is done.

ghost use Rattle.std.specs.Prelude.{◌≡◌};
ghost use Rattle.dns_recorder.specs.Waits.{anew_where, one_more, idle_wait_after, repoll_wait_after, vain_after};

use dns_events::EventKind;

/// How many waits of a loop ended in vain, one after the other: nothing came meanwhile, and nothing was sent or written.
#[derive(Clone, Copy, Debug)]
pub struct Waits {
    vain: u32,
}

impl Waits {
    /// A count of no waits in vain.
    pub fn new() -> Waits
        ensures { result ≡ record { vain = 0 } }
    {
        Waits { vain: 0 }
    }

    /// One wait more ended in vain.
    pub fn one_more(self) -> Waits
        ensures { result.vain ≡ one_more self.vain }
    {
        Waits {
            vain: self.vain.saturating_add(1),
        }
    }

    /// The count starts anew if something came or went, and else stays.
    pub fn anew_where(self, moved: bool) -> Waits
        ensures { result.vain ≡ anew_where moved self.vain }
    {
        if moved { Waits::new() } else { self }
    }

    /// What an event of a connection's own makes of it: a Tick is one wait more in vain, a Turn leaves it, and what came or was
    /// written begins anew.
    pub fn after(self, kind: &EventKind) -> Waits
        ensures { result.vain ≡ vain_after kind.now self.vain }
    {
        match kind {
            EventKind::Tick => self.one_more(),
            EventKind::Turn { .. } => self,
            _ => Waits::new(),
        }
    }

    /// How long the next wait lasts at most, in ms, if a request is to be polled again: 1, and twice as long after each wait in
    /// vain, up to 16.
    pub fn repoll_wait(self) -> u64
        ensures { result ≡ repoll_wait_after self.vain }
    {
        if self.vain < 1 {
            1
        } else if self.vain < 2 {
            2
        } else if self.vain < 3 {
            4
        } else if self.vain < 4 {
            8
        } else {
            16
        }
    }

    /// How long the next wait lasts at most, in ms, if nothing is to be done: 250, then 1,000 after 16 waits in vain, and 4,000
    /// after 32.
    pub fn idle_wait(self) -> u64
        ensures { result ≡ idle_wait_after self.vain }
    {
        if self.vain < 16 {
            250
        } else if self.vain < 32 {
            1_000
        } else {
            4_000
        }
    }
}
