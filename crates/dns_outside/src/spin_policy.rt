//! Whether the next datagram comes soon.

ghost use Rattle.std.specs.Prelude.{◌≡◌, ◌+◌, if◌then◌else◌, min, max};

/// How many waits in a row may be begun in vain by asking.
const WORTHWHILE: u32 = 8;

/// After those, about one wait in that many is begun by asking.
const SELDOM: u32 = 64;

/// Whether it is worthwhile to ask a socket again and again for a moment before the system waits for it. To sleep and to be woken
/// is dearer than that moment if the next datagram comes within it; so it is asked as long as one of the last few waits ended
/// by asking, and now and then after that.
#[derive(Drop)]
pub(crate) struct SpinPolicy {
    // How many waits there were since one ended by asking.
    vain: u32,
}

impl SpinPolicy {
    /// A policy that was asked nothing yet.
    pub(crate) fn new() -> SpinPolicy
        ensures { result ≡ record { vain = WORTHWHILE } }
    {
        SpinPolicy { vain: WORTHWHILE }
    }

    /// Whether the wait that begins now is begun by asking.
    pub(crate) fn is_worthwhile(&mut self) -> bool {
        if self.vain < WORTHWHILE {
            return true;
        }
        self.vain = if self.vain < SELDOM {
            self.vain + 1
        } else {
            WORTHWHILE
        };
        self.vain == SELDOM
    }

    /// Whether asking ended this wait.
    pub(crate) fn learn(&mut self, is_there: bool)
        ensures { self.new.vain ≡ (if is_there then 0 else min (self.old.vain + 1) (max self.old.vain WORTHWHILE)) }
    {
        if is_there {
            self.vain = 0;
        } else if self.vain < WORTHWHILE {
            self.vain += 1;
        }
    }
}
