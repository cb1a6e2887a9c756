//! Frames that pass, counted.

ghost use Rattle.std.specs.Prelude.{◌≡◌, ◌≤◌, ◌<◌, length};

/// How far a stream of octets has come: within the length of a frame, or within its message.
#[derive(Clone, Copy, Debug)]
pub(crate) struct FrameCount {
    // The first octet of a length, whose second one is still to come.
    high: Option<u8>,
    // How many octets of the message are still to come.
    left: usize,
}

impl FrameCount {
    /// At the beginning of the stream.
    pub(crate) const fn new() -> FrameCount {
        FrameCount {
            high: None,
            left: 0,
        }
    }

    /// Passes over octets, and says how many frames end in them. The messages are passed over whole.
    pub(crate) fn pass(&mut self, octets: &[u8]) -> usize
        ensures { result ≤ length octets.now }
    {
        let mut ended = 0usize;
        let mut at = 0usize;
        while at < octets.len() {
            let (passed, ends) = self.part(&octets[at..]);
            at += passed;
            if ends {
                ended += 1;
            }
        }
        ended
    }

    // Passes over the front of octets up to the next half of a length or end of a message. How many octets these are, and
    // whether a frame ends with them.
    fn part(&mut self, octets: &[u8]) -> (usize, bool)
        requires { 0 < length octets.now }
        ensures some { 0 < result.0 }
        ensures within { result.0 ≤ length octets.now }
    {
        if self.left > 0 {
            let passed = self.left.min(octets.len());
            self.left -= passed;
            return (passed, self.left == 0);
        }
        match self.high {
            None => {
                self.high = Some(octets[0]);
                (1, false)
            }
            Some(high) => {
                self.high = None;
                self.left = usize::from(high) * 256 + usize::from(octets[0]);
                (1, self.left == 0)
            }
        }
    }
}
