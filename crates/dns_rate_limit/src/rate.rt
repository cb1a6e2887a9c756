//! Rates and verdicts.

/// How many responses of one kind a client may be sent.
#[derive(Clone, Copy)]
pub struct Rate {
    /// How many responses a second are sent whole; 0 for none.
    pub per_second: u16,
    /// How many seconds longer a client may stay limited, however much it asked: past that many seconds without a response
    /// it is limited no more.
    pub window: u16,
    /// Of that many limited responses one is sent truncated, so that a client may ask again over TCP; 0 for none.
    pub slip: u8,
}

/// What is done with a response.
#[derive(Clone, Copy)]
pub enum Verdict {
    /// It is sent.
    Whole,
    /// Its header with TC is sent in its place, with the question.
    Truncated,
    /// Nothing is sent.
    Dropped,
}
