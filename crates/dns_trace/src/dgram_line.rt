//! The line that configures the datagram server.

ghost use Rattle.std.specs.Prelude.{◌≡◌, ◌<◌};
ghost use Rattle.dns_trace.specs.DgramLine.{dgram_line, dgram_values};

use crate::reason::Reason;
use crate::values::{num, size};
use crate::words::Words;
use dns_events::DgramConfig;

/// The configuration `SIZE WRITE` from a word on, each limited to its range: a size in octets and a time in milliseconds.
#[tactic(auto, unfolding(crate::specs::DgramLine::dgram_values))]
pub(crate) fn dgram_values(words: &Words, from: usize) -> Result<DgramConfig, Reason>
    requires { from < 16 }
    ensures { result ≡ dgram_values words.now from }
{
    let size = size(words.word(from))?;
    let write = num(words.word(from + 1))?;
    let mut dgram = DgramConfig::new();
    dgram.set_max_response_size(size);
    dgram.set_write_timeout(write);
    Ok(dgram)
}

/// The configuration of a line `dgram SIZE WRITE`. The first word is not looked at.
#[tactic(auto, unfolding(crate::specs::DgramLine::dgram_line))]
pub fn read_dgram(words: &Words) -> Result<DgramConfig, Reason>
    ensures { result ≡ dgram_line words.now }
{
    if words.len() != 3 {
        return Err(Reason::Count);
    }
    dgram_values(words, 1)
}
