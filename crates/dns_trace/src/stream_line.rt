//! The line that configures the stream server.

ghost use Rattle.std.specs.Prelude.{◌≡◌, ◌<◌};
ghost use Rattle.dns_trace.specs.StreamLine.{configured, stream_line, stream_values};

use crate::reason::Reason;
use crate::values::{num, yes_no};
use crate::words::Words;
use dns_events::{ConnectionConfig, StreamConfig};

/// The configuration of these numbers, each limited to its range. The first two are in milliseconds.
fn configure(idle: u64, write: u64, queue: u64, limit: u64, accepts: bool) -> StreamConfig
    ensures { result ≡ configured idle write queue limit accepts }
{
    let mut connection = ConnectionConfig::new();
    connection.set_idle_timeout(idle);
    connection.set_response_write_timeout(write);
    connection.set_max_queued_responses(queue as usize);
    let mut stream = StreamConfig::new();
    stream.set_accept_connections_at_max(accepts);
    stream.set_max_concurrent_connections(limit as usize);
    stream.set_connection_config(connection);
    stream
}

/// The configuration `IDLE WRITE QUEUE LIMIT yes|no` from a word on.
#[tactic(auto, unfolding(crate::specs::StreamLine::stream_values, crate::specs::StreamLine::timeouts_of))]
pub(crate) fn stream_values(words: &Words, from: usize) -> Result<StreamConfig, Reason>
    requires { from < 16 }
    ensures { result ≡ stream_values words.now from }
{
    let idle = num(words.word(from))?;
    let write = num(words.word(from + 1))?;
    let queue = num(words.word(from + 2))?;
    let limit = num(words.word(from + 3))?;
    let accepts = yes_no(words.word(from + 4))?;
    Ok(configure(idle, write, queue, limit, accepts))
}

/// The configuration of a line `stream IDLE WRITE QUEUE LIMIT yes|no`. The first word is not looked at.
#[tactic(auto, unfolding(crate::specs::StreamLine::stream_line))]
pub fn read_stream(words: &Words) -> Result<StreamConfig, Reason>
    ensures { result ≡ stream_line words.now }
{
    if words.len() != 6 {
        return Err(Reason::Count);
    }
    stream_values(words, 1)
}
