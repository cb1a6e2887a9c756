//! The words by which a server is started.

ghost use Rattle.std.specs.Prelude.{◌≡◌, length, map, string_bytes};
ghost use Rattle.dns_trace.specs.Reading.{GivesLine};
ghost use Rattle.dns_run.specs.ServeWords.{place_of, serve_words, ReadsServe};

use crate::status::Status;
use dns_name::SocketAddr;
use dns_trace::{LineError, addr, num, port};
use std::alloc::Global;

/// What `serve ADDR PORT COUNT` asks for.
#[derive(Clone, Copy)]
pub struct ServeWords {
    /// Where datagrams and connections come in.
    pub addr: SocketAddr,
    /// After how many connections and how many datagrams the server ends, or 0 for no end.
    pub count: u64,
}

/// ADDR PORT COUNT, after the word.
#[tactic(auto, unfolding(crate::specs::ServeWords::place_of))]
fn place(alloc: Global, words: &[String]) -> Result<ServeWords, LineError>
    requires { length words.now ≡ 4 }
    ensures { GivesLine (λ w. w) result (place_of (map string_bytes words.now)) }
{
    let ip = addr(alloc, words[1].as_bytes())?;
    let port = port(words[2].as_bytes())?;
    let count = num(words[3].as_bytes())?;
    Ok(ServeWords {
        addr: SocketAddr { ip, port },
        count,
    })
}

/// What the words, without the program's name, ask for.
pub fn read_serve(alloc: Global, words: &[String]) -> Result<ServeWords, Status>
    ensures { ReadsServe result (serve_words (map string_bytes words.now)) }
{
    if words.len() != 4 || words[0].as_str() != "serve" {
        return Err(Status::Usage);
    }
    match place(alloc, words) {
        Ok(place) => Ok(place),
        Err(LineError::OutOfMemory) => Err(Status::OutOfMemory),
        Err(LineError::Refused(_)) => Err(Status::Usage),
    }
}
