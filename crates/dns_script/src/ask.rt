//! The lines of questions that a cache is asked.

ghost use Rattle.std.specs.Prelude.{◌≡◌, IfOk};
ghost use Rattle.dns_trace.specs.Reading.{GivesLine};
ghost use Rattle.dns_script.specs.Asks.{ask_line, ask_of, is_of_asks, message_word};
ghost use Rattle.dns_script.specs.CachedRules.{request_of_ask};

use crate::script_line::ScriptLine;
use dns_base::Message;
use dns_name::{OutOfMemory, SocketAddr};
use dns_service::{Request, TransportSpecificContext, UdpTransportContext};
use dns_trace::{LineError, Reason, Words, addr, num, octets, port, unless};
use std::alloc::Global;

/// A question that came in a datagram from an address, at a moment in ms and seconds.
#[derive(Drop)]
pub struct Ask {
    pub at: u64,
    pub secs: u64,
    pub addr: SocketAddr,
    pub message: Message,
}

impl Ask {
    /// The request of this question, which has all octets of the message.
    pub fn into_request(self, alloc: Global) -> Result<Request<()>, OutOfMemory>
        ensures { IfOk result (λ r. r ≡ request_of_ask self) }
    {
        let Ask {
            at,
            secs,
            addr,
            message,
        } = self;
        let transport = TransportSpecificContext::Udp(UdpTransportContext::new(None));
        Request::new(alloc, addr, at, secs, message, transport, ())
    }
}

/// A message of at least 12 octets.
#[tactic(auto, unfolding(crate::specs::Asks::message_word))]
fn message(alloc: Global, word: &[u8]) -> Result<Message, LineError>
    ensures { GivesLine (λ m. m) result (message_word word.now) }
{
    let octets = octets(alloc, word)?;
    match Message::from_octets(octets.into_vec()) {
        Ok(message) => Ok(message),
        Err(_) => Err(LineError::Refused(Reason::Value)),
    }
}

/// The question of a line `ask AT SECS ADDR PORT HEX`. The first word is not looked at.
#[tactic(auto, unfolding(crate::specs::Asks::ask_of, crate::specs::Asks::asker_of, dns_trace::specs::EventLines::moment_of))]
fn ask_of(alloc: Global, words: &Words) -> Result<Ask, LineError>
    ensures { GivesLine (λ a. a) result (ask_of words.now) }
{
    unless(Reason::Count, words.len() == 6)?;
    let at = num(words.word(1))?;
    let secs = num(words.word(2))?;
    let ip = addr(alloc, words.word(3))?;
    let port = port(words.word(4))?;
    let message = message(alloc, words.word(5))?;
    Ok(Ask {
        at,
        secs,
        addr: SocketAddr { ip, port },
        message,
    })
}

impl ScriptLine for Ask {
    ghost has = { is_of_asks };

    ghost reading = { ask_line };

    fn has(first: &[u8]) -> bool {
        first == b"rule".as_slice()
    }

    #[tactic(auto, unfolding(crate::specs::Asks::ask_line))]
    fn read(alloc: Global, words: &Words) -> Result<Self, LineError> {
        if words.word(0) != b"ask".as_slice() {
            return Err(LineError::Refused(Reason::Word));
        }
        ask_of(alloc, words)
    }
}
