//! What tokens stand for.

ghost use Rattle.std.specs.Prelude.{◌≡◌, ◌≤◌, min};
ghost use Rattle.forwardd.specs.Tokens.{IsThere, number_of, source_of};

use mio::Token;

/// What a token stands for.
#[derive(Clone, Copy)]
pub(crate) enum Source {
    /// The socket of a listener for datagrams.
    Datagrams(usize),
    /// The socket of a listener for connections.
    Connections(usize),
    /// The socket of a port.
    Socket(usize),
    /// The connection of a port.
    Upstream(usize),
    /// The connection of a client.
    Client(usize),
}

/// What a token stands for, if there are that many listeners.
pub(crate) fn source_of(listeners: usize, token: Token) -> Source
    ensures { result ≡ source_of listeners token.0 }
{
    if token.0 < listeners {
        return Source::Datagrams(token.0);
    }
    let number = token.0 - listeners;
    if number < listeners {
        return Source::Connections(number);
    }
    let number = number - listeners;
    match number % 3 {
        0 => Source::Socket(number / 3),
        1 => Source::Upstream(number / 3),
        _ => Source::Client(number / 3),
    }
}

/// The number of the token that stands for this.
fn number_of(listeners: usize, source: Source) -> usize
    ensures { result ≡ min (number_of listeners source) usize.MAX }
{
    let first = listeners.saturating_mul(2);
    match source {
        Source::Datagrams(number) => number,
        Source::Connections(number) => listeners.saturating_add(number),
        Source::Socket(port) => first.saturating_add(port.saturating_mul(3)),
        Source::Upstream(port) => first
            .saturating_add(port.saturating_mul(3))
            .saturating_add(1),
        Source::Client(number) => first
            .saturating_add(number.saturating_mul(3))
            .saturating_add(2),
    }
}

/// The token that stands for this, and for nothing else, while its number is no greater than `usize::MAX`.
pub(crate) fn token_of(listeners: usize, source: Source) -> Token
    ensures number { result.0 ≡ min (number_of listeners source) usize.MAX }
    ensures stands { IsThere listeners source → number_of listeners source ≤ usize.MAX → source_of listeners result.0 ≡ source }
{
    Token(number_of(listeners, source))
}
