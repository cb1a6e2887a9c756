//! A book's state as the words of the cell. Nothing else knows how they are packed.
ghost use Rattle.std.specs.Prelude.{◌≡◌};
ghost use Rattle.dns_admission.specs.Machine.{state_after};
ghost use Rattle.dns_book_words.specs.Words.{state_of, budget_of, HasConfigs};
ghost use Rattle.dns_events.specs.Config.{limited_budget, IsBudget};

use dns_admission::{BookState, Call, Look};
use dns_events::{ConnectionConfig, DgramConfig, StreamConfig};

/// Slots taken; version; flags and response size; datagram write timeout; idle timeout; stream write
/// timeout; bound of a connection's queue; limit of connections; its budget, 0 for none; the budget's window.
pub type BookWords = [u64; 10];

/// The word for a budget.
fn budget_word(budget: Option<u32>) -> u64
    requires { IsBudget budget }
    ensures { budget_of result ≡ budget }
{
    match budget {
        Some(count) => u64::from(count),
        None => 0,
    }
}

/// The budget that a word stands for: none, or a number of responses.
fn budget_in(word: u64) -> Option<u32>
    ensures { limited_budget result ≡ budget_of word }
{
    if word == 0 {
        return None;
    }
    Some(word.min(1_000_000) as u32)
}

/// Of the flags: bit 0 says closed, bit 1 that connections at the limit are accepted, bit 2 that there is a response size. The size
/// begins at bit 3.
pub fn book_words(look: &Look) -> BookWords
    ensures { state_of result ≡ look.now }
{
    let dgram = look.dgram;
    let stream = look.stream;
    let connection = stream.connection_config();
    let closed: u64 = if look.closed { 1 } else { 0 };
    let accepts: u64 = if stream.accept_connections_at_max() {
        2
    } else {
        0
    };
    let size: u64 = match dgram.max_response_size() {
        Some(size) => 4 + 8 * u64::from(size),
        None => 0,
    };
    [
        look.taken,
        look.version,
        closed + accepts + size,
        dgram.write_timeout(),
        connection.idle_timeout(),
        connection.response_write_timeout(),
        connection.max_queued_responses() as u64,
        stream.max_concurrent_connections() as u64,
        budget_word(connection.response_budget()),
        connection.budget_window(),
    ]
}

/// What the words stand for of a connection.
fn connection_of(words: &BookWords) -> ConnectionConfig
    ensures { result ≡ (state_of words.now).stream.connection_config }
{
    let mut connection = ConnectionConfig::new();
    connection.set_idle_timeout(words[4]);
    connection.set_response_write_timeout(words[5]);
    connection.set_max_queued_responses(words[6] as usize);
    connection.set_response_budget(budget_in(words[8]));
    connection.set_budget_window(words[9]);
    connection
}

/// What the words stand for.
pub fn look_of(words: &BookWords) -> Look
    ensures { result ≡ state_of words.now }
{
    let flags = words[2];
    let size = if flags / 4 % 2 == 1 {
        Some((flags / 8 % 65536) as u16)
    } else {
        None
    };
    let mut dgram = DgramConfig::new();
    dgram.set_max_response_size(size);
    dgram.set_write_timeout(words[3]);
    let mut stream = StreamConfig::new();
    stream.set_accept_connections_at_max(flags / 2 % 2 == 1);
    stream.set_max_concurrent_connections(words[7] as usize);
    stream.set_connection_config(connection_of(words));
    Look {
        version: words[1],
        closed: flags % 2 == 1,
        taken: words[0],
        dgram,
        stream,
    }
}

/// What was shown becomes what the words stand for. If it has their version, its configurations are theirs.
pub fn renew(shown: &mut Look, words: &BookWords)
    requires { shown.old.version ≡ (state_of words.now).version → HasConfigs shown.old (state_of words.now) }
    ensures { shown.new ≡ state_of words.now }
{
    if words[1] == shown.version {
        shown.closed = words[2] % 2 == 1;
        shown.taken = words[0];
    } else {
        *shown = look_of(words);
    }
}

/// The state that the words stand for.
pub fn state_in(words: &BookWords) -> BookState
    ensures { result ≡ state_of words.now }
{
    BookState::of(look_of(words))
}

/// The words for the state that a call leaves of this one.
pub fn words_after(found: &BookState, call: &Call) -> BookWords
    ensures { state_of result ≡ state_after found.now call.now }
{
    let mut state = *found;
    state.call(call);
    book_words(&state.shown())
}
