//! The line that says how many responses each connection may queue in one window of time.

ghost use Rattle.std.specs.Prelude.{◌≡◌, ◌<◌, Some};
ghost use Rattle.dns_events.specs.Config.{limited_budget};
ghost use Rattle.dns_trace.specs.BudgetLine.{budget_line, budget_values, budgeted, num_or_none};

use crate::reason::Reason;
use crate::values::num;
use crate::words::Words;
use dns_events::StreamConfig;

/// How many responses each connection may queue in one window, if that is limited, and how long a window is, in
/// milliseconds. The numbers are those that were said; a configuration limits them to their ranges.
#[derive(Clone, Copy)]
pub struct Budget {
    pub count: Option<u64>,
    pub window: u64,
}

/// A number of responses, limited as the setter limits it.
fn limited(count: Option<u64>) -> Option<u32>
    ensures { limited_budget result ≡ limited_budget count }
{
    match count {
        Some(count) => Some(count.min(1_000_000) as u32),
        None => None,
    }
}

/// The configuration of a stream server with this budget for each connection, or as it is if none is said.
pub fn with_budget(budget: Option<Budget>, stream: StreamConfig) -> StreamConfig
    ensures { result ≡ budgeted budget stream }
{
    let mut stream = stream;
    if let Some(budget) = budget {
        let mut connection = stream.connection_config();
        connection.set_response_budget(limited(budget.count));
        connection.set_budget_window(budget.window);
        stream.set_connection_config(connection);
    }
    stream
}

/// A number of responses, or `none`.
#[tactic(auto, unfolding(crate::specs::BudgetLine::num_or_none))]
fn num_or_none(word: &[u8]) -> Result<Option<u64>, Reason>
    ensures { result ≡ num_or_none word.now }
{
    if word == b"none".as_slice() {
        return Ok(None);
    }
    let count = num(word)?;
    Ok(Some(count))
}

/// The budget `BUDGET WINDOW` from a word on.
#[tactic(auto, unfolding(crate::specs::BudgetLine::budget_values))]
pub(crate) fn budget_values(words: &Words, from: usize) -> Result<Budget, Reason>
    requires { from < 16 }
    ensures { result ≡ budget_values words.now from }
{
    let count = num_or_none(words.word(from))?;
    let window = num(words.word(from + 1))?;
    Ok(Budget { count, window })
}

/// The budget of a line `budget BUDGET WINDOW`. The first word is not looked at.
#[tactic(auto, unfolding(crate::specs::BudgetLine::budget_line))]
pub fn read_budget(words: &Words) -> Result<Budget, Reason>
    ensures { result ≡ budget_line words.now }
{
    if words.len() != 3 {
        return Err(Reason::Count);
    }
    budget_values(words, 1)
}
