//! The words of the command line.

ghost use Rattle.std.specs.Prelude.{◌≡◌, length, map, string_bytes, IfSome};
ghost use Rattle.dns_trace.specs.Values.{num_of, number};
ghost use Rattle.dns_run.specs.Command.{IsFit, cache_command, cache_of, command_of, flood_command, flood_of, script_command};

use dns_trace::{decimal, num};

/// What the program is asked to do.
#[derive(Clone, Copy)]
pub enum Command {
    /// `replay`: a script is read from the source, and its outputs are written.
    Replay,
    /// `steps`: a script with looks is read, and its outputs are written. A client hears of the server's changes when
    /// it looks.
    Steps,
    /// `trace`: a script as for `replay` is read, and written in one spelling.
    Trace,
    /// `cache CAPACITY`: rules and questions are read, and what a cache of that many replies in front of the rules answers is written.
    Cache { capacity: u32 },
    /// `flood SEED COUNT`: that many events are made and served, and what is sent for them is counted.
    Flood { seed: u64, count: u32 },
}

/// A flood, if both words are numbers, and the second is at most 4,000,000.
fn flood(seed: &[u8], count: &[u8]) -> Option<Command>
    ensures { result ≡ flood_of (num_of seed.now) (number 20 4000001 count.now) }
{
    let Ok(seed) = num(seed) else {
        return None;
    };
    let Ok(count) = decimal(count, 20, 4_000_001) else {
        return None;
    };
    Some(Command::Flood {
        seed,
        count: count as u32,
    })
}

/// A cache, if the word is a number from 1 to 65,536.
fn cache(capacity: &[u8]) -> Option<Command>
    ensures value { result ≡ cache_of (number 20 65537 capacity.now) }
    ensures fit { IfSome result IsFit }
{
    match decimal(capacity, 20, 65_537) {
        Ok(capacity) if capacity > 0 => Some(Command::Cache {
            capacity: capacity as u32,
        }),
        _ => None,
    }
}

/// A script, if the one word says how it is served, or that it is written.
fn script_command(word: &str) -> Option<Command>
    ensures { result ≡ script_command word.now }
{
    if word == "replay" {
        return Some(Command::Replay);
    }
    if word == "steps" {
        return Some(Command::Steps);
    }
    if word == "trace" {
        return Some(Command::Trace);
    }
    None
}

/// Two words: `cache CAPACITY`.
fn cache_command(words: &[String]) -> Option<Command>
    requires { length words.now ≡ 2 }
    ensures value { result ≡ cache_command (map string_bytes words.now) }
    ensures fit { IfSome result IsFit }
{
    if words[0].as_str() != "cache" {
        return None;
    }
    cache(words[1].as_bytes())
}

/// Three words: `flood SEED COUNT`.
fn flood_command(words: &[String]) -> Option<Command>
    requires { length words.now ≡ 3 }
    ensures { result ≡ flood_command (map string_bytes words.now) }
{
    if words[0].as_str() != "flood" {
        return None;
    }
    flood(words[1].as_bytes(), words[2].as_bytes())
}

/// What the words, without the program's name, ask for.
pub fn read_command(words: &[String]) -> Option<Command>
    ensures value { result ≡ command_of (map string_bytes words.now) }
    ensures fit { IfSome result IsFit }
{
    if words.len() == 1 {
        return script_command(words[0].as_str());
    }
    if words.len() == 2 {
        return cache_command(words);
    }
    if words.len() == 3 {
        return flood_command(words);
    }
    None
}
