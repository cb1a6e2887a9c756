//! How many outputs there were, and the line that says so.

ghost use Rattle.std.specs.Prelude.{◌≡◌, ◌+◌, ◌^◌, ℕ, [], IfOk, count_by, string_bytes};
ghost use Rattle.dns_core.specs.Trails.{is_datagram_sent, is_frame};
ghost use Rattle.dns_flood.specs.Counts.{IsAtMost, closes, output_counts, saturated_sum, summary_line, turns_away};

use dns_name::OutOfMemory;
use dns_service::Output;
use std::alloc::Global;

/// How many outputs there were of each kind.
#[derive(Clone, Copy)]
pub struct Counts {
    pub datagrams: u128,
    pub frames: u128,
    pub closed: u128,
    pub turned_away: u128,
}

fn datagrams(outputs: &[Output]) -> usize
    ensures { result ≡ count_by is_datagram_sent outputs.now }
{
    outputs
        .iter()
        .filter(|output| matches!(output, Output::Datagram { .. }))
        .count()
}

fn frames(outputs: &[Output]) -> usize
    ensures { result ≡ count_by is_frame outputs.now }
{
    outputs
        .iter()
        .filter(|output| matches!(output, Output::Frame { .. }))
        .count()
}

fn closed(outputs: &[Output]) -> usize
    ensures { result ≡ count_by closes outputs.now }
{
    outputs
        .iter()
        .filter(|output| matches!(output, Output::Closed { .. }))
        .count()
}

fn turned_away(outputs: &[Output]) -> usize
    ensures { result ≡ count_by turns_away outputs.now }
{
    outputs
        .iter()
        .filter(|output| matches!(output, Output::TurnedAway { .. }))
        .count()
}

/// How many of the outputs there are of each kind.
#[tactic(auto, unfolding(crate::specs::Counts::output_counts))]
fn count(outputs: &[Output]) -> Counts
    ensures counts { result ≡ output_counts outputs.now }
    ensures few { IsAtMost (2 ^ 64) result }
{
    Counts {
        datagrams: datagrams(outputs) as u128,
        frames: frames(outputs) as u128,
        closed: closed(outputs) as u128,
        turned_away: turned_away(outputs) as u128,
    }
}

impl Counts {
    /// Counts of no outputs: every number is 0.
    #[tactic(auto, unfolding(crate::specs::Counts::output_counts))]
    pub fn new() -> Counts
        ensures { result ≡ output_counts [] }
    {
        Counts {
            datagrams: 0,
            frames: 0,
            closed: 0,
            turned_away: 0,
        }
    }

    /// Outputs more. Each number stays at 2^128 - 1 if it would pass that.
    pub fn add(&mut self, outputs: &[Output])
        ensures sum { self.new ≡ saturated_sum self.old (output_counts outputs.now) }
        ensures few { (most : ℕ) → IsAtMost most self.old → IsAtMost (most + 2 ^ 64) self.new }
    {
        let more = count(outputs);
        self.datagrams = self.datagrams.saturating_add(more.datagrams);
        self.frames = self.frames.saturating_add(more.frames);
        self.closed = self.closed.saturating_add(more.closed);
        self.turned_away = self.turned_away.saturating_add(more.turned_away);
    }
}

/// The line `events N datagrams A frames B closed C turned D`, with its LF.
#[tactic(auto, unfolding(crate::specs::Counts::summary_line))]
pub fn summary(alloc: Global, events: u32, counts: &Counts) -> Result<String, OutOfMemory>
    ensures { IfOk result (λ t. string_bytes t ≡ summary_line events counts.now) }
{
    let Counts {
        datagrams,
        frames,
        closed,
        turned_away,
    } = *counts;
    Ok(format!(in alloc;
        "events {events} datagrams {datagrams} frames {frames} closed {closed} turned {turned_away}\n"
    )?)
}
