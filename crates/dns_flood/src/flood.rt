//! A flood: events that a generator makes are served by a rule of their own, and what is sent for them is counted.

ghost use Rattle.std.specs.Prelude.{◌≡◌, ◌+◌, ◌^◌, ◌∷◌, ℕ, [], IfOk, OnOk, string_bytes};
ghost use Rattle.dns_session.specs.Serving.{serving};
ghost use Rattle.dns_core.specs.Out.{out};
ghost use Rattle.dns_core.specs.Server.{Serves};
ghost use Rattle.dns_io.specs.Causes.{Observed};
ghost use Rattle.dns_events.specs.declared.settings.Settings.{Settings};
ghost use Rattle.dns_middleware.specs.Verdicts.{verdict_on};
ghost use Rattle.dns_middleware.specs.Wrapped.{hint_left, replies};
ghost use Rattle.dns_service.specs.PolledRequest.{request_answer};
ghost use Rattle.dns_events.specs.declared.event.Event.{Event as TheEvent};
ghost use Rattle.dns_flood.specs.Counts.{CountsEvent, IsAtMost, output_counts};
ghost use Rattle.dns_flood.specs.Flood.{drawn, flood_event, flood_events, flood_plan, flood_rule, flood_stream, next_number};
ghost use Rattle.dns_script.specs.Plan.{empty_plan, settings_of};
ghost use Rattle.dns_script.specs.PlanOutputs.{plan_outputs};
ghost use Rattle.dns_flood.specs.FloodText.{flood_text};
ghost use Rattle.dns_flood.specs.Writes.{Wrote, WroteFaults};

use crate::counts::{Counts, summary};
use crate::generator::next_event;
use crate::layers::layered;
use crate::writing::WriteError;
use dns_core::{Notifiable, Server, Settings};
use dns_io::{Sink, write_all};
use dns_name::{OutOfMemory, Rcode};
use dns_script::{
    NotifyRules, Rule, Rules, ScriptAnswer, ScriptAnswers, ScriptReply, ScriptService, ScriptTarget,
};
use dns_service::{ConnectionConfig, Event, Service, SharedService, StreamConfig};
use std::alloc::Global;

/// The configuration of the stream server: `stream 1000 1000 4 10000 yes`.
fn flood_stream() -> StreamConfig
    ensures { result ≡ flood_stream }
{
    let mut connection = ConnectionConfig::new();
    connection.set_idle_timeout(1_000);
    connection.set_response_write_timeout(1_000);
    connection.set_max_queued_responses(4);
    let mut stream = StreamConfig::new();
    stream.set_accept_connections_at_max(true);
    stream.set_max_concurrent_connections(10_000);
    stream.set_connection_config(connection);
    stream
}

/// The default settings, with this configuration.
fn flood_settings(alloc: Global) -> Settings
    ensures { result ≡ record (settings_of (empty_plan {E = TheEvent})) { stream = flood_stream } }
{
    let mut settings = Settings::new(alloc);
    settings.stream = flood_stream();
    settings
}

/// The rule of the service: `rule * pend rcode:0 rcode:3`.
fn flood_rules(alloc: Global) -> Result<Rules, OutOfMemory>
    ensures { IfOk result (λ r. r ≡ flood_rule ∷ []) }
{
    let answers = [
        ScriptAnswer::Pend,
        ScriptAnswer::Reply(ScriptReply::Rcode(Rcode::NOERROR)),
        ScriptAnswer::Reply(ScriptReply::Rcode(Rcode::NXDOMAIN)),
    ];
    let answers = ScriptAnswers::from_slice(alloc, answers.as_slice())?;
    let mut rules = Rules::new(alloc);
    rules.push(Rule {
        name: None,
        answers,
    })?;
    Ok(rules)
}

/// One event more is served, and what is sent for it is counted and not kept.
fn count_event<W: SharedService>(
    alloc: Global,
    server: &mut Server<W>,
    service: &W,
    event: &Event,
    counts: &mut Counts,
) -> Result<(), OutOfMemory>
    requires can_call { W.can_call service.now }
    requires room { IsAtMost (2 ^ 127) counts.old }
    ensures counted { OnOk result (CountsEvent (request_answer W.Future.answer W.Stream.answer)
        (serving (W.answer service.now) (W.hint service.now)) server.old server.new event.now counts.old counts.new) }
    ensures few { OnOk result ((most : ℕ) → IsAtMost most counts.old → IsAtMost (most + 2 ^ 64) counts.new) }
{
    let mut outputs = Vec::new(alloc);
    server.step(alloc, service, event, &mut outputs)?;
    counts.add(&outputs);
    Ok(())
}

/// The event of a place is made, served and counted, and not kept.
fn count_next<W: SharedService>(
    alloc: Global,
    server: &mut Server<W>,
    service: &W,
    number: &mut u64,
    place: u64,
    counts: &mut Counts,
) -> Result<(), OutOfMemory>
    requires can_call { W.can_call service.now }
    requires room { IsAtMost (2 ^ 127) counts.old }
    ensures number { OnOk result (number.new ≡ next_number number.old) }
    ensures counted { OnOk result (CountsEvent (request_answer W.Future.answer W.Stream.answer)
        (serving (W.answer service.now) (W.hint service.now)) server.old server.new
        (flood_event place (drawn number.new)) counts.old counts.new) }
    ensures few { OnOk result ((most : ℕ) → IsAtMost most counts.old → IsAtMost (most + 2 ^ 64) counts.new) }
{
    let event = next_event(alloc, number, place)?;
    count_event(alloc, server, service, &event, counts)
}

/// The events of a flood are made, served and counted one by one, by a server that served none.
fn count_each<W: SharedService>(
    alloc: Global,
    server: &mut Server<W>,
    service: &W,
    seed: u64,
    count: u32,
) -> Result<Counts, OutOfMemory>
    requires { W.can_call service.now }
    ensures { IfOk result (λ c. (settings : Settings)
        → Serves (request_answer W.Future.answer W.Stream.answer)
        (serving (W.answer service.now) (W.hint service.now)) settings [] server.old
        → c ≡ output_counts (out (serving (W.answer service.now) (W.hint service.now)) settings (flood_events seed count))) }
{
    let mut counts = Counts::new();
    let mut number = seed;
    for made in 0..count {
        count_next(
            alloc,
            server,
            service,
            &mut number,
            made as u64 + 1,
            &mut counts,
        )?;
    }
    Ok(counts)
}

/// How much is sent for the events of a flood.
fn count_events<W: SharedService>(
    alloc: Global,
    settings: &Settings,
    service: W,
    seed: u64,
    count: u32,
) -> Result<Counts, OutOfMemory>
    requires { W.can_call service }
    ensures { IfOk result (λ c. c ≡ output_counts
        (out (serving (W.answer service) (W.hint service)) settings.now (flood_events seed count))) }
{
    let mut server = Server::new(alloc, settings);
    count_each(alloc, &mut server, &service, seed, count)
}

/// Counts the outputs of a flood of `count` events that a service answers within the layers of the settings.
fn count_served<S: Service<()>, N: Notifiable>(
    alloc: Global,
    settings: &Settings,
    service: S,
    target: N,
    seed: u64,
    count: u32,
) -> Result<Counts, OutOfMemory>
    requires { S.can_call service }
    ensures { IfOk result (λ c. c ≡ output_counts
        (out (serving (replies settings.now (S.answer service) (verdict_on (N.verdict target))) (hint_left settings.now))
        settings.now (flood_events seed count))) }
{
    match layered(alloc, settings, service, target) {
        Ok(service) => count_events(alloc, settings, service, seed, count),
        Err(error) => Err(error),
    }
}

/// How much the clients of a flood are sent.
#[tactic(auto, unfolding(dns_script::specs::PlanOutputs::plan_sent))]
pub fn count_flood(alloc: Global, seed: u64, count: u32) -> Result<Counts, OutOfMemory>
    ensures { IfOk result (λ c. c ≡ output_counts (plan_outputs (flood_plan seed count))) }
{
    let settings = flood_settings(alloc);
    let service = ScriptService::new(flood_rules(alloc)?);
    let target = ScriptTarget::new(NotifyRules::new(alloc));
    count_served(alloc, &settings, service, target, seed, count)
}

/// The line that says it.
#[tactic(auto, unfolding(crate::specs::FloodText::flood_text))]
fn flood_line(alloc: Global, seed: u64, count: u32) -> Result<String, OutOfMemory>
    ensures { IfOk result (λ t. string_bytes t ≡ flood_text seed count) }
{
    let counts = count_flood(alloc, seed, count)?;
    summary(alloc, count, &counts)
}

/// Writes how much the clients of a flood are sent. After an error a front of the line was written.
pub fn write_flood<W: Sink>(
    alloc: Global,
    sink: &mut W,
    seed: u64,
    count: u32,
) -> Result<(), WriteError>
    ensures observed { Observed (W.tells sink.new) (W.tells sink.old)
        (Wrote result (flood_text seed count) (W.taken sink.old) (W.taken sink.new)) }
    ensures cause { WroteFaults result (W.faults sink.old) (W.faults sink.new) }
{
    let text = flood_line(alloc, seed, count)?;
    write_all(sink, text.as_bytes())?;
    Ok(())
}
