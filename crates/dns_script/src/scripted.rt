//! What is sent to the clients of a script, of events or of steps.

ghost use Rattle.std.specs.Prelude.{◌≡◌, IfOk, List};
ghost use Rattle.dns_session.specs.Serving.{Serving};
ghost use Rattle.dns_core.specs.Out.{out};
ghost use Rattle.dns_core.specs.Outs.{outs};
ghost use Rattle.dns_events.specs.declared.settings.Settings.{Settings as TheSettings};
ghost use Rattle.dns_events.specs.declared.event.Output.{Output as TheOutput};
ghost use Rattle.dns_route.specs.Routes.{routed};
ghost use Rattle.dns_route.specs.Turns.{turned_over};
ghost use Rattle.dns_script.specs.PlanOutputs.{plan_sent, service_answers, wrapped_serving};
ghost use Rattle.dns_script.specs.Upstreams.{upstream_turn, upstreams_under};

use crate::script::Script;
use crate::script_line::ScriptLine;
use crate::script_service::ScriptService;
use crate::script_target::ScriptTarget;
use crate::script_upstream::forwarder;
use crate::service_lines::ServiceLines;
use crate::upstream::Upstreams;
use dns_core::{Notifiable, serve_events, serve_steps};
use dns_name::OutOfMemory;
use dns_route::{SingleService, SingleServiceToService};
use dns_service::{Event, Output, Service, Settings, Step};
use std::alloc::Global;
use std::sync::Arc;

/// A script without its service: its settings, its target, and its events or steps.
#[derive(Drop)]
pub struct UnservedScript<E> {
    pub settings: Settings,
    pub target: ScriptTarget,
    pub events: Vec<E>,
}

/// Events, or steps, as a script has them.
pub trait Scripted: ScriptLine {
    /// What clients are sent for such.
    ghost sent: { Serving → TheSettings → List Self → List TheOutput };

    /// Serves the clients of a script by a service.
    fn serve_with<S: Service<()>>(
        alloc: Global,
        script: UnservedScript<Self>,
        service: S,
    ) -> Result<Vec<Output>, OutOfMemory>
        requires { S.can_call service }
        ensures { IfOk result (λ v. v.items ≡ sent
            (wrapped_serving script.settings (S.answer service) (⟦<ScriptTarget as Notifiable>⟧.verdict script.target))
            script.settings script.events.items) };
}

impl Scripted for Event {
    ghost sent = { out };

    fn serve_with<S: Service<()>>(
        alloc: Global,
        script: UnservedScript<Event>,
        service: S,
    ) -> Result<Vec<Output>, OutOfMemory>
        requires { S.can_call service }
        ensures { IfOk result (λ v. v.items ≡ out
            (wrapped_serving script.settings (S.answer service) (⟦<ScriptTarget as Notifiable>⟧.verdict script.target))
            script.settings script.events.items) }
    {
        let target = script.target;
        serve_events(alloc, &script.settings, service, target, &script.events)
    }
}

impl Scripted for Step {
    ghost sent = { outs };

    fn serve_with<S: Service<()>>(
        alloc: Global,
        script: UnservedScript<Step>,
        service: S,
    ) -> Result<Vec<Output>, OutOfMemory>
        requires { S.can_call service }
        ensures { IfOk result (λ v. v.items ≡ outs
            (wrapped_serving script.settings (S.answer service) (⟦<ScriptTarget as Notifiable>⟧.verdict script.target))
            script.settings script.events.items) }
    {
        let target = script.target;
        serve_steps(alloc, &script.settings, service, target, &script.events)
    }
}

/// Serves clients by a single service.
fn serve_single<E: Scripted, S: SingleService>(
    alloc: Global,
    script: UnservedScript<E>,
    single: S,
) -> Result<Vec<Output>, OutOfMemory>
    ensures { IfOk result (λ v. v.items ≡ E.sent
        (wrapped_serving script.settings (turned_over (S.answer single)) (⟦<ScriptTarget as Notifiable>⟧.verdict script.target))
        script.settings script.events.items) }
{
    let single = Arc::new(alloc, single)?;
    E::serve_with(alloc, script, SingleServiceToService::new(single))
}

/// Serves clients by upstreams in a forwarder.
fn serve_upstreams<E: Scripted>(
    alloc: Global,
    script: UnservedScript<E>,
    upstreams: Upstreams,
) -> Result<Vec<Output>, OutOfMemory>
    ensures { IfOk result (λ v. v.items ≡ E.sent
        (wrapped_serving script.settings (turned_over (routed upstream_turn (upstreams_under upstreams)))
        (⟦<ScriptTarget as Notifiable>⟧.verdict script.target)) script.settings script.events.items) }
{
    let forwarder = forwarder(alloc, upstreams)?;
    serve_single(alloc, script, forwarder)
}

/// Serves clients by what service lines say.
fn serve_lines<E: Scripted>(
    alloc: Global,
    script: UnservedScript<E>,
    service: ServiceLines,
) -> Result<Vec<Output>, OutOfMemory>
    ensures { IfOk result (λ v. v.items ≡ E.sent
        (wrapped_serving script.settings (service_answers service) (⟦<ScriptTarget as Notifiable>⟧.verdict script.target))
        script.settings script.events.items) }
{
    match service {
        ServiceLines::Rules(rules) => E::serve_with(alloc, script, ScriptService::new(rules)),
        ServiceLines::Upstreams(upstreams) => serve_upstreams(alloc, script, upstreams),
        ServiceLines::Zone(zone) => serve_single(alloc, script, zone),
    }
}

/// Serves the clients of a script by its service.
#[tactic(auto, unfolding(crate::specs::PlanOutputs::plan_sent))]
pub fn serve_script<E: Scripted>(
    alloc: Global,
    script: Script<E>,
) -> Result<Vec<Output>, OutOfMemory>
    ensures { IfOk result (λ v. v.items ≡ plan_sent E.sent script) }
{
    let (settings, service, notify_rules, events) = script.into_parts();
    let script = UnservedScript {
        settings,
        target: ScriptTarget::new(notify_rules),
        events,
    };
    serve_lines(alloc, script, service)
}
