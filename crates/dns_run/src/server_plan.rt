//! What a running server is to do.

ghost use Rattle.std.specs.Prelude.{◌≡◌, ◌≢◌, ◌≤◌, length, map, string_bytes, IfErr, IfOk, IfSome, IsOk};
ghost use Rattle.dns_io.specs.Causes.{Observed, Rose};
ghost use Rattle.dns_io.specs.declared.source.TheConstants.{LIMIT};
ghost use Rattle.dns_flood.specs.Plan.{rules_of, settings_of};
ghost use Rattle.dns_flood.specs.Played.{played};
ghost use Rattle.dns_flood.specs.Scripts.{server_script};
ghost use Rattle.dns_flood.specs.Targets.{script_verdicts};
ghost use Rattle.dns_run.specs.Status.{status_of, SourceFaults, SinkFaults};
ghost use Rattle.dns_run.specs.Runs.{refusal_text, Decides, ReadsSource, WritesText};
ghost use Rattle.dns_run.specs.ServeWords.{serve_words};
ghost use Rattle.dns_run.specs.ServePlans.{HeedsWords, PlaysScript};

use crate::serve_words::{ServeWords, read_serve};
use crate::status::Status;
use crate::whole_script::read_whole;
use dns_flood::{NoEvent, Script, ScriptService, ScriptTarget};
use dns_io::{Sink, Source};
use dns_middleware::{Notifiable, Settings};
use dns_name::SocketAddr;
use dns_service::Service;
use std::alloc::Global;

/// What a running server is to do: where it is, when it ends, and how it answers.
#[derive(Drop)]
pub struct ServePlan {
    /// Where datagrams and connections come in.
    pub addr: SocketAddr,
    /// After how many connections and how many datagrams the server ends, or 0 for no end.
    pub count: u64,
    pub settings: Settings,
    pub service: ScriptService,
    pub target: ScriptTarget,
}

/// The plan of the words, and of what a script says.
fn plan_of(alloc: Global, asked: ServeWords, script: Script<NoEvent>) -> ServePlan
    ensures addr { result.addr ≡ asked.addr }
    ensures count { result.count ≡ asked.count }
    ensures settings { result.settings ≡ settings_of script }
    ensures service { ⟦<ScriptService as Service<()>>⟧.answer result.service ≡ played (rules_of script.service) }
    ensures target { ⟦<ScriptTarget as Notifiable>⟧.verdict result.target ≡ script_verdicts script.notify_rules }
{
    let (settings, service, notify_rules, _events) = script.into_parts();
    ServePlan {
        addr: asked.addr,
        count: asked.count,
        settings,
        service: ScriptService::new(service.into_rules(alloc)),
        target: ScriptTarget::new(notify_rules),
    }
}

/// Plans a server by the words `serve ADDR PORT COUNT` and a script of settings and rules. Nothing is written but the line of a refusal.
pub fn serve_plan<R: Source, W: Sink>(
    alloc: Global,
    words: &[String],
    source: &mut R,
    sink: &mut W,
) -> Result<ServePlan, Status>
    // The plan is that of the words, which are of another form exactly if that is told. Then nothing is read or written.
    ensures words { HeedsWords result (serve_words (map string_bytes words.now)) }
    ensures untouched { result ≡ Err Status.Usage → (source.new ≡ source.old) × (sink.new ≡ sink.old) }
    // The counts of faults rise with the two faults, and with no other answer.
    ensures source_faults { SourceFaults (status_of result) (R.faults source.old) (R.faults source.new) }
    ensures sink_faults { SinkFaults (status_of result) (W.faults sink.old) (W.faults sink.new) }
    // If there is a plan, or the source is too long or can't be read, nothing is written.
    ensures unwritten { IsOk result → sink.new ≡ sink.old }
    ensures too_long { result ≡ Err Status.TooLong → sink.new ≡ sink.old }
    ensures unread { result ≡ Err Status.ReadFault → sink.new ≡ sink.old }
    // What was read of a source that tells: for a plan all of it.
    ensures read { IfSome (serve_words (map string_bytes words.now)) (λ w. Observed (R.tells source.new) (R.tells source.old)
        (ReadsSource server_script (status_of result) (R.left source.old) (R.left source.new))) }
    // If the source tells: a plan is that of the script that it held.
    ensures plan { IfOk result (λ p. Observed (R.tells source.new) (R.tells source.old)
        (PlaysScript (server_script (R.left source.old)) p.settings (⟦<ScriptService as Service<()>>⟧.answer p.service)
        (⟦<ScriptTarget as Notifiable>⟧.verdict p.target))) }
    // What was written, if the sink tells too: nothing, or the line of the refusal.
    ensures written { IfSome (serve_words (map string_bytes words.now))
        (λ w. Observed (R.tells source.new × W.tells sink.new) (R.tells source.old × W.tells sink.old)
        (WritesText (status_of result) (refusal_text (server_script (R.left source.old))) (W.taken sink.old) (W.taken sink.new))) }
    // Without a fault the words and the script decide.
    ensures complete { (Rose (R.faults source.old) (R.faults source.new) → ⊥) → (Rose (W.faults sink.old) (W.faults sink.new) → ⊥)
        → IfSome (serve_words (map string_bytes words.now)) (λ w. Observed (R.tells source.new) (R.tells source.old)
        (length (R.left source.old) ≤ LIMIT → Decides (status_of result) (server_script (R.left source.old)))) }
    // No error says that all is done, or that a server failed.
    ensures other { IfErr result (λ s. (s ≢ Status.Done) × (s ≢ Status.HostFault)) }
{
    let asked = read_serve(alloc, words)?;
    match read_whole::<NoEvent, R, W>(alloc, source, sink) {
        Ok(script) => Ok(plan_of(alloc, asked, script)),
        Err(status) => Err(status),
    }
}
