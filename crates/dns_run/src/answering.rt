//! What is written for a script that was read.

ghost use Rattle.std.specs.Prelude.{◌≡◌, ℕ, List};
ghost use Rattle.dns_io.specs.Causes.{Observed};
ghost use Rattle.dns_flood.specs.CachedRules.{cache_text};
ghost use Rattle.dns_flood.specs.Plan.{Plan};
ghost use Rattle.dns_flood.specs.PlanOutputs.{plan_sent};
ghost use Rattle.dns_flood.specs.ScriptText.{script_text};
ghost use Rattle.dns_run.specs.Runs.{clients_text};
ghost use Rattle.dns_flood.specs.Writes.{Wrote, WroteFaults};

use crate::asking::write_answers;
use dns_flood::{
    Ask, Script, ScriptLine, Scripted, WriteError, script_text, serve_script, write_outputs,
};
use dns_io::{Sink, write_all};
use dns_service::Event;
use std::alloc::Global;

/// That a text was written whole, or why not.
pub(crate) type Written = Result<(), WriteError>;

/// What is written for a script of such lines.
pub(crate) trait AnswerScript<E: ScriptLine>: Drop {
    /// The text.
    ghost text: { Self → Plan E → List ℕ };

    /// Writes the text. After an error a front of it was written.
    fn write<W: Sink>(&self, alloc: Global, script: Script<E>, sink: &mut W) -> Written
        ensures observed { Observed (W.tells sink.new) (W.tells sink.old)
            (Wrote result (text self.now script) (W.taken sink.old) (W.taken sink.new)) }
        ensures cause { WroteFaults result (W.faults sink.old) (W.faults sink.new) };
}

/// The lines of what the clients are sent.
#[derive(Drop)]
pub(crate) struct Clients;

impl<E: Scripted> AnswerScript<E> for Clients {
    ghost text = { λ _. clients_text (plan_sent E.sent) };

    fn write<W: Sink>(&self, alloc: Global, script: Script<E>, sink: &mut W) -> Written
        ensures observed { Observed (W.tells sink.new) (W.tells sink.old)
            (Wrote result (clients_text (plan_sent E.sent) script) (W.taken sink.old) (W.taken sink.new)) }
        ensures cause { WroteFaults result (W.faults sink.old) (W.faults sink.new) }
    {
        let all = serve_script(alloc, script)?;
        write_outputs(alloc, sink, &all)
    }
}

/// The script itself.
#[derive(Drop)]
pub(crate) struct Recorded;

impl AnswerScript<Event> for Recorded {
    ghost text = { λ _. script_text };

    fn write<W: Sink>(&self, alloc: Global, script: Script<Event>, sink: &mut W) -> Written
        ensures observed { Observed (W.tells sink.new) (W.tells sink.old)
            (Wrote result (script_text script) (W.taken sink.old) (W.taken sink.new)) }
        ensures cause { WroteFaults result (W.faults sink.old) (W.faults sink.new) }
    {
        let text = script_text(alloc, script)?;
        write_all(sink, text.as_slice())?;
        Ok(())
    }
}

/// The lines of what a cache of that many replies answers to the questions.
#[derive(Drop)]
pub(crate) struct Questions {
    pub(crate) capacity: u32,
}

impl AnswerScript<Ask> for Questions {
    ghost text = { λ q. cache_text q.capacity };

    fn write<W: Sink>(&self, alloc: Global, script: Script<Ask>, sink: &mut W) -> Written
        ensures observed { Observed (W.tells sink.new) (W.tells sink.old)
            (Wrote result (cache_text self.now.capacity script) (W.taken sink.old) (W.taken sink.new)) }
        ensures cause { WroteFaults result (W.faults sink.old) (W.faults sink.new) }
    {
        write_answers(alloc, sink, script, self.capacity)
    }
}
