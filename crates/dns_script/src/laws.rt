//! Laws of what a script says.

ghost use Rattle.std.specs.Prelude.{◌≡◌, ◌+◌, ◌++◌, ◌∷◌, ℕ, List, Ok, length, true};
ghost use Rattle.std.specs.Str.Lines.{lines};
ghost use Rattle.dns_trace.specs.Traced.{traced};
ghost use Rattle.dns_events.specs.declared.event.Event.{Event};
ghost use Rattle.dns_script.specs.Plan.{Plan};
ghost use Rattle.dns_script.specs.ScriptText.{SameScript, script_text};
ghost use Rattle.dns_script.specs.Scripts.{event_script};
ghost use Rattle.dns_script.specs.TraceScript.{AreNoServices, is_service_line, refused_behind, script_lines, script_trace};

/// A text without a line of a service, of a target or of a zone says as a trace what it says as a script. It is refused if that is.
/// Any other is refused at the first such line, unless an earlier line is refused.
pub fn a_trace_is_a_script()
    ensures plain { (t : List ℕ) → AreNoServices (lines t) → traced t ≡ script_trace (event_script t) }
    ensures service { (t l : List ℕ) (before after : List (List ℕ)) → lines t ≡ before ++ l ∷ after → AreNoServices before
        → is_service_line l ≡ true → traced t ≡ refused_behind (length before + 1) l (script_lines before) }
{}

/// The text that is written of a script that was read is a script of the same settings, service, target and events. Writing that
/// again gives the same text.
pub fn a_script_reads_back()
    ensures { (t : List ℕ) (p : Plan Event) → event_script t ≡ Ok p
        → ((q : Plan Event) × (event_script (script_text p) ≡ Ok q) × SameScript p q × (script_text q ≡ script_text p)) }
{}
