//! Laws of what is written and read of settings and events.

ghost use Rattle.std.specs.Prelude.{◌≡◌, List, Ok};
ghost use Rattle.std.specs.List.{All};
ghost use Rattle.dns_events.specs.declared.event.Event.{Event};
ghost use Rattle.dns_trace.specs.InRange.{IsEvent, IsSettings};
ghost use Rattle.dns_trace.specs.Trace.{trace};
ghost use Rattle.dns_trace.specs.Traced.{traced};
ghost use Rattle.dns_events.specs.declared.settings.Settings.{Settings};

/// What is written of settings and events in range reads as these.
pub fn a_trace_reads_back()
    ensures { (s : Settings) (es : List Event) → IsSettings s → All IsEvent es → traced (trace s es) ≡ Ok (s, es) }
{}
