//! A law of what a trace says again.

ghost use Rattle.std.specs.Prelude.{◌≡◌, ◌∷◌, [], ℕ, List, false};
ghost use Rattle.dns_events.specs.declared.look.Look.{Look};
ghost use Rattle.dns_book.specs.declared.history.Known.{Known};
ghost use Rattle.dns_session.specs.Serving.{Serving};
ghost use Rattle.dns_stream_driver.specs.Endings.{EndsSo};
ghost use Rattle.dns_stream_driver.specs.declared.connection.ConnectionEnd.TheVariants.{Closed};
ghost use Rattle.dns_name.specs.declared.address.SocketAddr.{SocketAddr};
ghost use Rattle.dns_io.specs.Traffic.{Traffic};
ghost use Rattle.dns_server.specs.Recorded.{TraceReadsBack, settings_event};
ghost use Rattle.dns_server.specs.Replays.{Replays};
ghost use Rattle.dns_events.specs.declared.event.Event.{Event};
ghost use Rattle.dns_events.specs.declared.event.Why.{Why};
ghost use Rattle.dns_events.specs.declared.settings.Settings.{Settings};
ghost use Rattle.dns_trace.specs.InRange.{IsSettings};

/// The trace of a connection replays. The recorder was made from settings with the configurations of the first look, and the
/// connection was closed. Then the text reads to these settings and to events. For these its client, served under these settings,
/// is sent the frames that the link was written. A part of one frame more may follow after a write that failed or took too long.
pub fn a_connection_replays()
    ensures { (answers : Serving) (settings : Settings) (why : Why) (client : ℕ) (addr : SocketAddr) (look : Look) (text : List ℕ)
        (noted : List Event) (k k' : Known) (t t' : Traffic)
        → IsSettings settings → look.dgram ≡ settings.dgram → look.stream ≡ settings.stream → look.closed ≡ false
        → TraceReadsBack text noted → EndsSo answers (Closed why) client addr look (settings_event settings ∷ []) noted k k' t t'
        → Replays answers settings client why text t t' }
{
    dns_trace::a_trace_reads_back();
    dns_core::clients_are_sent_their_own();
}
