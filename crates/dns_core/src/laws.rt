//! Laws of what is sent.

ghost use Rattle.dns_session.specs.Serving.{Serving};
ghost use Rattle.std.specs.Prelude.{◌≡◌, ◌≢◌, ◌<◌, ◌≤◌, ℕ, List, length, [], ◌∷◌, ◌++◌, true, false, Option, Some, None, slice_get, nat_eq, filter, All};
ghost use Rattle.std.specs.List.{list_any};
ghost use Rattle.std.specs.List.Sorted.{IsNonDecreasingBy};
ghost use Rattle.dns_service.specs.Answer.{Answer};
ghost use Rattle.dns_service.specs.Req.{Req};
ghost use Rattle.dns_events.specs.declared.event.Event.{Event};
ghost use Rattle.dns_events.specs.declared.event.EventKind.{EventKind};
ghost use Rattle.dns_session.specs.Pieces.{piece_of};
ghost use Rattle.dns_session.specs.Rule.{rule};
ghost use Rattle.dns_session.specs.Slate.{Closed};
ghost use Rattle.dns_events.specs.declared.event.Output.{Output};
ghost use Rattle.dns_name.specs.declared.address.SocketAddr.{SocketAddr};
ghost use Rattle.dns_service.specs.Config.{Dgram, Stream, IsBudget};
ghost use Rattle.dns_core.specs.Budgets.{AllowsAtMost, StaysAtMost, queued_in};
ghost use Rattle.dns_core.specs.Own.{concerns, is_wide, own};
ghost use Rattle.dns_core.specs.Placed.{is_beginning};
ghost use Rattle.dns_core.specs.Runs.{IsReconfigure};
ghost use Rattle.dns_core.specs.Sent.{conf, sent, slate};
ghost use Rattle.dns_core.specs.Out.{gain, is_new, is_turned_away, is_unused, members, out};
ghost use Rattle.dns_core.specs.ByClient.{IsPrefix, is_for, is_member, was_turned_away};
ghost use Rattle.dns_core.specs.Finished.{IsFinished};
ghost use Rattle.dns_session.specs.Slate.{SlateRequest};
ghost use Rattle.dns_core.specs.ReplyTo.{IsReply};
ghost use Rattle.dns_core.specs.SlateBy.{slate_by};
ghost use Rattle.dns_core.specs.Trails.{AreAnswers, AreFrom, AreQueued, IsRising, IsSomewhere, in_order, messages_sent, poll_of, polls_of, reply_at, trail_of};
ghost use Rattle.dns_core.specs.WrappedServing.{wrapped_serving};
ghost use Rattle.dns_middleware.specs.Verdicts.{Verdicts};
ghost use Rattle.dns_events.specs.declared.settings.Settings.{Settings};

/// The headline, read by client. Of all that is sent, what is for an exchange or a connection is what the rules for it alone send
/// for its events; to a client that was turned away it is told so, once; and nothing is for any other.
pub fn clients_are_sent_their_own()
    ensures own { (answers : Serving) (settings : Settings) (c : ℕ) (es : List Event)
        → is_member answers settings c es ≡ true
        → filter (is_for c) (out answers settings es) ≡ sent answers settings (own c es) }
    ensures away { (answers : Serving) (settings : Settings) (q r : List Event) (e : Event)
        → is_turned_away answers settings q e ≡ true
        → filter (is_for e.client) (out answers settings (q ++ e ∷ r))
        ≡ Output.TurnedAway e.client (conf settings q).stream.accept_connections_at_max ∷ [] }
    ensures stranger { (answers : Serving) (settings : Settings) (c : ℕ) (es : List Event)
        → is_member answers settings c es ≡ false → was_turned_away answers settings c es ≡ false
        → filter (is_for c) (out answers settings es) ≡ [] }
{}

/// Whatever the others do: two lists of events with the same events of a client, in neither of which it was turned away,
/// send it the same.
pub fn others_change_nothing()
    ensures { (answers : Serving) (settings : Settings) (c : ℕ) (es fs : List Event)
        → own c es ≡ own c fs → was_turned_away answers settings c es ≡ false → was_turned_away answers settings c fs ≡ false
        → filter (is_for c) (out answers settings es) ≡ filter (is_for c) (out answers settings fs) }
{}

/// What is sent for the first of some events is the front of what is sent for all. That holds for one client and for all. What one
/// event more adds to what each client that hears it is sent is that client's gain.
pub fn more_events_send_more()
    ensures one { (answers : Serving) (settings : Settings) (p r : List Event)
        → IsPrefix (sent answers settings p) (sent answers settings (p ++ r)) }
    ensures all { (answers : Serving) (settings : Settings) (p r : List Event)
        → IsPrefix (out answers settings p) (out answers settings (p ++ r)) }
    ensures more { (answers : Serving) (settings : Settings) (c : ℕ) (q : List Event) (e : Event)
        → concerns c e ≡ true
        → sent answers settings (own c (q ++ e ∷ [])) ≡ sent answers settings (own c q) ++ gain answers settings c q e }
{}

/// Each datagram that is sent answers the one by which its client began: it carries that one's identifier, and QR, and has no
/// more octets than the limit of its request. Each frame answers one of those that its connection received before, with that
/// one's identifier, and QR.
pub fn replies_answer_what_was_asked()
    ensures { (settings : Settings) (given : Req (Unit {0}) → ℕ → Answer) (verdicts : Verdicts) (es : List Event)
        → All (IsReply (wrapped_serving settings given verdicts) settings es)
        (out (wrapped_serving settings given verdicts) settings es) }
{
    dns_middleware::wrapped_replies_respond();
    dns_middleware::wrapped_replies_fit();
    dns_service::cut_fits();
}

/// A client is sent its replies in order: each message that it is sent is the reply to one poll of one of its requests, or refuses
/// a response with FORMERR. So is each frame of its queue. Those of one request stand in the order of its polls, each at most once.
/// Take a reply that one of its requests was polled for. It was sent, or waits in the queue, or is the one that its request holds,
/// or was dropped outside of a transaction. It is dropped if the queue stood full or the response budget was spent in that window
/// of time; a connection that closes forgets its requests. If a service is served in its layers, each reply that is sent carries
/// the identifier of the request that it replies to, and QR.
pub fn replies_keep_their_order()
    ensures sent { (answers : Serving) (settings : Settings) (c : ℕ) (es : List Event)
        → AreFrom answers (trail_of answers settings (own c es)).went (messages_sent (sent answers settings (own c es))) }
    ensures waits { (answers : Serving) (settings : Settings) (c : ℕ) (es : List Event)
        → AreQueued answers (trail_of answers settings (own c es)).waiting (slate answers settings c es).queue }
    ensures order { (answers : Serving) (settings : Settings) (c k : ℕ) (es : List Event)
        → IsRising (polls_of k (in_order (trail_of answers settings (own c es)))) }
    ensures missing { (answers : Serving) (settings : Settings) (c k n : ℕ) (es : List Event) (r : SlateRequest)
        → slice_get (slate answers settings c es).requests k ≡ Some r → n < r.polls
        → reply_at answers (poll_of k r n) ≢ None
        → IsSomewhere answers k r (trail_of answers settings (own c es)) (poll_of k r n) }
    ensures responds { (settings : Settings) (given : Req (Unit {0}) → ℕ → Answer) (verdicts : Verdicts) (c : ℕ) (es : List Event)
        → AreAnswers (trail_of (wrapped_serving settings given verdicts) settings (own c es)).went
        (messages_sent (sent (wrapped_serving settings given verdicts) settings (own c es))) }
{
    dns_middleware::wrapped_replies_respond();
}

/// A piece cut in two, wherever it is cut, changes nothing of what its client and all are sent. Both parts come at its moment and
/// seconds and next to each other.
pub fn cut_pieces_change_nothing()
    ensures one { (answers : Serving) (settings : Settings) (client at secs : ℕ) (a b : List ℕ) (p r : List Event)
        → sent answers settings (p ++ piece_of client at secs (a ++ b) ∷ r)
        ≡ sent answers settings (p ++ piece_of client at secs a ∷ piece_of client at secs b ∷ r) }
    ensures all { (answers : Serving) (settings : Settings) (client at secs : ℕ) (a b : List ℕ) (p r : List Event)
        → out answers settings (p ++ piece_of client at secs (a ++ b) ∷ r)
        ≡ out answers settings (p ++ piece_of client at secs a ∷ piece_of client at secs b ∷ r) }
{
    dns_session::pieces_may_be_cut();
}

/// An event of a client that is no exchange and no connection, and doesn't begin with it, changes nothing for anybody.
pub fn strangers_change_nothing()
    ensures { (answers : Serving) (settings : Settings) (q r : List Event) (e : Event)
        → is_wide e.kind ≡ false → is_new answers settings q e ≡ false → list_any (nat_eq e.client) (members answers settings q) ≡ false
        → out answers settings (q ++ e ∷ r) ≡ out answers settings (q ++ r) }
{}

/// Once a connection is closed, an event that is no release changes nothing for anybody.
pub fn closed_connections_change_nothing()
    ensures { (answers : Serving) (settings : Settings) (q r : List Event) (e : Event)
        → is_wide e.kind ≡ false → e.kind ≢ EventKind.Release → (slate answers settings e.client q).phase ≡ Closed
        → out answers settings (q ++ e ∷ r) ≡ out answers settings (q ++ r) }
{}

/// A turn that names no unfinished request changes nothing for anybody.
pub fn finished_requests_change_nothing()
    ensures { (answers : Serving) (settings : Settings) (q r : List Event) (e : Event) (k : ℕ)
        → e.kind ≡ EventKind.Turn k → IsFinished (slice_get (slate answers settings e.client q).requests k)
        → out answers settings (q ++ e ∷ r) ≡ out answers settings (q ++ r) }
{}

/// A datagram and an offer under a used number change nothing for anybody.
pub fn used_numbers_change_nothing()
    ensures datagram { (answers : Serving) (settings : Settings) (q r : List Event) (e : Event) (addr : SocketAddr) (o : List ℕ)
        → e.kind ≡ EventKind.Datagram addr o → is_unused (slate answers settings e.client q).phase ≡ false
        → out answers settings (q ++ e ∷ r) ≡ out answers settings (q ++ r) }
    ensures offer { (answers : Serving) (settings : Settings) (q r : List Event) (e : Event) (addr : SocketAddr)
        → e.kind ≡ EventKind.Offer addr → is_unused (slate answers settings e.client q).phase ≡ false
        → out answers settings (q ++ e ∷ r) ≡ out answers settings (q ++ r) }
{}

/// A second release of a connection changes nothing for anybody.
pub fn second_releases_change_nothing()
    ensures { (answers : Serving) (settings : Settings) (q r : List Event) (e : Event)
        → e.kind ≡ EventKind.Release → (slate answers settings e.client q).freed ≡ true
        → out answers settings (q ++ e ∷ r) ≡ out answers settings (q ++ r) }
{}

/// A piece of no octets changes nothing for anybody.
pub fn empty_pieces_change_nothing()
    ensures { (answers : Serving) (settings : Settings) (q r : List Event) (e : Event)
        → e.kind ≡ EventKind.Piece []
        → out answers settings (q ++ e ∷ r) ≡ out answers settings (q ++ r) }
{}

/// Once the server shut down, a datagram, an offer, and another reconfigure and shutdown change nothing for anybody.
pub fn late_events_change_nothing()
    ensures datagram { (answers : Serving) (settings : Settings) (q r : List Event) (e : Event) (addr : SocketAddr) (o : List ℕ)
        → e.kind ≡ EventKind.Datagram addr o → (conf settings q).over ≡ true
        → out answers settings (q ++ e ∷ r) ≡ out answers settings (q ++ r) }
    ensures offer { (answers : Serving) (settings : Settings) (q r : List Event) (e : Event) (addr : SocketAddr)
        → e.kind ≡ EventKind.Offer addr → (conf settings q).over ≡ true
        → out answers settings (q ++ e ∷ r) ≡ out answers settings (q ++ r) }
    ensures reconfigure { (answers : Serving) (settings : Settings) (q r : List Event) (e : Event) (dgram : Dgram) (stream : Stream)
        → e.kind ≡ EventKind.Reconfigure dgram stream → (conf settings q).over ≡ true
        → out answers settings (q ++ e ∷ r) ≡ out answers settings (q ++ r) }
    ensures shutdown { (answers : Serving) (settings : Settings) (q r : List Event) (e : Event)
        → e.kind ≡ EventKind.Shutdown → (conf settings q).over ≡ true
        → out answers settings (q ++ e ∷ r) ≡ out answers settings (q ++ r) }
{}

/// Of a run of reconfigures the last alone counts, for what one client is sent.
pub fn reconfigures_count_as_their_last()
    ensures { (answers : Serving) (settings : Settings) (p run r : List Event) (last : Event)
        → All IsReconfigure run → IsReconfigure last
        → sent answers settings (p ++ (run ++ last ∷ r)) ≡ sent answers settings (p ++ last ∷ r) }
{}

/// At the slate of a client, whatever it heard: events that leave it, and for which the client is sent nothing. These are, of its own,
/// those before it began, by which it doesn't begin; a datagram and an offer under its used number, or after it heard of a shutdown;
/// a turn of no unfinished request; a piece of no octets; once it is closed all but a release, and a second release. And a
/// reconfigure and a shutdown after it heard of one.
pub fn idle_events_leave_a_slate()
    ensures unused { (answers : Serving) (settings : Settings) (es : List Event) (e : Event)
        → is_unused (slate_by answers settings es).phase ≡ true → is_wide e.kind ≡ false → is_beginning e.kind ≡ false
        → rule answers e (slate_by answers settings es) ≡ (slate_by answers settings es, []) }
    ensures used { (answers : Serving) (settings : Settings) (es : List Event) (e : Event)
        → is_unused (slate_by answers settings es).phase ≡ false → is_beginning e.kind ≡ true
        → rule answers e (slate_by answers settings es) ≡ (slate_by answers settings es, []) }
    ensures late { (answers : Serving) (settings : Settings) (es : List Event) (e : Event)
        → (slate_by answers settings es).conf.over ≡ true → is_beginning e.kind ≡ true
        → rule answers e (slate_by answers settings es) ≡ (slate_by answers settings es, []) }
    ensures turn { (answers : Serving) (settings : Settings) (es : List Event) (e : Event) (k : ℕ)
        → e.kind ≡ EventKind.Turn k → IsFinished (slice_get (slate_by answers settings es).requests k)
        → rule answers e (slate_by answers settings es) ≡ (slate_by answers settings es, []) }
    ensures piece { (answers : Serving) (settings : Settings) (es : List Event) (e : Event)
        → e.kind ≡ EventKind.Piece []
        → rule answers e (slate_by answers settings es) ≡ (slate_by answers settings es, []) }
    ensures closed { (answers : Serving) (settings : Settings) (es : List Event) (e : Event)
        → is_wide e.kind ≡ false → e.kind ≢ EventKind.Release → (slate_by answers settings es).phase ≡ Closed
        → rule answers e (slate_by answers settings es) ≡ (slate_by answers settings es, []) }
    ensures again { (answers : Serving) (settings : Settings) (es : List Event) (e : Event)
        → e.kind ≡ EventKind.Release → (slate_by answers settings es).freed ≡ true
        → rule answers e (slate_by answers settings es) ≡ (slate_by answers settings es, []) }
    ensures reconfigure { (answers : Serving) (settings : Settings) (es : List Event) (e : Event) (dgram : Dgram) (stream : Stream)
        → e.kind ≡ EventKind.Reconfigure dgram stream → (slate_by answers settings es).conf.over ≡ true
        → rule answers e (slate_by answers settings es) ≡ (slate_by answers settings es, []) }
    ensures shutdown { (answers : Serving) (settings : Settings) (es : List Event) (e : Event)
        → e.kind ≡ EventKind.Shutdown → (slate_by answers settings es).conf.over ≡ true
        → rule answers e (slate_by answers settings es) ≡ (slate_by answers settings es, []) }
{}

/// Whatever a client hears, its queue has no more replies than its bound. That is the bound of the configuration in force when its
/// offer was heard, and stays so from then on.
pub fn queues_keep_their_bound()
    ensures within { (answers : Serving) (settings : Settings) (es : List Event)
        → length (slate_by answers settings es).queue ≤ (slate_by answers settings es).bound }
    ensures taken { (answers : Serving) (settings : Settings) (es : List Event) (e : Event) (addr : SocketAddr)
        → e.kind ≡ EventKind.Offer addr → is_unused (slate_by answers settings es).phase ≡ true
        → (slate_by answers settings es).conf.over ≡ false
        → (slate_by answers settings (es ++ e ∷ [])).bound
        ≡ (slate_by answers settings es).conf.stream.connection_config.max_queued_responses }
    ensures kept { (answers : Serving) (settings : Settings) (es fs : List Event)
        → is_unused (slate_by answers settings es).phase ≡ false
        → (slate_by answers settings (es ++ fs)).bound ≡ (slate_by answers settings es).bound }
{}

/// Let time not go back, windows keep their length, and no configuration allow more than b replies in one. Then a connection queues
/// at most b replies in each window: a reconfigure refills nothing.
pub fn budgets_are_kept()
    ensures { (answers : Serving) (settings : Settings) (es fs : List Event) (b w n : ℕ)
        → IsBudget (Some b) → AllowsAtMost b w (slate_by answers settings es).conf.stream.connection_config
        → All (λ e. StaysAtMost b w e.kind) fs → IsNonDecreasingBy (λ e. e.at) fs
        → queued_in answers w n (slate_by answers settings es) fs ≤ b }
{}
