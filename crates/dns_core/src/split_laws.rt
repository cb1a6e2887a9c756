//! Laws of what is sent if clients look for themselves.

ghost use Rattle.dns_session.specs.Serving.{Serving};
ghost use Rattle.std.specs.Prelude.{◌≡◌, ◌≢◌, ◌<◌, ◌≤◌, ℕ, List, length, [], ◌∷◌, ◌++◌, true, false, Some, None, slice_get, nat_eq, filter, not, All};
ghost use Rattle.std.specs.List.{flat_map, list_any};
ghost use Rattle.std.specs.List.Sorted.{IsStrictlySortedBy};
ghost use Rattle.std.specs.Ordering.{nat_cmp};
ghost use Rattle.dns_admission.specs.Machine.{last_version};
ghost use Rattle.dns_session.specs.Pieces.{piece_of};
ghost use Rattle.dns_session.specs.Slate.{Closed, SlateRequest};
ghost use Rattle.dns_name.specs.declared.address.SocketAddr.{SocketAddr};
ghost use Rattle.dns_service.specs.Answer.{Answer};
ghost use Rattle.dns_service.specs.Config.{Dgram, Stream};
ghost use Rattle.dns_service.specs.Req.{Req};
ghost use Rattle.dns_events.specs.declared.event.Event.{Event};
ghost use Rattle.dns_events.specs.declared.event.EventKind.{EventKind};
ghost use Rattle.dns_events.specs.declared.event.Output.{Output};
ghost use Rattle.dns_events.specs.declared.event.Step.{Step};
ghost use Rattle.dns_core.specs.AtOnce.{undelayed};
ghost use Rattle.dns_core.specs.ByClient.{IsPrefix, is_for, is_member};
ghost use Rattle.dns_core.specs.Changes.{changes};
ghost use Rattle.dns_core.specs.Finished.{IsFinished};
ghost use Rattle.dns_core.specs.Out.{is_unused, out};
ghost use Rattle.dns_core.specs.Outs.{membership, outs, placed_gain, placed_slate};
ghost use Rattle.dns_core.specs.Own.{is_wide, own};
ghost use Rattle.dns_core.specs.Placed.{knows, own_events, placed, puts};
ghost use Rattle.dns_core.specs.ReplyTo.{IsReply};
ghost use Rattle.dns_core.specs.Sent.{sent, sent_after};
ghost use Rattle.dns_core.specs.StepsByClient.{TurnedAwayIn, finds_no_slot, is_first, is_served, slots_held, was_refused};
ghost use Rattle.dns_core.specs.Trails.{AreAnswers, AreFrom, AreQueued, IsRising, IsSomewhere, in_order, messages_sent, poll_of, polls_of, reply_at, trail_of};
ghost use Rattle.dns_core.specs.WrappedServing.{wrapped_serving};
ghost use Rattle.dns_middleware.specs.Verdicts.{Verdicts};
ghost use Rattle.dns_events.specs.declared.settings.Settings.{Settings};

/// The headline, read by client. Of all that is sent for some steps, what is for an exchange or a connection is what the rules for
/// it alone send. They send it for its own events and, before each look of it, the changes of the server that it has not heard of.
/// A client whose offer finds every slot taken is told so, once; whoever began, and is no exchange and no connection, made such an
/// offer; and who didn't begin is sent nothing.
pub fn clients_are_sent_what_they_heard()
    ensures own { (answers : Serving) (settings : Settings) (c : ℕ) (steps : List Step)
        → is_served answers settings c steps ≡ true
        → filter (is_for c) (outs answers settings steps) ≡ sent answers settings (placed settings c steps) }
    ensures away { (answers : Serving) (settings : Settings) (q r : List Step) (e : Event)
        → finds_no_slot answers settings q e ≡ true
        → filter (is_for e.client) (outs answers settings (q ++ Step.Own e ∷ r))
        ≡ Output.TurnedAway e.client (membership answers settings q).book.stream.accept_connections_at_max ∷ [] }
    ensures refused { (answers : Serving) (settings : Settings) (c : ℕ) (steps : List Step)
        → was_refused answers settings c steps ≡ true → TurnedAwayIn answers settings c steps }
    ensures stranger { (answers : Serving) (settings : Settings) (c : ℕ) (steps : List Step)
        → is_unused (placed_slate answers settings c steps).phase ≡ true
        → filter (is_for c) (outs answers settings steps) ≡ [] }
{}

/// What a client hears: its own events, in order, and of the changes of the server the first ones, each once and in order; those that it
/// has not heard of are the others. After a look of it there are none.
pub fn clients_hear_each_change_once()
    ensures own { (settings : Settings) (c : ℕ) (steps : List Step)
        → filter (λ (e : Event). not (is_wide e.kind)) (placed settings c steps) ≡ flat_map (own_events c) steps }
    ensures changes { (settings : Settings) (c : ℕ) (steps : List Step)
        → filter (λ (e : Event). is_wide e.kind) (placed settings c steps) ++ (knows settings c steps).unheard ≡ changes settings steps }
    ensures looked { (settings : Settings) (c at secs : ℕ) (q : List Step)
        → (knows settings c (q ++ Step.Look at secs c ∷ [])).unheard ≡ [] }
{}

/// The book counts the connections that hold a slot, which are those that no release found closed.
pub fn slots_are_counted()
    ensures { (answers : Serving) (settings : Settings) (q : List Step)
        → (membership answers settings q).book.taken ≡ slots_held answers settings q }
{}

/// Whatever the others do, and whenever: take two lists of steps by which a client hears the same events and the same changes of
/// the server between them. If neither turned it away, both send it the same.
pub fn interleavings_change_nothing()
    ensures { (answers : Serving) (settings : Settings) (c : ℕ) (p q : List Step)
        → placed settings c p ≡ placed settings c q → was_refused answers settings c p ≡ false → was_refused answers settings c q ≡ false
        → filter (is_for c) (outs answers settings p) ≡ filter (is_for c) (outs answers settings q) }
{}

/// What is sent for the first of some steps is the front of what is sent for all. That holds for one client and for all. What one
/// step more adds to what a client is sent is its gain. That is what the rules send it, at its slate, for what it hears with this
/// step.
pub fn more_steps_send_more()
    ensures one { (answers : Serving) (settings : Settings) (c : ℕ) (p r : List Step)
        → IsPrefix (sent answers settings (placed settings c p)) (sent answers settings (placed settings c (p ++ r))) }
    ensures all { (answers : Serving) (settings : Settings) (p r : List Step)
        → IsPrefix (outs answers settings p) (outs answers settings (p ++ r)) }
    ensures more { (answers : Serving) (settings : Settings) (c : ℕ) (q : List Step) (s : Step)
        → sent answers settings (placed settings c (q ++ s ∷ []))
        ≡ sent answers settings (placed settings c q) ++ placed_gain answers settings c q s }
    ensures gain { (answers : Serving) (settings : Settings) (c : ℕ) (q : List Step) (s : Step)
        → placed_gain answers settings c q s ≡ sent_after answers (placed_slate answers settings c q) (puts c (knows settings c q) s) }
{}

/// Each datagram that a client is sent answers the one by which it began, as `replies_answer_what_was_asked` says, at the
/// configurations as it heard them; and each frame answers one of those that it received before.
pub fn replies_of_steps_answer_what_was_asked()
    ensures { (settings : Settings) (given : Req (Unit {0}) → ℕ → Answer) (verdicts : Verdicts) (c : ℕ) (steps : List Step)
        → All (IsReply (wrapped_serving settings given verdicts) settings (placed settings c steps))
        (sent (wrapped_serving settings given verdicts) settings (placed settings c steps)) }
{
    dns_middleware::wrapped_replies_respond();
    dns_middleware::wrapped_replies_fit();
    dns_service::cut_fits();
}

/// A client is sent its replies in order, as if it heard of all at once: each message that it is sent is the reply to one poll
/// of one of its requests, or refuses a response with FORMERR. So is each frame of its queue. Those of one request stand in the
/// order of its polls, each at most once. Take a reply that one of its requests was polled for. It was sent, or waits in the queue,
/// or is the one that its request holds, or was dropped outside of a transaction. It is dropped if the queue stood full or the
/// response budget was spent in that window of time; a connection that closes forgets its requests. If a service is served in its
/// layers, each reply that is sent carries the identifier of the request that it replies to, and QR.
pub fn replies_of_steps_keep_their_order()
    ensures sent { (answers : Serving) (settings : Settings) (c : ℕ) (steps : List Step)
        → AreFrom answers (trail_of answers settings (placed settings c steps)).went
        (messages_sent (sent answers settings (placed settings c steps))) }
    ensures waits { (answers : Serving) (settings : Settings) (c : ℕ) (steps : List Step)
        → AreQueued answers (trail_of answers settings (placed settings c steps)).waiting (placed_slate answers settings c steps).queue }
    ensures order { (answers : Serving) (settings : Settings) (c k : ℕ) (steps : List Step)
        → IsRising (polls_of k (in_order (trail_of answers settings (placed settings c steps)))) }
    ensures missing { (answers : Serving) (settings : Settings) (c k n : ℕ) (steps : List Step) (r : SlateRequest)
        → slice_get (placed_slate answers settings c steps).requests k ≡ Some r → n < r.polls
        → reply_at answers (poll_of k r n) ≢ None
        → IsSomewhere answers k r (trail_of answers settings (placed settings c steps)) (poll_of k r n) }
    ensures responds { (settings : Settings) (given : Req (Unit {0}) → ℕ → Answer) (verdicts : Verdicts) (c : ℕ) (steps : List Step)
        → AreAnswers (trail_of (wrapped_serving settings given verdicts) settings (placed settings c steps)).went
        (messages_sent (sent (wrapped_serving settings given verdicts) settings (placed settings c steps))) }
{
    dns_middleware::wrapped_replies_respond();
}

/// A piece cut in two, both parts at its moment and seconds and next to each other, changes nothing for anybody, wherever it is cut.
pub fn pieces_of_steps_may_be_cut()
    ensures { (answers : Serving) (settings : Settings) (client at secs : ℕ) (a b : List ℕ) (q r : List Step)
        → outs answers settings (q ++ Step.Own (piece_of client at secs (a ++ b)) ∷ r)
        ≡ outs answers settings (q ++ Step.Own (piece_of client at secs a) ∷ Step.Own (piece_of client at secs b) ∷ r) }
{
    dns_session::pieces_may_be_cut();
}

/// Take who looks after each event that all clients hear, and looks beside it too. It is sent, by the rules for it alone, what it
/// is sent if it hears of each event at once. Let some look then by rising number, all exchanges and connections among them. Then
/// all that is sent is what is sent if all hear at once. There are no more events than versions.
pub fn looks_without_delay_change_nothing()
    ensures one { (answers : Serving) (settings : Settings) (cs : List ℕ) (c : ℕ) (es : List Event)
        → list_any (nat_eq c) cs ≡ true → length es ≤ last_version
        → sent answers settings (placed settings c (undelayed cs es)) ≡ sent answers settings (own c es) }
    ensures all { (answers : Serving) (settings : Settings) (cs : List ℕ) (es : List Event)
        → IsStrictlySortedBy nat_cmp cs → ((c : ℕ) → is_member answers settings c es ≡ true → list_any (nat_eq c) cs ≡ true)
        → length es ≤ last_version
        → outs answers settings (undelayed cs es) ≡ out answers settings es }
{}

/// A look changes nothing of what others hear. A look changes nothing for anybody if its client is no exchange and no connection.
/// So does one of a client that has heard of all changes of the server.
pub fn idle_looks_change_nothing()
    ensures others { (settings : Settings) (c d at secs : ℕ) (q r : List Step)
        → c ≢ d → placed settings d (q ++ Step.Look at secs c ∷ r) ≡ placed settings d (q ++ r) }
    ensures stranger { (answers : Serving) (settings : Settings) (c at secs : ℕ) (q r : List Step)
        → is_served answers settings c q ≡ false
        → outs answers settings (q ++ Step.Look at secs c ∷ r) ≡ outs answers settings (q ++ r) }
    ensures again { (answers : Serving) (settings : Settings) (c at secs : ℕ) (q r : List Step)
        → (knows settings c q).unheard ≡ []
        → outs answers settings (q ++ Step.Look at secs c ∷ r) ≡ outs answers settings (q ++ r) }
{}

/// An event of a client that is no exchange and no connection, and doesn't begin with it, changes nothing for anybody.
pub fn steps_of_strangers_change_nothing()
    ensures { (answers : Serving) (settings : Settings) (q r : List Step) (e : Event)
        → is_wide e.kind ≡ false → is_first answers settings q e ≡ false → is_served answers settings e.client q ≡ false
        → outs answers settings (q ++ Step.Own e ∷ r) ≡ outs answers settings (q ++ r) }
{}

/// Once a connection is closed, an event of it that is no release changes nothing for anybody, nor does a second release.
pub fn steps_of_closed_connections_change_nothing()
    ensures closed { (answers : Serving) (settings : Settings) (q r : List Step) (e : Event)
        → is_wide e.kind ≡ false → e.kind ≢ EventKind.Release → (placed_slate answers settings e.client q).phase ≡ Closed
        → outs answers settings (q ++ Step.Own e ∷ r) ≡ outs answers settings (q ++ r) }
    ensures again { (answers : Serving) (settings : Settings) (q r : List Step) (e : Event)
        → e.kind ≡ EventKind.Release → (placed_slate answers settings e.client q).freed ≡ true
        → outs answers settings (q ++ Step.Own e ∷ r) ≡ outs answers settings (q ++ r) }
{}

/// A turn that names no unfinished request, and a piece of no octets, change nothing for anybody.
pub fn idle_steps_change_nothing()
    ensures turn { (answers : Serving) (settings : Settings) (q r : List Step) (e : Event) (k : ℕ)
        → e.kind ≡ EventKind.Turn k → IsFinished (slice_get (placed_slate answers settings e.client q).requests k)
        → outs answers settings (q ++ Step.Own e ∷ r) ≡ outs answers settings (q ++ r) }
    ensures piece { (answers : Serving) (settings : Settings) (q r : List Step) (e : Event)
        → e.kind ≡ EventKind.Piece []
        → outs answers settings (q ++ Step.Own e ∷ r) ≡ outs answers settings (q ++ r) }
{}

/// A datagram and an offer under a used number change nothing for anybody.
pub fn steps_of_used_numbers_change_nothing()
    ensures datagram { (answers : Serving) (settings : Settings) (q r : List Step) (e : Event) (addr : SocketAddr) (o : List ℕ)
        → e.kind ≡ EventKind.Datagram addr o → is_unused (placed_slate answers settings e.client q).phase ≡ false
        → outs answers settings (q ++ Step.Own e ∷ r) ≡ outs answers settings (q ++ r) }
    ensures offer { (answers : Serving) (settings : Settings) (q r : List Step) (e : Event) (addr : SocketAddr)
        → e.kind ≡ EventKind.Offer addr → is_unused (placed_slate answers settings e.client q).phase ≡ false
        → outs answers settings (q ++ Step.Own e ∷ r) ≡ outs answers settings (q ++ r) }
{}

/// Once the server shut down, whoever heard of it, a datagram, an offer, and another reconfigure and shutdown change nothing for
/// anybody.
pub fn late_steps_change_nothing()
    ensures datagram { (answers : Serving) (settings : Settings) (q r : List Step) (e : Event) (addr : SocketAddr) (o : List ℕ)
        → e.kind ≡ EventKind.Datagram addr o → (membership answers settings q).book.closed ≡ true
        → outs answers settings (q ++ Step.Own e ∷ r) ≡ outs answers settings (q ++ r) }
    ensures offer { (answers : Serving) (settings : Settings) (q r : List Step) (e : Event) (addr : SocketAddr)
        → e.kind ≡ EventKind.Offer addr → (membership answers settings q).book.closed ≡ true
        → outs answers settings (q ++ Step.Own e ∷ r) ≡ outs answers settings (q ++ r) }
    ensures reconfigure { (answers : Serving) (settings : Settings) (q r : List Step) (e : Event) (dgram : Dgram) (stream : Stream)
        → e.kind ≡ EventKind.Reconfigure dgram stream → (membership answers settings q).book.closed ≡ true
        → outs answers settings (q ++ Step.Own e ∷ r) ≡ outs answers settings (q ++ r) }
    ensures shutdown { (answers : Serving) (settings : Settings) (q r : List Step) (e : Event)
        → e.kind ≡ EventKind.Shutdown → (membership answers settings q).book.closed ≡ true
        → outs answers settings (q ++ Step.Own e ∷ r) ≡ outs answers settings (q ++ r) }
{}
