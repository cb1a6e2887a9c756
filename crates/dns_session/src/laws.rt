//! Laws of the rules.

ghost use Rattle.dns_session.specs.Serving.{Serving};
ghost use Rattle.std.specs.Prelude.{◌≡◌, ℕ, List, [], ◌++◌, true};
ghost use Rattle.dns_framing.specs.Answer.{Answer};
ghost use Rattle.dns_framing.specs.Req.{Req};
ghost use Rattle.dns_session.specs.Frames.{frames, behind_frames};
ghost use Rattle.dns_session.specs.Pieces.{piece_of, IsCut};
ghost use Rattle.dns_events.specs.declared.event.Event.{Event};
ghost use Rattle.dns_session.specs.Rule.{rule};
ghost use Rattle.dns_session.specs.Slate.{Slate};
ghost use Rattle.dns_session.specs.Spent.{is_spent};

/// A piece cut in two, both parts at its moment and seconds, changes nothing, at every slate and wherever it is cut.
pub fn pieces_may_be_cut()
    ensures { (answers : Serving) (client at secs : ℕ) (a b : List ℕ) (s : Slate)
        → IsCut answers (piece_of client at secs (a ++ b)) (piece_of client at secs a) (piece_of client at secs b) s }
{}

/// The frames of a longer stream are those of the shorter one, and then those of what was left and what came.
pub fn frames_go_on()
    ensures { (o p : List ℕ) → frames (o ++ p) ≡ frames o ++ frames (behind_frames o ++ p) }
{}

/// A client whose events change nothing any more is told nothing by any of them, and stays so.
pub fn spent_clients_are_sent_nothing()
    ensures quiet { (answers : Serving) (e : Event) (s : Slate) → is_spent s ≡ true → (rule answers e s).1 ≡ [] }
    ensures stays { (answers : Serving) (e : Event) (s : Slate) → is_spent s ≡ true → is_spent (rule answers e s).0 ≡ true }
{}
