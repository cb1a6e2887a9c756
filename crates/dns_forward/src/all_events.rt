//! All events of a question, and what they lead to.

ghost use Rattle.std.specs.Prelude.{◌≡◌, List, [], ◌∷◌, ◌++◌, IfOk, OnOk};
ghost use Rattle.dns_forward.specs.declared.asking_event.AskingEvent.{AskingEvent as TheEvent};
ghost use Rattle.dns_forward.specs.declared.asking_event.AskingOutcome.{AskingOutcome as TheOutcome};
ghost use Rattle.dns_forward.specs.Asked.{Inquiry, asked_by, led_on, led_to};
ghost use Rattle.dns_forward.specs.Askings.{HasHeard};

use crate::asking::Asking;
use crate::asking_event::{AskingEvent, AskingOutcome, Ticked};
use dns_base::Message;
use dns_name::OutOfMemory;
use dns_route::SendError;
use dns_service::Polled;
use std::alloc::Global;

/// What comes of each event that an asking hears next.
pub fn ask_all(
    alloc: Global,
    asking: Asking,
    events: &[AskingEvent],
) -> Result<Vec<AskingOutcome>, OutOfMemory>
    ensures { IfOk result (λ os. (q : Inquiry) (es : List TheEvent) → HasHeard q es asking
        → asked_by q (es ++ events.now) ≡ asked_by q es ++ os.items) }
{
    let mut asking = asking;
    all_heard(alloc, &mut asking, events)
}

/// Gives the events to a borrowed asking, in order: one outcome for each.
fn all_heard(
    alloc: Global,
    asking: &mut Asking,
    events: &[AskingEvent],
) -> Result<Vec<AskingOutcome>, OutOfMemory>
    ensures { IfOk result (λ os. (q : Inquiry) (es : List TheEvent) → HasHeard q es asking.old
        → asked_by q (es ++ events.now) ≡ asked_by q es ++ os.items) }
{
    let mut outcomes = Vec::with_capacity(alloc, events.len())?;
    hear_all(alloc, asking, events, &mut outcomes)?;
    Ok(outcomes)
}

/// Each event is heard, and its outcome is appended to those before it.
fn hear_all(
    alloc: Global,
    asking: &mut Asking,
    events: &[AskingEvent],
    outcomes: &mut Vec<AskingOutcome>,
) -> Result<(), OutOfMemory>
    requires { outcomes.old.items ≡ [] }
    ensures { OnOk result ((q : Inquiry) (es : List TheEvent) → HasHeard q es asking.old
        → asked_by q (es ++ events.now) ≡ asked_by q es ++ outcomes.new.items) }
{
    'events: for event in events {
        hear_next(alloc, asking, event, outcomes)?;
    }
    Ok(())
}

/// An event is heard, and its outcome is appended to those before it.
fn hear_next(
    alloc: Global,
    asking: &mut Asking,
    event: &AskingEvent,
    outcomes: &mut Vec<AskingOutcome>,
) -> Result<(), OutOfMemory>
    ensures { OnOk result ((q : Inquiry) (es : List TheEvent) (before : List TheOutcome) → HasHeard q es asking.old
        → asked_by q es ≡ before ++ outcomes.old.items
        → HasHeard q (es ++ event.now ∷ []) asking.new × (asked_by q (es ++ event.now ∷ []) ≡ before ++ outcomes.new.items)) }
{
    let outcome = asking.apply_event(alloc, event)?;
    outcomes.push(outcome)?;
    Ok(())
}

/// What is answered to a question that was asked.
type Answered = Polled<Result<Message, SendError>>;

/// What one outcome leads to.
fn led_by(outcome: AskingOutcome) -> Answered
    ensures { result ≡ led_to (outcome ∷ []) }
{
    match outcome {
        AskingOutcome::OfArrival(Some(message)) => Polled::Ready(Ok(message)),
        AskingOutcome::OfTick(Ticked::GaveUp) => Polled::Ready(Err(SendError::Timeout)),
        _ => Polled::Pending,
    }
}

/// The answer that is there, or else what one outcome more leads to.
fn led_on(answer: Answered, outcome: AskingOutcome) -> Answered
    ensures { result ≡ led_on answer outcome }
{
    match answer {
        Polled::Pending => led_by(outcome),
        ready => ready,
    }
}

/// What outcomes lead to: the first answer, Timeout if it was given up, and else nothing yet.
pub fn led_to(outcomes: Vec<AskingOutcome>) -> Polled<Result<Message, SendError>>
    ensures { result ≡ led_to outcomes.items }
{
    let mut answer = Polled::Pending;
    'outcomes: for outcome in outcomes {
        answer = led_on(answer, outcome);
    }
    answer
}
