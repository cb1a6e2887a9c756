//! An accept object that tells, over any, and whose links tell.

ghost use Rattle.std.specs.Prelude.{◌≡◌, ◌≤◌};
ghost use Rattle.dns_io.specs.Causes.{Observed};
ghost use Rattle.dns_io.specs.AcceptTraffic.{AcceptCause, AcceptMoves};
ghost use Rattle.dns_witness.specs.Since.{AcceptSince};

use crate::arrivals::{AcceptCall, SeenAccepts};
use crate::witness::Witness;
use dns_io::{AcceptAnswer, AsyncAccept};
use std::snapshot::Snapshot;
use std::sync::Wait;

/// An accept object, and who came by its calls. Each link that it gives is a witness. If the accept object itself tells, those who
/// came are all that came since it was taken.
#[derive(Drop)]
pub struct WitnessAccept<A: AsyncAccept> {
    accept: A,
    start: Snapshot<A>,
    seen: SeenAccepts,
    ghost tied: { ∥ Observed (A.AsyncAccept.tells accept) (A.AsyncAccept.tells start.value)
        (AcceptSince (A.AsyncAccept.accept_traffic start.value) (A.AsyncAccept.accept_traffic accept) seen.accept_traffic) ∥₁ },
}

impl<A: AsyncAccept> WitnessAccept<A> {
    ghost use Rattle.dns_witness.specs.Seen.{no_accepts};

    /// Of an accept object, by which nobody came through this so far.
    #[tactic(auto, using(crate::proofs::AcceptTies::tied_first))]
    pub fn new(accept: A) -> WitnessAccept<A>
        ensures accept { (result.accept ≡ accept) × (result.start.value ≡ accept) }
        ensures seen { result.seen.accept_traffic ≡ no_accepts }
    {
        let start = Snapshot::of(&accept);
        WitnessAccept {
            accept,
            start,
            seen: SeenAccepts::new(),
        }
    }

    /// The accept object.
    pub fn into_inner(self) -> A
        ensures { result ≡ self.accept }
    {
        let WitnessAccept { accept, .. } = self;
        accept
    }

    /// True of each, after any calls: if the accept object tells, those who were seen to come are all that came since.
    pub fn is_tied(&self)
        ensures { ∥ Observed (A.tells self.now.accept) (A.tells self.now.start.value)
            (AcceptSince (A.accept_traffic self.now.start.value) (A.accept_traffic self.now.accept) self.now.seen.accept_traffic) ∥₁ }
    {}
}

impl<A: AsyncAccept> AsyncAccept for WitnessAccept<A> {
    type Link = Witness<A::Link>;

    ghost tells = { λ _. Unit {0} };

    ghost accept_traffic = { λ w. w.seen.accept_traffic };

    ghost faults = { λ w. A.faults w.accept };

    #[tactic(auto, using(crate::proofs::AcceptTies::tied_caller, crate::proofs::AcceptTies::tied_nobody, crate::proofs::AcceptTies::tied_still))]
    fn poll_accept(&mut self) -> AcceptAnswer<Witness<A::Link>>
        ensures moves { Observed (Unit {0}) (Unit {0}) (AcceptMoves result self.old.seen.accept_traffic self.new.seen.accept_traffic) }
        ensures later { A.faults self.old.accept ≤ A.faults self.new.accept }
        ensures cause { AcceptCause result (A.faults self.old.accept) (A.faults self.new.accept) }
        // The accept object itself gave this.
        ensures inner { Observed (A.tells self.new.accept) (A.tells self.old.accept)
            (AcceptMoves result (A.accept_traffic self.old.accept) (A.accept_traffic self.new.accept)) }
    {
        match self.accept.poll_accept() {
            AcceptAnswer::Accepted(link, from) => {
                self.seen.arrived(&AcceptCall::Accepted(from));
                AcceptAnswer::Accepted(Witness::new(link), from)
            }
            AcceptAnswer::Again => {
                self.seen.arrived(&AcceptCall::Empty);
                AcceptAnswer::Again
            }
            AcceptAnswer::Failed => AcceptAnswer::Failed,
        }
    }

    #[tactic(auto, using(crate::proofs::AcceptTies::tied_still))]
    fn wait<R: Wait>(&mut self, rt: &R, millis: u64) {
        self.accept.wait(rt, millis);
    }
}
