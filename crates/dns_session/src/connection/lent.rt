//! Frames of a piece that are taken from the piece itself.

ghost use Rattle.std.specs.Prelude.{◌≡◌, ◌++◌, [], IfOk, MatchOption, Some};
ghost use Rattle.dns_session.specs.Serving.{serving};
ghost use Rattle.dns_session.specs.Frames.{frames};
ghost use Rattle.dns_session.specs.Connections.{take_frames};
ghost use Rattle.dns_framing.specs.PolledRequest.{request_answer};

use crate::connection::OpenConnection;
use crate::outcome::Outcome;
use dns_framing::{SharedService, first_of};
use dns_name::OutOfMemory;
use std::alloc::Global;

impl<W: SharedService> OpenConnection<W> {
    ghost use Rattle.dns_session.specs.Goings.{Leads, TakesLent};

    /// Takes the frames of a piece, before which nothing is kept, up to a short one. What is left of it is kept.
    pub(crate) fn take_lent(
        &mut self,
        alloc: Global,
        service: &W,
        at: u64,
        secs: u64,
        piece: &[u8],
    ) -> Result<Outcome, OutOfMemory>
        requires can_call { W.can_call service.now }
        requires empty { self.old.framer ≡ [] }
        ensures { IfOk result (λ outcome. Leads (request_answer W.Future.answer W.Stream.answer)
            (serving (W.answer service.now) (W.hint service.now)) (record self.old { framer = piece.now }) self.new outcome
            (λ s. take_frames at secs (frames piece.now) s)) }
    {
        let mut rest = piece;
        'taking: loop {
            let (ended, size) = self.take_lent_frame(alloc, service, at, secs, rest)?;
            if let Some(outcome) = ended {
                return Ok(outcome);
            }
            rest = &rest[size..];
        }
    }

    /// Takes the first frame of octets, before which nothing is kept, and says how many octets it was with its length. The
    /// outcome is given if no more is to be taken.
    fn take_lent_frame(
        &mut self,
        alloc: Global,
        service: &W,
        at: u64,
        secs: u64,
        octets: &[u8],
    ) -> Result<(Option<Outcome>, usize), OutOfMemory>
        requires can_call { W.can_call service.now }
        requires empty { self.old.framer ≡ [] }
        ensures { IfOk result (λ p. MatchOption p.0
            (TakesLent (request_answer W.Future.answer W.Stream.answer)
            (serving (W.answer service.now) (W.hint service.now)) at secs self.old self.new octets.now p.1)
            (λ outcome. Leads (request_answer W.Future.answer W.Stream.answer) (serving (W.answer service.now) (W.hint service.now))
            (record self.old { framer = octets.now }) self.new outcome (λ s. take_frames at secs (frames octets.now) s))) }
    {
        let Some((frame, size)) = first_of(alloc, octets)? else {
            return self.keep_lent(alloc, octets);
        };
        let ended = self.take_frame(alloc, service, at, secs, frame)?;
        Ok((ended, size))
    }

    /// Keeps octets that begin with no whole frame. No more is to be taken then.
    fn keep_lent(
        &mut self,
        alloc: Global,
        octets: &[u8],
    ) -> Result<(Option<Outcome>, usize), OutOfMemory>
        ensures { IfOk result (λ p. (p.0 ≡ Some Outcome.Nothing) × (p.1 ≡ 0)
            × (self.new ≡ record self.old { framer = self.old.framer ++ octets.now })) }
    {
        self.framer.feed(alloc, octets)?;
        Ok((Some(Outcome::Nothing), 0))
    }
}
