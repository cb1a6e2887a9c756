//! The stages of a message that is being built, which builders are marked by.

ghost use Rattle.std.specs.Prelude.{◌≡◌};
ghost use Rattle.dns_base.specs.declared.draft.Section.{Section};
ghost use Rattle.dns_base.specs.Msg.{Msg};
ghost use Rattle.dns_base.specs.Built.{Extent, IsWithin, to_header, to_questions, to_records};

use crate::draft::Section;

/// A stage of a message that is being built.
pub trait Stage: Drop {
    /// How far the message reaches.
    ghost extent: { Extent };
}

/// A stage at which records are added to a section.
pub trait RecordStage: Stage {
    /// The section.
    ghost section: { Section };

    /// The section that records are added to.
    fn section() -> Section
        ensures { result ≡ section };

    ghost is_last: { Self.extent ≡ to_records section };
}

/// A stage before a later one.
pub trait Before<Later: Stage>: Stage {
    ghost stays: { (m : Msg) → IsWithin Self.extent m → IsWithin Later.extent m };
}

/// The stage of the header.
#[derive(Debug, Drop)]
pub struct HeaderStage;

/// The stage of the questions.
#[derive(Debug, Drop)]
pub struct QuestionStage;

/// The stage of the answer records.
#[derive(Debug, Drop)]
pub struct AnswerStage;

/// The stage of the authority records.
#[derive(Debug, Drop)]
pub struct AuthorityStage;

/// The stage of the additional records.
#[derive(Debug, Drop)]
pub struct AdditionalStage;

impl Stage for HeaderStage {
    ghost extent = { to_header };
}

impl Stage for QuestionStage {
    ghost extent = { to_questions };
}

impl Stage for AnswerStage {
    ghost extent = { to_records Section.Answer };
}

impl Stage for AuthorityStage {
    ghost extent = { to_records Section.Authority };
}

impl Stage for AdditionalStage {
    ghost extent = { to_records Section.Additional };
}

impl RecordStage for AnswerStage {
    ghost use Rattle.std.specs.Prelude.{refl};

    ghost section = { Section.Answer };

    fn section() -> Section {
        Section::Answer
    }

    ghost is_last = { refl };
}

impl RecordStage for AuthorityStage {
    ghost use Rattle.std.specs.Prelude.{refl};

    ghost section = { Section.Authority };

    fn section() -> Section {
        Section::Authority
    }

    ghost is_last = { refl };
}

impl RecordStage for AdditionalStage {
    ghost use Rattle.std.specs.Prelude.{refl};

    ghost section = { Section.Additional };

    fn section() -> Section {
        Section::Additional
    }

    ghost is_last = { refl };
}

impl Before<QuestionStage> for HeaderStage {
    ghost stays = { λ _ h. h.records };
}

impl Before<AnswerStage> for HeaderStage {
    ghost stays = { λ _ h. record { authority = h.records.authority; additional = h.records.additional } };
}

impl Before<AnswerStage> for QuestionStage {
    ghost stays = { λ _ h. record { authority = h.authority; additional = h.additional } };
}

impl Before<AuthorityStage> for HeaderStage {
    ghost stays = { λ _ h. h.records.additional };
}

impl Before<AuthorityStage> for QuestionStage {
    ghost stays = { λ _ h. h.additional };
}

impl Before<AuthorityStage> for AnswerStage {
    ghost stays = { λ _ h. h.additional };
}

impl Before<AdditionalStage> for HeaderStage {
    ghost stays = { λ _ _. tt };
}

impl Before<AdditionalStage> for QuestionStage {
    ghost stays = { λ _ _. tt };
}

impl Before<AdditionalStage> for AnswerStage {
    ghost stays = { λ _ _. tt };
}

impl Before<AdditionalStage> for AuthorityStage {
    ghost stays = { λ _ _. tt };
}
