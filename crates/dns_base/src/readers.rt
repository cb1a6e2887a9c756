//! What a built message is read to have.

ghost use Rattle.std.specs.Prelude.{◌≡◌};
ghost use Rattle.dns_base.specs.Wire.{wire};
ghost use Rattle.dns_base.specs.Sections.{all_of, questions_of, standing_additional};
ghost use Rattle.dns_base.specs.Readers.{AreReadable, readable_items, resources};

use crate::draft::Draft;
use dns_message::{QuestionIter, RecordIter};

impl Draft {
    /// The questions, in order.
    pub(crate) fn questions(&self) -> QuestionIter<'_>
        ensures value { result ≡ all_of (questions_of (wire self.now.message)) }
        ensures readable { AreReadable result }
        ensures questions { readable_items result ≡ self.now.message.questions }
    {
        self.as_message().question()
    }

    /// The additional records, in order, from the place where they begin.
    pub(crate) fn additional_records(&self) -> RecordIter<'_>
        ensures value { result ≡ all_of (standing_additional (wire self.now.message)) }
        ensures readable { AreReadable result }
        ensures records { resources result ≡ self.now.message.additional }
    {
        let start = self.additional_start();
        let count = self.counts().arcount;
        RecordIter::of(self.as_slice(), start, count)
    }
}
