//! What a zone was made of.

ghost use Rattle.std.specs.Prelude.{◌≡◌};
ghost use Rattle.std.specs.List.{AllByRecursion};
ghost use Rattle.dns_zone.specs.Owned.{AreLawful, HasTypedData};

use crate::zone::Zone;
use dns_base::Record;
use dns_name::Name;
use std::fmt;

impl Zone {
    /// The name at which it begins.
    pub fn apex(&self) -> &Name
        ensures { result.now ≡ self.now.apex }
    {
        &self.apex
    }

    /// The records of the zone, in the order in which they were given.
    pub fn records(&self) -> &[Record]
        ensures value { result.now ≡ self.now.records }
        ensures lawful { AreLawful result.now }
        ensures typed { AllByRecursion HasTypedData result.now }
    {
        self.records.as_slice()
    }
}

impl fmt::Debug for Zone {
    fn fmt<W: fmt::Write>(&self, f: &mut fmt::Formatter<W>) -> fmt::Result {
        f.debug_struct("Zone")
            .field("apex", &self.apex)
            .field("records", &self.records)
            .finish()
    }
}
