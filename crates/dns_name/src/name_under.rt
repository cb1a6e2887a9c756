//! Names below others.

ghost use Rattle.std.specs.Prelude.{◌≡◌, IfOk};
ghost use Rattle.dns_name.specs.Names.{name_under};

use crate::error::OutOfMemory;
use crate::name::Name;
use std::alloc::Global;

impl Name {
    /// The name with the labels of another after its own; none above 255 octets (RFC 1035, section 2.3.4).
    pub fn under(&self, alloc: Global, origin: &Name) -> Result<Option<Name>, OutOfMemory>
        ensures { IfOk result (λ o. o ≡ name_under origin.now self.now) }
    {
        let front = self.as_slice();
        let length = front.len() - 1;
        let behind = origin.as_slice();
        if length + behind.len() > 255 {
            return Ok(None);
        }
        let mut octets = Vec::from_slice(alloc, &front[..length])?;
        octets.extend_from_slice(behind)?;
        match Name::from_octets(octets) {
            Ok(name) => Ok(Some(name)),
            Err(_) => Ok(None),
        }
    }
}
