//! What is done with one query more than may be asked at once.

use serde::{Deserialize, Deserializer, Format};
use std::alloc::Global;
use std::borrow::CowStr;

/// What is done with one query more than may be asked at once.
#[derive(Clone, Copy)]
pub enum WhenFull {
    /// Its client is answered by SERVFAIL.
    Fail,
    /// It waits until there is room.
    Wait,
}

impl<'de> Deserialize<'de> for WhenFull {
    fn deserialize<F: Format>(
        alloc: Global,
        from: &mut Deserializer<'de, '_, F>,
    ) -> Result<WhenFull, F::Error> {
        let text = CowStr::deserialize(alloc, from)?;
        match text.as_str() {
            "fail" => Ok(WhenFull::Fail),
            "wait" => Ok(WhenFull::Wait),
            _ => Err(from.custom("neither fail nor wait")),
        }
    }
}
