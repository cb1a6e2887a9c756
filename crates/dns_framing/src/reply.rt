//! Replies as frames.

ghost use Rattle.std.specs.Prelude.{◌≡◌};
ghost use Rattle.dns_base.specs.Wire.{wire};
ghost use Rattle.dns_framing.specs.Frames.{framed};

use dns_base::AdditionalBuilder;
use dns_service::Octets;

/// A reply as a frame, which is not copied.
pub fn frame_of(reply: AdditionalBuilder) -> Octets
    ensures { result ≡ framed (wire reply.message) }
{
    Octets::from_vec(reply.finish().into_octets())
}
