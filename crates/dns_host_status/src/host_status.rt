//! The status of a host that was served.

ghost use Rattle.std.specs.Prelude.{◌≡◌};
ghost use Rattle.dns_host_status.specs.HostStatus.{status_of_host};

use dns_host::HostEnd;
use dns_run::Status;

/// The status that stands for a host's end.
pub fn status_of_host(end: HostEnd) -> Status
    ensures { result ≡ status_of_host end }
{
    match end {
        HostEnd::Done => Status::Done,
        HostEnd::OutOfMemory => Status::OutOfMemory,
        HostEnd::HostFault => Status::HostFault,
    }
}
