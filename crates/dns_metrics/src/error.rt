//! Why there is no metric.

ghost use Rattle.std.specs.Prelude.{◌≡◌};
ghost use Rattle.dns_metrics.specs.declared.error.MetricError.TheVariants.{OutOfMemory};

use std::alloc::{AllocError, AllocFailed};
use std::fmt;

/// Why there is no metric.
#[derive(Clone, Copy, Debug)]
pub enum MetricError {
    /// The name of a metric or a label isn't allowed.
    Name,
    OutOfMemory,
}

impl From<AllocError> for MetricError {
    ghost from_gives = { λ _ error. error ≡ OutOfMemory };

    fn from(_error: AllocError) -> MetricError {
        MetricError::OutOfMemory
    }
}

impl<T: Drop> From<AllocFailed<T>> for MetricError {
    ghost from_gives = { λ _ error. error ≡ OutOfMemory };

    fn from(_error: AllocFailed<T>) -> MetricError {
        MetricError::OutOfMemory
    }
}

impl fmt::Display for MetricError {
    fn fmt<W: fmt::Write>(&self, f: &mut fmt::Formatter<W>) -> fmt::Result {
        match self {
            MetricError::Name => f.write_str("a name that no metric or label may have"),
            MetricError::OutOfMemory => f.write_str("out of memory"),
        }
    }
}

impl std::error::Error for MetricError {}
