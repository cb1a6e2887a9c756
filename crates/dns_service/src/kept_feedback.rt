//! What a result tells besides its reply, as it is kept.

ghost use Rattle.std.specs.Prelude.{◌≡◌, Some};
ghost use Rattle.dns_service.specs.KeptFeedback.{feedback_of};

use crate::service::ServiceFeedback;

/// A feedback or none in one enum, which takes half of what an option of a feedback takes. Results are moved often.
#[derive(Clone, Copy)]
pub(crate) enum KeptFeedback {
    /// Nothing.
    Nothing,
    /// No idle timeout holds from now on.
    NoTimeout,
    /// This idle timeout in ms holds from now on.
    Timeout(u64),
    /// A transaction begins.
    Begins,
    /// A transaction ends.
    Ends,
}

impl KeptFeedback {
    /// This feedback.
    pub(crate) fn some(feedback: ServiceFeedback) -> KeptFeedback
        ensures { feedback_of result ≡ Some feedback }
    {
        match feedback {
            ServiceFeedback::Reconfigure { idle_timeout: None } => KeptFeedback::NoTimeout,
            ServiceFeedback::Reconfigure {
                idle_timeout: Some(millis),
            } => KeptFeedback::Timeout(millis),
            ServiceFeedback::BeginTransaction => KeptFeedback::Begins,
            ServiceFeedback::EndTransaction => KeptFeedback::Ends,
        }
    }

    /// The feedback, if there is one.
    pub(crate) fn feedback(self) -> Option<ServiceFeedback>
        ensures { result ≡ feedback_of self }
    {
        match self {
            KeptFeedback::Nothing => None,
            KeptFeedback::NoTimeout => Some(ServiceFeedback::Reconfigure { idle_timeout: None }),
            KeptFeedback::Timeout(millis) => Some(ServiceFeedback::Reconfigure {
                idle_timeout: Some(millis),
            }),
            KeptFeedback::Begins => Some(ServiceFeedback::BeginTransaction),
            KeptFeedback::Ends => Some(ServiceFeedback::EndTransaction),
        }
    }
}
