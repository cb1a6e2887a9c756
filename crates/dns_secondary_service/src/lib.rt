//! What a secondary server answers besides its zones.
//!
//! - `Withholding` is a layer round a service. A query for a name whose nearest zone has no data is answered SERVFAIL.
//!   All else goes to the service. `WithholdingFuture` and `WithholdingStream` are its replies.
//! - `NotifyTarget` is a target of NOTIFY. Its verdict is a function of class, name and sender. A zone that was woken is
//!   marked, and `take_woken` tells the mark to whoever checks the copies, and clears it.
//!
//! ```text
//! query  -> Withholding: SERVFAIL | the service inside
//! NOTIFY -> NotifyTarget: from the zone's primary: taken, and the zone is woken | NOTAUTH
//! ```
//!
//! A zone has no data before its first transfer and after EXPIRE. dns_secondary says when that is.
//!
//! # What is proved
//!
//! - The layer's answer is `withholding` of the service's, and so is the hint that it leaves.
//! - A zone is withheld only from names of which it is the nearest zone: one that is served below it answers.
//! - A NOTIFY that is of another class, of no such zone, or from another address than its primary's is NOTAUTH. Else it is
//!   taken.
//!
//! # What a body could still get away with
//!
//! A clause can't say what a mark holds that threads share. By reading the code, a zone is marked exactly if its NOTIFY is
//! taken.
#![tactic(auto)]

mod notify_target;
mod withholding;
mod withholding_replies;

pub use notify_target::{Decided, NotifyTarget};
pub use withholding::Withholding;
pub use withholding_replies::{WithholdingFuture, WithholdingStream};
