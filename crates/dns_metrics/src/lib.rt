//! What a running program measures, as a value, as text and as a page.
//!
//! - `Family` is a metric: its name, its help text, whether it is a counter or a gauge (`MetricKind`), and its samples. `Label` is a
//!   label of a sample, `Sample` its labels and its value. A name that isn't allowed is refused.
//! - `exposition` writes families in the exposition format of Prometheus, version 0.0.4.
//! - `Endpoint` answers `GET /metrics` over HTTP with that text, at an address, from a thread of its own. What is measured comes of
//!   a `Measured`, each time that it is asked for.
//! - `page_of` says which page a request asks for.
//!
//! ```text
//! # HELP forwardd_queries_total Queries of clients.
//! # TYPE forwardd_queries_total counter
//! forwardd_queries_total{transport="udp"} 17
//! ```
//!
//! A request for another path is answered with 404, and one by another method than GET and HEAD with 405. Each connection is closed
//! after its answer, and after 5 seconds whatever came; there are at most 8 at once, and one more is closed at once.
//!
//! # What is proved
//!
//! - The text is that of its families in the definition `Exposition`, octet for octet.
//! - Each name is allowed, and a name is refused only if it isn't.
//! - A request is answered as its method and path have it, and the page is the text of some families.
//!
//! # What a body could still get away with
//!
//! No clause says what sockets give, nor which families a `Measured` has. That no two families have one name is up to the program.
#![tactic(auto)]

mod endpoint;
mod error;
mod family;
mod names;
mod page;
mod text;
mod visits;

pub use endpoint::Endpoint;
pub use error::MetricError;
pub use family::{Family, Label, MetricKind, Sample};
pub use names::{is_label_name, is_metric_name};
pub use page::{Measured, Page, page_of};
pub use text::exposition;
