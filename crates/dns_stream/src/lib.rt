//! Streams of replies that are polled, and replies that are mapped on the way. The layers of dns_layers are made of
//! both.
//!
//! - `MiddlewareStream` is one of the streams that a layer may answer with. It is the inner service's, the inner one
//!   mapped, or the layer's own.
//! - `PostprocessingStream` maps each item of a stream once, by a type that implements `Postprocess`.
//! - `Postprocess::post` maps one item for one request; what it gives is a definition of the layer.
//!
//! It exports `Now` and `Once` of dns_service, a future that is ready and a stream of one item.
//!
//! ```text
//! inner.call(request) -> future -> stream -> item -> Postprocess::post -> item of the layer
//! ```
//!
//! # What is proved
//!
//! - A `MiddlewareStream` answers as what it holds. Poll for poll it gives what the stream inside gives (`Follows`).
//! - A `PostprocessingStream` answers as the stream inside, each item mapped exactly once, errors and the end
//!   included as the definition `each_mapped` says.
//! - A future that is ready is polled as its stream in the same call, so that no poll is lost.
//! - `post` gives exactly the mapped item, or no memory.
//!
//! # What a body could still get away with
//!
//! How many items a stream says it has left: a mapped stream says that it is unknown. How long a poll takes.
#![tactic(auto)]

mod middleware;
mod postprocess;

pub use dns_service::{Now, Once, OutOfMemory};
pub use middleware::MiddlewareStream;
pub use postprocess::{Postprocess, PostprocessingStream};
