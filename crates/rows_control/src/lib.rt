//! Tests of control sockets and of a page of metrics over loopback: what can't be a row. The crate has tests alone.
//!
//! - `control`: `Control` and `Caller` of dns_control, at a path in `/tmp`.
//! - `endpoint`: `Endpoint` of dns_metrics on loopback, at a port that the system picks. `One` is what it measures: one
//!   metric.
//!
//! Each module has one test. It tries its cases in order, and ends with the name of the first that doesn't hold.
//!
//! ```text
//! Control::bind -> the test connects and says an order -> caller -> order -> say -> the test reads what is said
//! Endpoint::start -> a request over a connection of its own -> how the answer begins and ends
//! ```
//!
//! # What its tests show
//!
//! - An order that is said at a socket is heard as it was said, and what is answered is heard by who said it.
//! - A caller that says nothing is left in the end.
//! - A socket that is answered is refused to a second program and stays. One that was abandoned is taken over.
//! - A file that is no socket is refused and stays.
//! - A page is given to GET and its head to HEAD; other methods, paths and texts get 405, 404 and 400.
//! - A page is given beside a connection that says nothing, which is closed in the end.
//! - A shutdown ends the endpoint, and nothing listens at its port then.
//!
//! # What they don't show
//!
//! Two programs that start at once beside an abandoned socket aren't tried. Nothing is said here of who may write to the
//! socket: that is up to the folder's permissions. The text of a page is judged by rows_metrics, and how zoned and forwardd
//! hear their orders by tools/zoned and tools/forwardd.
#![tactic(auto)]

#[cfg(test)]
mod control;
#[cfg(test)]
mod endpoint;
