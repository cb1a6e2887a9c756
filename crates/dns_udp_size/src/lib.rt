//! The size of replies over UDP to requests without EDNS.
//!
//! - `ClassicUdpSize` is a layer round a service. A request over UDP without an OPT record is passed on with a hint of 512
//!   octets. Each other request is passed on as it came.
//!
//! ```text
//! request without OPT -> a hint of 512 octets -> the service inside
//! ```
//!
//! It stands round `wrap` of dns_middleware, whose mandatory layer cuts each reply to the hint that it finds. So a client
//! that says nothing of EDNS gets at most 512 octets (RFC 1035, section 4.2.1), and one that does gets what both allow
//! (RFC 6891, section 6.2.5).
//!
//! # What is proved
//!
//! - The answers are those of the service inside to the request as it is passed on, and so is the hint that is left.
//! - A call that is refused leaves the request as it was.
//!
//! # What a body could still get away with
//!
//! A service inside that looks at no hint gives replies of any size.
#![tactic(auto)]

mod classic;

pub use classic::ClassicUdpSize;
