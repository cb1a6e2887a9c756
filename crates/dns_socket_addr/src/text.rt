//! Addresses as text.

use dns_name::{IpAddr, SocketAddr};
use std::fmt;

/// An address and a port as text, the address of IPv6 in brackets.
#[derive(Clone, Copy)]
pub struct SocketAddrText(pub SocketAddr);

impl fmt::Display for SocketAddrText {
    fn fmt<W: fmt::Write>(&self, f: &mut fmt::Formatter<W>) -> fmt::Result {
        let ip = self.0.ip;
        let port = self.0.port;
        match ip {
            IpAddr::V4(_) => write!(f, "{ip}:{port}"),
            IpAddr::V6(_) => write!(f, "[{ip}]:{port}"),
        }
    }
}
