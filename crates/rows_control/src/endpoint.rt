//! A page of metrics on loopback.

use dns_metrics::{Endpoint, Family, Measured, MetricError, MetricKind};
use std::alloc::Global;
use std::io::{self, Read, Write};
use std::net::{IpAddr, Ipv4Addr, Net, SocketAddr, TcpStream};

/// Loopback, at a port that the system picks.
fn here() -> SocketAddr {
    SocketAddr::new(IpAddr::V4(Ipv4Addr::LOCALHOST), 0)
}

/// One metric.
#[derive(Drop)]
struct One;

impl Measured for One {
    fn families(&self, alloc: Global) -> Result<Vec<Family>, MetricError> {
        let mut family = Family::new(alloc, "one", "One.", MetricKind::Gauge)?;
        family.add(Vec::new(alloc), 1)?;
        let mut families = Vec::new(alloc);
        families.push(family)?;
        Ok(families)
    }
}

/// What is said to these octets over a connection of its own, to its end.
fn said<R: Net<Stream = TcpStream>>(
    rt: &R,
    alloc: Global,
    address: SocketAddr,
    asked: &[u8],
) -> io::Result<String> {
    let mut stream = TcpStream::connect(rt, address)?;
    stream.write_all(asked)?;
    io::read_to_string(alloc, stream)
}

/// Whether what is said to these octets begins and ends so.
fn says<R: Net<Stream = TcpStream>>(
    rt: &R,
    alloc: Global,
    address: SocketAddr,
    asked: &[u8],
    first: &str,
    last: &str,
) -> bool {
    match said(rt, alloc, address, asked) {
        Ok(said) => said.as_str().starts_with(first) && said.as_str().ends_with(last),
        Err(_) => false,
    }
}

/// Whether each page is as it is wanted.
fn pages_hold<R: Net<Stream = TcpStream>>(rt: &R, alloc: Global, address: SocketAddr) -> bool {
    let text = "\r\n\r\n# HELP one One.\n# TYPE one gauge\none 1\n";
    let ok =
        "HTTP/1.1 200 OK\r\nconnection: close\r\ncontent-type: text/plain; version=0.0.4; charset=utf-8\r\n";
    let get = b"GET /metrics HTTP/1.1\r\nHost: h\r\n\r\n".as_slice();
    let head = b"HEAD /metrics HTTP/1.1\r\nHost: h\r\n\r\n".as_slice();
    let post = b"POST /metrics HTTP/1.1\r\nHost: h\r\nContent-Length: 1\r\n\r\nx".as_slice();
    let other = b"GET /other HTTP/1.1\r\nHost: h\r\n\r\n".as_slice();
    says(rt, alloc, address, get, ok, text)
        && says(rt, alloc, address, head, ok, "\r\n\r\n")
        && says(rt, alloc, address, post, "HTTP/1.1 405 ", "\r\n\r\n")
        && says(rt, alloc, address, other, "HTTP/1.1 404 ", "\r\n\r\n")
        && says(rt, alloc, address, b"x\r\n\r\n", "HTTP/1.1 400 ", "")
}

/// Whether a page is given beside a connection that says nothing, which is closed in the end.
fn closes_late<R: Net<Stream = TcpStream>>(rt: &R, alloc: Global, address: SocketAddr) -> bool {
    let Ok(mut silent) = TcpStream::connect(rt, address) else {
        return false;
    };
    let mut octet = [0u8];
    pages_hold(rt, alloc, address) && matches!(silent.read(&mut octet), Ok(0))
}

/// A page does as is wanted, and else what doesn't is named.
#[test]
fn the_page_holds(rt: HostRuntime) -> Result<(), &'static str> {
    let alloc = rt.alloc();
    let Ok(endpoint) = Endpoint::start(rt, alloc, here(), One) else {
        return Err("a_thread_serves");
    };
    let address = endpoint.address();
    if !pages_hold(&rt, alloc, address) {
        return Err("pages_are_given");
    }
    if !closes_late(&rt, alloc, address) {
        return Err("a_silent_connection_is_closed");
    }
    if endpoint.shutdown(&rt).is_err() {
        return Err("a_shutdown_ends");
    }
    if TcpStream::connect(&rt, address).is_ok() {
        return Err("nothing_listens_behind_the_end");
    }
    Ok(())
}
