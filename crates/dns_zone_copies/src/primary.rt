//! The connection to a primary.

use anyhow::bail;
use dns_base::AdditionalBuilder;
use dns_message::Message;
use dns_name::SocketAddr;
use dns_peer_keys::{Key, Mac, SignedRequest, sign_request};
use dns_socket_addr::to_std;
use std::alloc::Global;
use std::io::{Read, Write};
use std::net::{Net, TcpStream};
use std::rt::Clock;
use std::sync::atomic::{AtomicBool, Ordering};
use std::time::Duration;

/// How long a connection, a read or a write may take.
const STEP_SECONDS: u64 = 10;

/// Begins a connection to a primary. The first write waits for it.
pub(crate) fn connect<N: Net>(net: &N, primary: SocketAddr) -> anyhow::Result<TcpStream> {
    let step = Some(Duration::from_secs(STEP_SECONDS));
    let stream = TcpStream::from(mio::net::TcpStream::connect(net, to_std(primary))?);
    stream.set_nonblocking(false)?;
    stream.set_read_timeout(step)?;
    stream.set_write_timeout(step)?;
    Ok(stream)
}

/// The seconds since 1970.
pub(crate) fn seconds<R: Clock>(rt: &R) -> anyhow::Result<u64> {
    Ok(rt.since_1970()?.as_secs())
}

/// Sends a message.
pub(crate) fn send<S: Write>(stream: &mut S, message: AdditionalBuilder) -> anyhow::Result<()> {
    let target = message.finish();
    stream.write_all(target.as_stream_slice())?;
    Ok(())
}

/// Sends octets after their number, in one write (RFC 7766, section 8).
fn send_octets<S: Write>(alloc: Global, stream: &mut S, octets: &[u8]) -> anyhow::Result<()> {
    let Ok(count) = u16::try_from(octets.len()) else {
        bail!("a message is too long");
    };
    let mut framed = Vec::new(alloc);
    framed.extend_from_slice(&count.to_be_bytes())?;
    framed.extend_from_slice(octets)?;
    stream.write_all(framed.as_slice())?;
    Ok(())
}

/// Sends a message that is signed under a key, and gives its MAC.
pub(crate) fn send_signed<R: Clock, S: Write>(
    rt: &R,
    alloc: Global,
    stream: &mut S,
    key: &Key,
    message: AdditionalBuilder,
) -> anyhow::Result<Mac> {
    let secs = seconds(rt)?;
    match sign_request(alloc, key, secs, &message.into_message())? {
        Some(SignedRequest { octets, mac }) => {
            send_octets(alloc, stream, octets.as_slice())?;
            Ok(mac)
        }
        None => bail!("no TSIG has room"),
    }
}

/// Fills a buffer, unless that is to be given up.
fn fill<S: Read>(stream: &mut S, stop: &AtomicBool, buffer: &mut [u8]) -> anyhow::Result<()> {
    let mut filled = 0;
    'each: while filled < buffer.len() {
        if stop.load(Ordering::SeqCst) {
            bail!("the check was given up");
        }
        let count = stream.read(&mut buffer[filled..])?;
        if count == 0 {
            bail!("the connection ended");
        }
        filled += count;
    }
    Ok(())
}

/// Receives a message, unless that is to be given up.
pub(crate) fn receive<S: Read>(
    alloc: Global,
    stream: &mut S,
    stop: &AtomicBool,
) -> anyhow::Result<Message> {
    let mut length = [0u8; 2];
    fill(stream, stop, &mut length)?;
    let count = u16::from_be_bytes(length) as usize;
    let mut octets = vec![in alloc; 0u8; count]?;
    fill(stream, stop, octets.as_mut_slice())?;
    match Message::from_octets(octets) {
        Ok(message) => Ok(message),
        Err(_) => bail!("a message is too short"),
    }
}
