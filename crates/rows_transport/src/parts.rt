//! The parts of servers: buffers, commands, metrics and links that count.

use dns_name::OutOfMemory;
use dns_outside::{Link, LinkRead, LinkWrite, SteadyLink};
use dns_transport::{BufSource, Metered, ServerCommand, ServerMetrics, VecBufSource};
use std::alloc::Global;
use std::sync::Arc;

/// Whether a usual buffer has 1,024 octets 0.
fn gives_usual(alloc: Global, source: &Arc<VecBufSource>) -> bool {
    match source.create_buf(alloc) {
        Ok(usual) => usual.len() == 1024 && usual[0] == 0 && usual[1023] == 0,
        Err(_) => false,
    }
}

/// Whether a buffer of three octets has three octets 0.
fn gives_three(alloc: Global, source: &Arc<VecBufSource>) -> bool {
    match source.create_sized(alloc, 3) {
        Ok(three) => three.as_slice() == [0, 0, 0].as_slice(),
        Err(_) => false,
    }
}

/// Whether a source that is shared gives both.
fn gives_both(alloc: Global) -> bool {
    match Arc::new(alloc, VecBufSource) {
        Ok(source) => gives_usual(alloc, &source) && gives_three(alloc, &source),
        Err(_) => false,
    }
}

/// Whether a command is copied with what it carries.
fn is_copied() -> bool {
    let command = ServerCommand::Reconfigure(3u8);
    let copy = command;
    matches!(
        (command, copy),
        (ServerCommand::Reconfigure(3), ServerCommand::Reconfigure(3))
    )
}

/// Whether each number is set, raised and lowered alone, and 1 less than 0 is the largest number.
fn stand_alone(metrics: &ServerMetrics) -> bool {
    metrics.inc_num_connections();
    metrics.set_num_inflight_requests(5);
    metrics.dec_num_inflight_requests();
    metrics.dec_num_pending_writes();
    metrics.inc_num_received_requests();
    metrics.inc_num_received_requests();
    metrics.set_num_sent_responses(7);
    metrics.num_connections() == 1
        && metrics.num_inflight_requests() == 4
        && metrics.num_pending_writes() == usize::MAX
        && metrics.num_received_requests() == 2
        && metrics.num_sent_responses() == 7
}

/// Whether the number of connections stays 0, which metrics without connections show.
fn leave_out(metrics: &ServerMetrics) -> bool {
    metrics.inc_num_connections();
    metrics.set_num_connections(9);
    metrics.num_connections() == 0 && metrics.num_sent_responses() == 0
}

/// Octets of frames: one of three octets, two empty ones, one of one octet, and one that isn't whole.
const FRAMES: &[u8] = b"\x00\x03abc\x00\x00\x00\x01d\x00\x05begun";

/// Reads and writes all of a link, that many octets a call.
fn pass_all(link: &mut Metered<SteadyLink>, octets: &[u8]) {
    let mut room = [0u8; 4];
    for _ in 0..100u8 {
        if link.read(&mut room) == LinkRead::End {
            break;
        }
    }
    for octet in octets {
        link.write(&[*octet]);
    }
}

/// A link over the frames, which counts for these metrics.
fn link_of(
    alloc: Global,
    metrics: &Arc<ServerMetrics>,
) -> Result<Metered<SteadyLink>, OutOfMemory> {
    let metrics = Arc::try_clone(metrics)?;
    match Vec::from_slice(alloc, FRAMES) {
        Ok(octets) => Ok(Metered::new(SteadyLink::new(octets, Vec::new(alloc)), Some(metrics))),
        Err(_) => Err(OutOfMemory),
    }
}

/// Whether the link counts one connection, from the first `connect` to the first `close`, and the frames that are passed.
fn counts_frames(link: &mut Metered<SteadyLink>, metrics: &ServerMetrics) -> bool {
    link.connect();
    link.connect();
    let one = metrics.num_connections() == 1;
    pass_all(link, &FRAMES[..12]);
    link.close();
    link.close();
    one && metrics.num_connections() == 0
        && metrics.num_received_requests() == 4
        && metrics.num_sent_responses() == 3
        && link.inner().written() == &FRAMES[..12]
}

/// Whether a link does by these metrics.
fn counts_by(alloc: Global, metrics: &Arc<ServerMetrics>) -> bool {
    match link_of(alloc, metrics) {
        Ok(mut link) => counts_frames(&mut link, metrics),
        Err(_) => false,
    }
}

/// Whether a link does by metrics of its own.
fn counts(alloc: Global) -> bool {
    match Arc::new(alloc, ServerMetrics::connection_oriented()) {
        Ok(metrics) => counts_by(alloc, &metrics),
        Err(_) => false,
    }
}

/// What a test ends with, if all parts do as is wanted, and else the name of the first that doesn't.
fn all_hold(alloc: Global) -> Result<(), &'static str> {
    // Buffers have 1,024 octets 0, or as many as are asked for, from a source that is shared too.
    if !gives_both(alloc) {
        return Err("buffers_are_zeros");
    }
    if !is_copied() {
        return Err("a_command_is_copied");
    }
    if !stand_alone(&ServerMetrics::connection_oriented()) {
        return Err("numbers_stand_alone");
    }
    if !leave_out(&ServerMetrics::default()) {
        return Err("connections_may_be_left_out");
    }
    // A link counts frames whose length or message comes in pieces, empty ones too, and the connection until it is closed.
    if !counts(alloc) {
        return Err("a_link_counts_frames");
    }
    Ok(())
}

/// Each part does as is wanted.
#[test]
fn each_part_holds(rt: HostRuntime) -> Result<(), &'static str> {
    all_hold(rt.alloc())
}
