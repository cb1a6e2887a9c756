//! Connections over links in memory.

use crate::forms::cases::{Trial, all_hold};
use crate::forms::link_case::LinkCase;
use dns_service::Why;
use dns_stream_driver::ConnectionEnd;

/// A query for the root's address, after its length.
const QUERY: &[u8] =
    b"\x00\x11\x12\x34\x01\x00\x00\x01\x00\x00\x00\x00\x00\x00\x00\x00\x01\x00\x01";

/// The reply that the name isn't there, after its length, with the OPT record of an error reply.
const REPLY: &[u8] =
    b"\x00\x1c\x12\x34\x81\x03\x00\x01\x00\x00\x00\x00\x00\x01\x00\x00\x01\x00\x01\x00\x00\x29\x00\x00\x00\x00\x00\x00\x00\x00";

/// The frame of the query, twice.
const TWICE: &[u8] =
    b"\x00\x11\x12\x34\x01\x00\x00\x01\x00\x00\x00\x00\x00\x00\x00\x00\x01\x00\x01\x00\x11\x12\x34\x01\x00\x00\x01\x00\x00\x00\x00\x00\x00\x00\x00\x01\x00\x01";

const REPLIES: &[u8] =
    b"\x00\x1c\x12\x34\x81\x03\x00\x01\x00\x00\x00\x00\x00\x01\x00\x00\x01\x00\x01\x00\x00\x29\x00\x00\x00\x00\x00\x00\x00\x00\x00\x1c\x12\x34\x81\x03\x00\x01\x00\x00\x00\x00\x00\x01\x00\x00\x01\x00\x01\x00\x00\x29\x00\x00\x00\x00\x00\x00\x00\x00";

/// Three responses after their lengths, of a header alone. Each is refused at once.
const RESPONSES: &[u8] =
    b"\x00\x0c\x00\x01\x80\x00\x00\x00\x00\x00\x00\x00\x00\x00\x00\x0c\x00\x02\x80\x00\x00\x00\x00\x00\x00\x00\x00\x00\x00\x0c\x00\x03\x80\x00\x00\x00\x00\x00\x00\x00\x00\x00";

/// The refusals of the first two, after their lengths, and the first ten octets of that of the third.
const REFUSALS: &[u8] =
    b"\x00\x17\x00\x01\x80\x01\x00\x00\x00\x00\x00\x00\x00\x01\x00\x00\x29\x00\x00\x00\x00\x00\x00\x00\x00\x00\x17\x00\x02\x80\x01\x00\x00\x00\x00\x00\x00\x00\x01\x00\x00\x29\x00\x00\x00\x00\x00\x00\x00\x00\x00\x17\x00\x03\x80\x01\x00\x00\x00\x00";

/// Readings of which the last one comes an hour after the others.
const LATE: &[(u64, u64)] = &[(0, 0), (1, 0), (2, 0), (3, 0), (3_600_004, 3_600)];

/// The query is answered, and then the connection ends.
const ONE: LinkCase<'static> = LinkCase {
    octets: QUERY,
    most: 4096,
    failed_reads: &[],
    reads_again: &[],
    failed_writes: &[],
    writes_again: &[],
    times: &[],
    shut_before: false,
    shut_at_waits: false,
    notes: u64::MAX,
    end: ConnectionEnd::Closed(Why::Ended),
    events: b"OPTWE",
    written: REPLY,
    calls: b"rwrc",
};

/// Without memory for the note of the request's turn, its reply is never written.
const UNNOTED: LinkCase<'static> = LinkCase {
    notes: 2,
    end: ConnectionEnd::OutOfMemory,
    events: b"OP",
    written: b"",
    calls: b"rc",
    ..ONE
};

/// Connections to a service that refuses each request or to another one, by names.
const CASES: &[(&'static str, Trial<LinkCase<'static>>)] = &[
    ("a_query_is_answered", Trial::Refused(ONE)),
    // A link that moves one octet a call, and gives the query twice: one Write for each frame.
    (
        "one_octet_a_call",
        Trial::Refused(LinkCase {
            octets: TWICE,
            most: 1,
            writes_again: &[1, 3],
            events: b"OPPPPPPPPPPPPPPPPPPPTWPTPPPPPPPPPPPPPPPPPPTWE",
            written: REPLIES,
            calls: b"rrrrrrrrrrrrrrrrrrrwWzwWzwwwwwwwwwwwwwwwwwwwwwwwwwwwwrrrrrrrrrrrrrrrrrrrwwwwwwwwwwwwwwwwwwwwwwwwwwwwwwrc",
            ..ONE
        }),
    ),
    // The first read fails: nothing is written.
    (
        "the_first_read_fails",
        Trial::Refused(LinkCase {
            failed_reads: &[0],
            end: ConnectionEnd::Closed(Why::Fault),
            events: b"OF",
            written: b"",
            calls: b"rc",
            ..ONE
        }),
    ),
    // The second write of a frame fails: a front of it was written.
    (
        "a_write_fails",
        Trial::Refused(LinkCase {
            most: 10,
            failed_writes: &[1],
            end: ConnectionEnd::Closed(Why::Fault),
            events: b"OPPTF",
            written: b"\x00\x1c\x12\x34\x81\x03\x00\x01\x00\x00",
            calls: b"rrwwc",
            ..ONE
        }),
    ),
    // A write finds no room for longer than it may take.
    (
        "a_write_takes_too_long",
        Trial::Refused(LinkCase {
            writes_again: &[0],
            times: LATE,
            end: ConnectionEnd::Closed(Why::WriteTimeout),
            events: b"OPTL",
            written: b"",
            calls: b"rWzc",
            ..ONE
        }),
    ),
    // A frame is written whole, but that takes longer than it may.
    (
        "a_whole_write_is_late",
        Trial::Refused(LinkCase {
            times: LATE,
            end: ConnectionEnd::Closed(Why::WriteTimeout),
            events: b"OPTL",
            calls: b"rwc",
            ..ONE
        }),
    ),
    // A shutdown is heard at the first look: nothing is read.
    (
        "a_shutdown_is_heard",
        Trial::Refused(LinkCase {
            shut_before: true,
            end: ConnectionEnd::Closed(Why::Shutdown),
            events: b"OS",
            written: b"",
            calls: b"c",
            ..ONE
        }),
    ),
    // Each wait follows a call that answered Again, and each such call is followed by one, which is short if a request is
    // unfinished: the stream of the reply is not at its end yet.
    (
        "a_wait_follows_each_again",
        Trial::Refused(LinkCase {
            most: 20,
            reads_again: &[0, 2],
            writes_again: &[0, 2, 3],
            events: b"OIPTWITE",
            calls: b"RzrWzwWzWzwRyrc",
            ..ONE
        }),
    ),
    ("what_is_not_noted_is_not_written", Trial::Refused(UNNOTED)),
    // While the first of three frames is written, the server is reconfigured and shuts down, which is noted in this order; of the
    // two frames that wait then the first is written, and the second in part: its second write fails.
    (
        "a_flush_fails",
        Trial::Refused(LinkCase {
            octets: RESPONSES,
            failed_writes: &[8],
            writes_again: &[0],
            shut_at_waits: true,
            end: ConnectionEnd::Closed(Why::Fault),
            events: b"OPWRSWF",
            written: REFUSALS,
            calls: b"rWzwwwwwwwwc",
            ..ONE
        }),
    ),
    // With memory for that many notes, how often the service is called and its future polled: an event is noted before the core takes
    // it, and what is not noted neither calls nor polls the service.
    (
        "no_call",
        Trial::Counted(
            LinkCase {
                notes: 1,
                events: b"O",
                ..UNNOTED
            },
            (0, 0),
        ),
    ),
    ("no_poll", Trial::Counted(UNNOTED, (1, 0))),
    (
        "one_poll",
        Trial::Counted(
            LinkCase {
                notes: 3,
                events: b"OPT",
                calls: b"rrc",
                ..UNNOTED
            },
            (1, 1),
        ),
    ),
    // A query with an OPT record to a service in all layers, and its reply. That says after how many units of 100 ms an idle
    // connection is closed (RFC 7828).
    (
        "a_wrapped_service_answers",
        Trial::Layered(
            LinkCase {
                octets: b"\x00\x1c\x12\x34\x01\x00\x00\x01\x00\x00\x00\x00\x00\x01\x00\x00\x01\x00\x01\x00\x00\x29\x00\x00\x00\x00\x00\x00\x00\x00",
                written: b"\x00\x22\x12\x34\x81\x00\x00\x01\x00\x00\x00\x00\x00\x01\x00\x00\x01\x00\x01\x00\x00\x29\x00\x00\x00\x00\x00\x00\x00\x06\x00\x0b\x00\x02\x01\x2c",
                ..ONE
            },
            false,
        ),
    ),
];

/// Each connection is served as is wanted of it.
#[test]
fn each_case_is_served(rt: HostRuntime) -> Result<(), &'static str> {
    all_hold(&rt, rt.alloc(), CASES)
}
