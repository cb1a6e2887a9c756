//! Datagrams over sockets in memory.

use crate::forms::cases::{Trial, all_hold};
use crate::forms::sock_case::SockCase;
use dns_dgram_driver::DgramEnd;

/// The reply that the name isn't there, with the OPT record of an error reply.
const REPLY: &[u8] =
    b"\x12\x34\x81\x03\x00\x01\x00\x00\x00\x00\x00\x01\x00\x00\x01\x00\x01\x00\x00\x29\x00\x00\x00\x00\x00\x00\x00\x00";

/// The readings 1, 2, 3 and so on.
const READINGS: &[(u64, u64)] = &[
    (1, 0),
    (2, 0),
    (3, 0),
    (4, 0),
    (5, 0),
    (6, 0),
    (7, 0),
    (8, 0),
];

/// One query that is answered.
const ONE: SockCase<'static> = SockCase {
    ports: &[53],
    failed_receives: &[],
    receives_again: &[],
    failed_sends: &[],
    sends_again: &[],
    times: &[],
    stands: false,
    notes: u64::MAX,
    count: 1,
    is_shut: false,
    end: DgramEnd::Counted,
    reply: REPLY,
    answered: &[53],
    events: &[(b'D', 0, 0), (b'T', 0, 0), (b'T', 0, 0)],
    calls: b"rw",
};

/// A query from each of two clients: the first exchange is polled between the two receives, and again after the second.
const TWO: SockCase<'static> = SockCase {
    ports: &[53, 54],
    count: 2,
    answered: &[53, 54],
    events: &[
        (b'D', 0, 0),
        (b'T', 0, 0),
        (b'D', 1, 0),
        (b'T', 0, 0),
        (b'T', 1, 0),
        (b'T', 1, 0),
    ],
    calls: b"rwrw",
    ..ONE
};

/// A query for whose note there is no memory.
const UNNOTED: SockCase<'static> = SockCase {
    notes: 0,
    end: DgramEnd::OutOfMemory,
    answered: &[],
    events: &[],
    calls: b"r",
    ..ONE
};

/// Datagrams to a service that refuses each request or to another one, by names.
const CASES: &[(&'static str, Trial<SockCase<'static>>)] = &[
    ("two_clients_are_answered", Trial::Refused(TWO)),
    // The first receive fails: nothing is noted, and nothing sent.
    (
        "the_first_receive_fails",
        Trial::Refused(SockCase {
            failed_receives: &[0],
            end: DgramEnd::Fault,
            answered: &[],
            events: &[],
            calls: b"r",
            ..ONE
        }),
    ),
    // The first of two sends fails: a Fault of its exchange is noted, and the second answer is sent.
    (
        "the_first_send_fails",
        Trial::Refused(SockCase {
            failed_sends: &[0],
            answered: &[54],
            events: &[
                (b'D', 0, 0),
                (b'T', 0, 0),
                (b'F', 0, 0),
                (b'D', 1, 0),
                (b'T', 0, 0),
                (b'T', 1, 0),
                (b'T', 1, 0),
            ],
            ..TWO
        }),
    ),
    // After that many datagrams no more is received.
    (
        "one_of_two_is_served",
        Trial::Refused(SockCase {
            ports: &[53, 54],
            ..ONE
        }),
    ),
    // A send finds no room until as much time has passed as it may take: a Fault at that reading is noted.
    (
        "a_send_is_late",
        Trial::Refused(SockCase {
            sends_again: &[0, 1],
            times: &[(0, 0), (1, 0), (5_000, 5), (5_001, 5)],
            answered: &[],
            events: &[
                (b'D', 0, 0),
                (b'T', 0, 1),
                (b'F', 0, 5_001),
                (b'T', 0, 5_001),
            ],
            calls: b"rWzW",
            ..ONE
        }),
    ),
    // A send finds room again in time.
    (
        "a_send_is_in_time",
        Trial::Refused(SockCase {
            sends_again: &[0],
            times: &[(0, 0), (1, 0), (5_000, 5)],
            events: &[(b'D', 0, 0), (b'T', 0, 1), (b'T', 0, 5_000)],
            calls: b"rWzw",
            ..ONE
        }),
    ),
    // A socket without room is asked once a wait.
    (
        "a_full_socket_is_asked_once_a_wait",
        Trial::Refused(SockCase {
            sends_again: &[0, 1, 2, 3],
            times: &[(0, 0), (1, 0), (251, 0), (501, 0), (751, 0), (1_001, 1)],
            events: &[(b'D', 0, 0), (b'T', 0, 1), (b'T', 0, 1_001)],
            calls: b"rWzWzWzWzw",
            ..ONE
        }),
    ),
    // A shutdown is heard at the first look: nothing is received.
    (
        "a_shutdown_is_heard",
        Trial::Refused(SockCase {
            count: 0,
            is_shut: true,
            end: DgramEnd::Shutdown,
            answered: &[],
            events: &[(b'S', 0, 0)],
            calls: b"",
            ..ONE
        }),
    ),
    // A Turn right after its datagram has the datagram's moment, and one after a wait has a moment of its own.
    (
        "a_turn_has_the_datagrams_moment",
        Trial::Refused(SockCase {
            times: READINGS,
            stands: true,
            events: &[(b'D', 0, 1), (b'T', 0, 1), (b'T', 0, 2)],
            ..ONE
        }),
    ),
    // A second datagram has the moment of a reading after the first one's, and so have the Turns after it.
    (
        "each_datagram_has_a_reading_of_its_own",
        Trial::Refused(SockCase {
            times: READINGS,
            stands: true,
            events: &[
                (b'D', 0, 1),
                (b'T', 0, 1),
                (b'D', 1, 2),
                (b'T', 0, 2),
                (b'T', 1, 2),
                (b'T', 1, 3),
            ],
            ..TWO
        }),
    ),
    // Each receive and each send that answered Again is followed by a wait, until the reply is sent.
    (
        "a_wait_follows_each_again",
        Trial::Refused(SockCase {
            receives_again: &[0],
            sends_again: &[0],
            times: READINGS,
            stands: true,
            events: &[(b'D', 0, 1), (b'T', 0, 1), (b'T', 0, 3)],
            calls: b"RzrWzw",
            ..ONE
        }),
    ),
    // With memory for that many notes, how often the service is called and its future polled: an event is noted before the core takes
    // it, and what is not noted neither calls nor polls the service.
    ("no_call", Trial::Counted(UNNOTED, (0, 0))),
    (
        "no_poll",
        Trial::Counted(
            SockCase {
                notes: 1,
                events: &[(b'D', 0, 0)],
                ..UNNOTED
            },
            (1, 0),
        ),
    ),
    (
        "one_poll",
        Trial::Counted(
            SockCase {
                notes: 2,
                events: &[(b'D', 0, 0), (b'T', 0, 0)],
                ..UNNOTED
            },
            (1, 1),
        ),
    ),
    // The reply of a service in all layers, which has no OPT record, as the query has none.
    (
        "a_query_is_answered",
        Trial::Layered(
            SockCase {
                reply: b"\x12\x34\x81\x03\x00\x01\x00\x00\x00\x00\x00\x00\x00\x00\x01\x00\x01",
                ..ONE
            },
            true,
        ),
    ),
];

/// Each case is served as is wanted of it.
#[test]
fn each_case_is_served(rt: HostRuntime) -> Result<(), &'static str> {
    all_hold(&rt, rt.alloc(), CASES)
}
