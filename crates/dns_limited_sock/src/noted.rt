//! Networks whose limits are noted for a log.

ghost use Rattle.std.specs.Prelude.{◌≡◌, ◌≤◌, [], length};
ghost use Rattle.dns_limited_sock.specs.Judging.{MayNote, noted_at};

use dns_name::IpAddr;
use std::alloc::Global;
use std::marker::Model;

/// How many networks are noted in a minute.
const MOST: usize = 64;

/// A network whose replies are limited, by an address of it and how many bits are the network's.
#[derive(Clone, Copy)]
pub struct LimitNote {
    pub address: IpAddr,
    pub bits: u8,
}

/// The networks that were noted in a minute, 64 at most.
#[derive(Drop)]
pub(crate) struct Noted {
    minute: u64,
    networks: Vec<IpAddr>,
    ghost bounded: { length networks.items ≤ 64 },
}

impl Model for Noted {
    ghost use Rattle.dns_limited_sock.specs.Judging.{NotedState};

    ghost Value = { NotedState };

    ghost view = { λ n. record { minute = n.minute; networks = n.networks.items } };
}

impl Noted {
    /// None yet.
    pub(crate) fn new(alloc: Global) -> Noted
        ensures { result.networks ≡ [] }
    {
        Noted {
            minute: 0,
            networks: Vec::new(alloc),
        }
    }

    /// Goes on to a minute.
    fn go_on(&mut self, minute: u64)
        ensures { self.new ≡ noted_at minute self.old }
    {
        if self.minute != minute {
            self.minute = minute;
            self.networks.clear();
        }
    }

    /// Whether a network is to be noted in a minute: it wasn't yet, and there is room. It is noted then.
    pub(crate) fn is_first(&mut self, network: IpAddr, minute: u64) -> bool
        ensures { MayNote network (noted_at minute self.old) self.new result }
    {
        self.go_on(minute);
        if self.networks.len() >= MOST || self.networks.contains(&network) {
            return false;
        }
        self.networks.push(network).is_ok()
    }
}
