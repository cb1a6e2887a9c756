//! Where a key is searched for among nodes in order.
//!
//! A guide says nothing of itself: whoever takes the place that it gives compares the keys before it and at it.

use crate::names::{Node, is_before, key_of};
use dns_name::OutOfMemory;
use std::alloc::Global;

/// How many nodes one number stands for.
const STEP: usize = 8;

/// Of each eighth key eight octets as a number: those behind what all keys begin with.
#[derive(Drop)]
pub(crate) struct Guide {
    skipped: usize,
    numbers: Vec<u64>,
}

/// The octet at a place, or 0 if there is none.
fn octet_at(octets: &[u8], place: usize) -> u8 {
    match octets.get(place) {
        Some(octet) => *octet,
        None => 0,
    }
}

/// Eight octets of a key from a place on, as a number.
fn number_of(key: &[u8], from: usize) -> u64 {
    let mut number = 0u64;
    'octets: for place in from..from.saturating_add(8) {
        number = number << 8 | octet_at(key, place) as u64;
    }
    number
}

/// How many octets two keys begin with alike.
fn shared(one: &[u8], other: &[u8]) -> usize {
    'octets: for (place, octet) in one.iter().enumerate() {
        if octet_at(other, place) != *octet {
            return place;
        }
    }
    one.len()
}

/// How many octets all keys begin with alike, given the nodes in order.
fn skipped_of(octets: &[u8], nodes: &[Node]) -> usize {
    match (nodes.first(), nodes.last()) {
        (Some(first), Some(last)) => shared(key_of(octets, first.span), key_of(octets, last.span)),
        _ => 0,
    }
}

impl Guide {
    /// That of no nodes.
    pub(crate) fn new(alloc: Global) -> Guide {
        Guide {
            skipped: 0,
            numbers: Vec::new(alloc),
        }
    }

    /// That of nodes in order.
    pub(crate) fn of(alloc: Global, octets: &[u8], nodes: &[Node]) -> Result<Guide, OutOfMemory> {
        let skipped = skipped_of(octets, nodes);
        let mut numbers = Vec::with_capacity(alloc, (nodes.len() / STEP).saturating_add(1))?;
        'each: for (place, node) in nodes.iter().enumerate() {
            if place % STEP == 0 {
                numbers.push(number_of(key_of(octets, node.span), skipped))?;
            }
        }
        Ok(Guide { skipped, numbers })
    }

    /// How many numbers are less than another, and how many are no greater.
    fn range(&self, number: u64) -> (usize, usize) {
        let numbers = self.numbers.as_slice();
        let low = numbers.partition_point(|other| *other < number);
        match numbers.get(low) {
            Some(next) if *next == number => {
                (low, numbers.partition_point(|other| *other <= number))
            }
            _ => (low, low),
        }
    }

    /// How many nodes may come before a key.
    pub(crate) fn count_before(&self, octets: &[u8], nodes: &[Node], key: &[u8]) -> usize {
        let (low, high) = self.range(number_of(key, self.skipped));
        let start = low.saturating_sub(1).saturating_mul(STEP);
        let end = high.saturating_mul(STEP).min(nodes.len());
        match nodes.get(start..end) {
            Some(some) => {
                start.saturating_add(some.partition_point(|node| is_before(octets, node, key)))
            }
            None => 0,
        }
    }
}
