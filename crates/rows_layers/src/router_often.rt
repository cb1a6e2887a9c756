//! A router that is asked often, whose names are `x00000.example.` and so on, which `bench/router` times.

ghost use Rattle.std.specs.Prelude.{◌≤◌, ◌+◌, length};

use crate::often_rows::datagram;
use crate::router_rows::Refusing;
use dns_name::Name;
use dns_route::{QnameRouter, SingleService, Turned};
use dns_service::{Polled, Request, ServiceError};
use rows_table::{Row, RowError};
use std::alloc::Global;

/// The most names that there are.
const MOST: u64 = 100_000;

/// The octets of the first name.
const FIRST: [u8; 16] = *b"\x06x00000\x07example\x00";

/// The query for the address of `www.x00000.example.`
const QUERY: [u8; 36] =
    *b"\x12\x34\x01\x00\x00\x01\x00\x00\x00\x00\x00\x00\x03www\x06x00000\x07example\x00\x00\x01\x00\x01";

/// How far the name that is asked for is from the one that was asked for before: names far apart in turn.
const STRIDE: u64 = 61_803;

/// The sum of the answers of a router of that many names over that many turns, as the next words say.
pub(crate) fn often_routed(row: &mut Row<'_>) {
    let names = row.number::<u64>();
    let turns = row.number::<u64>();
    if names == 0 || names > MOST {
        return row.fail(RowError::OutOfForm);
    }
    match router_of(row.alloc(), names) {
        Some(router) => match answers(row.alloc(), &router, names, turns) {
            Some(sum) => row.show(&sum),
            None => row.fail(RowError::OutOfMemory),
        },
        None => row.fail(RowError::OutOfMemory),
    }
}

/// The error of the name of a number: four of them, in turn.
fn error_of(number: u64) -> ServiceError {
    match number % 4 {
        0 => ServiceError::FormatError,
        1 => ServiceError::InternalError,
        2 => ServiceError::NotImplemented,
        _ => ServiceError::Refused,
    }
}

fn digit(number: u64) -> u8 {
    b'0' + (number % 10) as u8
}

/// Writes the last five digits of a number.
fn write_digits(octets: &mut [u8], at: usize, number: u64)
    requires { at + 5 ≤ length octets.old }
{
    octets[at] = digit(number / 10_000);
    octets[at + 1] = digit(number / 1_000);
    octets[at + 2] = digit(number / 100);
    octets[at + 3] = digit(number / 10);
    octets[at + 4] = digit(number);
}

/// The name of a number.
fn name_of(alloc: Global, number: u64) -> Option<Name> {
    let mut octets = FIRST;
    write_digits(&mut octets, 2, number);
    match Vec::from_slice(alloc, &octets) {
        Ok(octets) => Name::from_octets(octets).ok(),
        Err(_) => None,
    }
}

fn add(alloc: Global, router: &mut QnameRouter<Refusing>, number: u64) -> Option<()> {
    let error = error_of(number);
    match name_of(alloc, number) {
        Some(name) => router.add(alloc, name, Refusing { error }).ok(),
        None => None,
    }
}

/// A router of that many names.
fn router_of(alloc: Global, names: u64) -> Option<QnameRouter<Refusing>> {
    let mut router = QnameRouter::new(alloc);
    for number in 0..names {
        add(alloc, &mut router, number)?;
    }
    Some(router)
}

/// The response code of the error that a router gives to a query that came in a datagram, 0 if it gives none.
fn code(alloc: Global, router: &QnameRouter<Refusing>, octets: &[u8]) -> Option<u64> {
    match datagram(alloc, octets) {
        Some(request) => turn_code(alloc, router, &request),
        None => None,
    }
}

fn turn_code(alloc: Global, router: &QnameRouter<Refusing>, request: &Request<()>) -> Option<u64> {
    match router.turn(alloc, request, 0) {
        Ok(turned) => Some(code_of(&turned)),
        Err(_) => None,
    }
}

fn code_of(turned: &Turned) -> u64 {
    match turned {
        Polled::Ready(Err(error)) => u64::from(error.rcode().to_int()),
        _ => 0,
    }
}

/// The sum of these codes over that many turns, each for a name of the router's.
fn answers(alloc: Global, router: &QnameRouter<Refusing>, names: u64, turns: u64) -> Option<u64> {
    let mut octets = QUERY;
    let mut number = 0u64;
    let mut sum = 0u64;
    for _i in 0..turns {
        number = number.wrapping_add(STRIDE).checked_rem(names).unwrap_or(0);
        write_digits(&mut octets, 18, number);
        match code(alloc, router, &octets) {
            Some(code) => sum = sum.wrapping_add(code),
            None => return None,
        }
    }
    Some(sum)
}
