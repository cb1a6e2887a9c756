//! An authority that is asked often, which `bench/authority` times. Its zone has the names `x00000.example.` and so on, after
//! 100,000 of one letter those of the letter before it.

ghost use Rattle.std.specs.Prelude.{◌≤◌, ◌+◌, length};
ghost use Rattle.dns_zone.specs.Owned.{AreLawful};

use crate::asking::size;
use crate::zones::push_octets;
use dns_authority::{Authority, Network};
use dns_base::Record;
use dns_middleware::{NoSecondaries, Wrapped};
use dns_name::{IpAddr, Name};
use dns_service::{Service, Settings};
use dns_zone_tree::ZoneTree;
use rows_table::{Calls, Row, RowError};

/// The most names that there are.
const MOST: u64 = 1_000_000;

/// How many names begin with one letter.
pub(crate) const OF_A_LETTER: u64 = 100_000;

/// How far the name that is asked for is from the one that was asked for before: names far apart in turn.
pub(crate) const STRIDE: u64 = 61_803;

/// The apex.
pub(crate) const APEX: [u8; 9] = *b"\x07example\x00";

/// The SOA record.
pub(crate) const SOA: [u8; 41] =
    *b"\x07example\x00\x00\x06\x00\x01\x00\x00\x0e\x10\x00\x16\x00\x00\x00\x00\x00\x01\x00\x00\x00\x02\x00\x00\x00\x03\x00\x00\x00\x04\x00\x00\x00\x05";

/// The address of the first name.
const ADDRESS: [u8; 30] =
    *b"\x06x00000\x07example\x00\x00\x01\x00\x01\x00\x00\x00\x3c\x00\x04\xc0\x00\x02\x01";

/// The query for the address of the first name.
const QUERY: [u8; 32] =
    *b"\x12\x34\x01\x00\x00\x01\x00\x00\x00\x00\x00\x00\x06x00000\x07example\x00\x00\x01\x00\x01";

/// The query for a transfer.
const TRANSFER: [u8; 25] =
    *b"\x12\x34\x00\x00\x00\x01\x00\x00\x00\x00\x00\x00\x07example\x00\x00\xfc\x00\x01";

/// The query for a name below a delegation.
const BELOW: [u8; 31] =
    *b"\x12\x34\x01\x00\x00\x01\x00\x00\x00\x00\x00\x00\x01x\x03sub\x07example\x00\x00\x01\x00\x01";

/// The NS record of the delegation's first server.
const SERVER: [u8; 40] =
    *b"\x03sub\x07example\x00\x00\x02\x00\x01\x00\x00\x0e\x10\x00\x11\x03ns0\x03sub\x07example\x00";

/// The address of that server.
const GLUE: [u8; 31] =
    *b"\x03ns0\x03sub\x07example\x00\x00\x01\x00\x01\x00\x00\x0e\x10\x00\x04\xc0\x00\x02\x01";

/// The secret of the server cookies of the layers.
const SECRET: [u8; 16] = [7; 16];

/// What is asked for many times over.
#[derive(Drop)]
enum Asked {
    /// The addresses of names.
    Addresses,
    /// A name below a delegation with four servers, whose addresses the zone has.
    Delegation,
    /// The whole zone.
    Transfer,
}

/// The sum of the octets of all replies of an authority that is asked often: alone, or in all four layers.
pub(crate) struct Often;

impl Calls for Often {
    fn answer(&self, call: &str, row: &mut Row<'_>) -> Result<(), RowError> {
        let (asked, is_layered) = match call {
            "often_asked" => (Asked::Addresses, false),
            "often_layered" => (Asked::Addresses, true),
            "often_referred" => (Asked::Delegation, true),
            "often_transferred" => (Asked::Transfer, false),
            _ => return Err(RowError::NoSuchCall),
        };
        summed(row, &asked, is_layered);
        Ok(())
    }
}

/// How many names the zone has and how often it is asked are the next words.
fn summed(row: &mut Row<'_>, asked: &Asked, is_layered: bool) {
    let names = row.number::<u64>();
    let times = row.number::<u64>();
    if names == 0 || names > MOST {
        return row.fail(RowError::OutOfForm);
    }
    let mut authority = Authority::new(row.alloc(), everywhere(row));
    add_zone(
        row,
        &mut authority,
        names,
        matches!(asked, Asked::Delegation),
    );
    if is_layered {
        match in_layers(row, authority) {
            Some(service) => answered(row, &service, asked, names, times),
            None => row.fail(RowError::OutOfMemory),
        }
    } else {
        answered(row, &authority, asked, names, times);
    }
}

/// An authority in all four layers.
pub(crate) fn in_layers(
    row: &mut Row<'_>,
    authority: Authority,
) -> Option<Wrapped<Authority, NoSecondaries>> {
    let mut settings = Settings::new(row.alloc());
    settings.cookies = Some(SECRET);
    Wrapped::new(row.alloc(), &settings, authority, NoSecondaries {}).ok()
}

/// Says the sum over that many questions.
fn answered<S: Service<()>>(row: &mut Row<'_>, service: &S, asked: &Asked, names: u64, times: u64)
    requires { S.can_call service.now }
{
    match asked {
        Asked::Addresses => asked_each(row, service, QUERY, names, times),
        Asked::Delegation => asked_again(row, service, &BELOW, times),
        Asked::Transfer => asked_again(row, service, &TRANSFER, times),
    }
}

/// The network of all addresses of version 4, alone.
pub(crate) fn everywhere(row: &mut Row<'_>) -> Vec<Network> {
    let mut networks = Vec::new(row.alloc());
    let network = Network {
        address: IpAddr::V4([0; 4]),
        bits: 0,
    };
    row.keep(networks.push(network));
    networks
}

fn digit(number: u64) -> u8 {
    b'0' + (number % 10) as u8
}

/// Writes a number's name: a letter and its last five digits.
pub(crate) fn write_name(octets: &mut [u8], at: usize, number: u64)
    requires { at + 6 ≤ length octets.old }
{
    octets[at] = b'x' - (number / OF_A_LETTER % 10) as u8;
    octets[at + 1] = digit(number / 10_000);
    octets[at + 2] = digit(number / 1_000);
    octets[at + 3] = digit(number / 100);
    octets[at + 4] = digit(number / 10);
    octets[at + 5] = digit(number);
}

/// Appends a delegation with four servers and their addresses.
fn push_delegation(row: &mut Row<'_>, records: &mut Vec<Record>)
    requires { AreLawful records.old.items }
    ensures { AreLawful records.new.items }
{
    let mut server = SERVER;
    let mut glue = GLUE;
    'each: for number in 0u8..4 {
        server[26] = b'0' + number;
        glue[3] = b'0' + number;
        push_octets(row, records, &server);
        push_octets(row, records, &glue);
    }
}

/// The records of that many names, after the SOA record.
fn records_of(row: &mut Row<'_>, names: u64) -> Vec<Record>
    ensures { AreLawful result.items }
{
    let mut records = Vec::new(row.alloc());
    push_octets(row, &mut records, &SOA);
    let mut octets = ADDRESS;
    'each: for number in 0..names {
        write_name(&mut octets, 1, number);
        push_octets(row, &mut records, &octets);
    }
    records
}

/// Adds the zone of that many names, with a delegation or without.
fn add_zone(row: &mut Row<'_>, authority: &mut Authority, names: u64, delegates: bool) {
    let apex = row.copied(&APEX);
    match Name::from_octets(apex) {
        Ok(apex) => {
            let mut records = records_of(row, names);
            if delegates {
                push_delegation(row, &mut records);
            }
            match ZoneTree::new(row.alloc(), apex, records) {
                Ok(zone) => added(row, authority, zone),
                Err(_) => row.fail(RowError::OutOfForm),
            }
        }
        Err(_) => row.fail(RowError::OutOfForm),
    }
}

fn added(row: &mut Row<'_>, authority: &mut Authority, zone: ZoneTree) {
    if authority.add(row.alloc(), zone).is_err() {
        row.fail(RowError::OutOfForm);
    }
}

/// Says the sum over that many questions, each for another name: at octet 13 of the query a name is written.
pub(crate) fn asked_each<S: Service<()>, const N: usize>(
    row: &mut Row<'_>,
    service: &S,
    query: [u8; N],
    names: u64,
    times: u64,
)
    requires can_call { S.can_call service.now }
    requires long { 19 ≤ N }
{
    let mut octets = query;
    let mut number = 0u64;
    let mut sum = 0u64;
    for _i in 0..times {
        number = number.wrapping_add(STRIDE).checked_rem(names).unwrap_or(0);
        write_name(&mut octets, 13, number);
        match size(row.alloc(), service, &octets) {
            Some(size) => sum = sum.wrapping_add(size),
            None => return row.fail(RowError::OutOfMemory),
        }
    }
    row.show(&sum)
}

/// Says the sum over that many times one question.
fn asked_again<S: Service<()>>(row: &mut Row<'_>, service: &S, query: &[u8], times: u64)
    requires { S.can_call service.now }
{
    let mut sum = 0u64;
    for _i in 0..times {
        match size(row.alloc(), service, query) {
            Some(size) => sum = sum.wrapping_add(size),
            None => return row.fail(RowError::OutOfMemory),
        }
    }
    row.show(&sum)
}
